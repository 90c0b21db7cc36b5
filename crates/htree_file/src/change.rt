// Blocks that change, and the pages that a version of a tree gets.
ghost use Rattle.std.specs.Prelude.{◌≡◌, ◌<◌, ◌≤◌, length};
ghost use Rattle.htree_file.specs.Changes.{block_at, changes_of, page_at};

use crate::fault::Page;

/// A block of a tree that gets a new page. Blocks are numbered from 0.
#[derive(Clone, Copy, Drop)]
pub struct BlockChange {
    pub block: u32,
    pub page: Page,
}

/// The pages that are written: those of all blocks, or of the blocks that change.
#[derive(Clone, Copy, Drop)]
pub(crate) enum NewPages<'a> {
    All(&'a [Page]),
    Changed(&'a [BlockChange]),
}

impl<'a> NewPages<'a> {
    /// How many there are.
    pub(crate) fn count(&self) -> usize
        ensures { result ≡ length (changes_of self.now) }
    {
        match self {
            NewPages::All(pages) => pages.len(),
            NewPages::Changed(changes) => changes.len(),
        }
    }

    /// The block of the page at a place.
    pub(crate) fn block(&self, place: usize) -> u32
        requires { (place < length (changes_of self.now)) × (length (changes_of self.now) ≤ 256) }
        ensures { result ≡ block_at (changes_of self.now) place }
    {
        match self {
            NewPages::All(_) => place as u32,
            NewPages::Changed(changes) => changes[place].block,
        }
    }

    /// The page at a place.
    pub(crate) fn page(&self, place: usize) -> &'a Page
        requires { (place < length (changes_of self.now)) × (length (changes_of self.now) ≤ 256) }
        ensures { result.now ≡ page_at (changes_of self.now) place }
    {
        match self {
            NewPages::All(pages) => &pages[place],
            NewPages::Changed(changes) => &changes[place].page,
        }
    }
}
