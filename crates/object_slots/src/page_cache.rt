// Pages that are kept in memory.
ghost use Rattle.std.specs.Prelude.{◌≡◌, ◌⊎◌, ◌+◌, ◌≤◌, ℕ, List, [], length, Contains, IfOk};
ghost use Rattle.std.specs.Bool.{OnFalse, OnTrue};
ghost use Rattle.object_slots.specs.CachedPages.{CopiesKept, kept_in, pages_of};

use lru::LruCache;
use page_bytes::ByteRange;
use std::alloc::{AllocError, Global};
use std::marker::Model;
use std::num::NonZeroUsize;

/// How many pages are kept at most.
const MOST_PAGES: usize = 16;

/// The pages of some blocks of a tree, by the numbers of the blocks: at most 16, those that were used last.
#[derive(Drop)]
pub(crate) struct PageCache {
    alloc: Global,
    // None until a page is kept.
    pages: Option<LruCache<u32, Vec<u8>>>,
}

impl Model for PageCache {
    ghost use Rattle.std.specs.Prelude.{ℕ, List};
    ghost use Rattle.object_slots.specs.CachedPages.{kept_in};

    ghost Value = { List (ℕ × List ℕ) };

    ghost view = { λ c. kept_in c.pages (λ page. page.items) };
}

// Copies the bytes of the range that block `k` has to their places in `into`, if its page is there, which then is the one that was used
// last.
fn copy_page(pages: &mut LruCache<u32, Vec<u8>>, range: ByteRange, k: u32, into: &mut [u8]) -> bool
    requires { range.last ≤ range.first + length into.old }
    ensures same { (kept : ℕ × List ℕ) → Contains (pages_of pages.new.entries (λ page. page.items)) kept
        → Contains (pages_of pages.old.entries (λ page. page.items)) kept }
    ensures hit { OnTrue result (CopiesKept (pages_of pages.old.entries (λ page. page.items)) range k into.old into.new) }
    ensures miss { OnFalse result (into.new ≡ into.old) }
{
    let Some(page) = pages.peek(&k) else {
        return false;
    };
    let Some(page) = page.first_chunk::<4096>() else {
        return false;
    };
    range.copy_out(k, page, into);
    let _ = pages.promote(&k);
    true
}

// Puts the page of block `k` among the others, in place of the one that was used longest ago where there are 16.
fn put_page(pages: &mut LruCache<u32, Vec<u8>>, k: u32, page: Vec<u8>)
    ensures { (kept : ℕ × List ℕ) → Contains (pages_of pages.new.entries (λ page. page.items)) kept
        → Contains (pages_of pages.old.entries (λ page. page.items)) kept ⊎ (kept ≡ (k, page.items)) }
{
    // Where no memory is found, the page is left out.
    let _ = pages.put(k, page);
}

// A cache with the page of block `k` alone, if memory is found for it.
fn first_page(alloc: Global, k: u32, page: Vec<u8>) -> Option<LruCache<u32, Vec<u8>>>
    ensures { (kept : ℕ × List ℕ) → Contains (kept_in result (λ page. page.items)) kept → kept ≡ (k, page.items) }
{
    let most = NonZeroUsize::new(MOST_PAGES).unwrap();
    let Ok(mut pages) = LruCache::new(alloc, most) else {
        return None;
    };
    put_page(&mut pages, k, page);
    Some(pages)
}

impl PageCache {
    /// A cache without a page. It asks for no memory until a page is kept.
    pub(crate) fn new(alloc: Global) -> PageCache
        ensures { result ≡ [] }
    {
        PageCache { alloc, pages: None }
    }

    /// Lets all pages go.
    pub(crate) fn clear(&mut self)
        ensures { self.new ≡ [] }
    {
        self.pages = None;
    }

    /// A page to read a block into.
    pub(crate) fn new_page(&self) -> Result<Vec<u8>, AllocError>
        ensures { IfOk result (λ page. length page.items ≡ 4096) }
    {
        vec![in self.alloc; 0; 4096]
    }

    /// Copies the bytes of the range that block `k` has to their places in `into`, if its page is kept, and says whether it is.
    pub(crate) fn copy_out(&mut self, range: ByteRange, k: u32, into: &mut [u8]) -> bool
        requires { range.last ≤ range.first + length into.old }
        ensures same { (kept : ℕ × List ℕ) → Contains self.new kept → Contains self.old kept }
        ensures hit { OnTrue result (CopiesKept self.old range k into.old into.new) }
        ensures miss { OnFalse result (into.new ≡ into.old) }
    {
        let Some(pages) = &mut self.pages else {
            return false;
        };
        copy_page(pages, range, k, into)
    }

    /// Keeps the page of block `k`, in place of the one that was used longest ago where there are 16. Where no memory is found for it, it
    /// is left out.
    pub(crate) fn keep(&mut self, k: u32, page: Vec<u8>)
        ensures { (kept : ℕ × List ℕ) → Contains self.new kept → Contains self.old kept ⊎ (kept ≡ (k, page.items)) }
    {
        let Some(pages) = &mut self.pages else {
            self.pages = first_page(self.alloc, k, page);
            return;
        };
        put_page(pages, k, page);
    }
}
