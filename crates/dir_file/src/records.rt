// The entries in the pages of a directory.
ghost use Rattle.std.specs.Prelude.{◌≡◌, ℕ, ◌<◌, ◌≤◌, length, option_map};
ghost use Rattle.store_model.specs.Name.{name_eq};
ghost use Rattle.crash_core.specs.Entries.{first_double, first_like, is_double, name_of, record_at};
ghost use Rattle.dir_file.specs.Pages.{Parses, some_pages};

use byte_fields::field;
use crash_core::DirFault;
use dir_records::{BadRecord, DirEntry};
use htree_file::{Page, TreeFault};
use std::alloc::Global;

// What the 128 bytes of entry i hold.
fn record_in(pages: &[Page], i: u16) -> Result<Option<DirEntry>, BadRecord>
    requires { (length pages.now ≡ 8) × (i < 256) }
    ensures { result ≡ record_at (some_pages pages.now) i }
{
    let page = &pages[(i / 32) as usize];
    let bytes: [u8; 128] = field(page, 128 * (i % 32) as usize);
    DirEntry::from_bytes(&bytes)
}

// The entries, or the first that is refused.
pub(crate) fn parse(alloc: Global, pages: &[Page]) -> Result<Vec<Option<DirEntry>>, DirFault>
    requires { length pages.now ≡ 8 }
    ensures { Parses (some_pages pages.now) (λ v. v.items) result }
{
    let mut entries = Vec::new(alloc);
    for i in 0..256u16 {
        match record_in(pages, i) {
            Ok(entry) => match entries.push(entry) {
                Ok(()) => {}
                Err(_) => return Err(DirFault::Tree(TreeFault::NoMemory)),
            },
            Err(bad) => {
                return Err(DirFault::Record {
                    index: i,
                    offset: bad.offset,
                });
            }
        }
    }
    Ok(entries)
}

// Two entries have the same name.
fn has_name(a: &DirEntry, b: &DirEntry) -> bool
    ensures { result ≡ name_eq (name_of a.now) (name_of b.now) }
{
    a.app == b.app && a.id == b.id
}

// Two entries have the same name, or the same file.
fn is_double(a: &Option<DirEntry>, b: &Option<DirEntry>) -> bool
    ensures { result ≡ is_double a.now b.now }
{
    match (a, b) {
        (Some(a), Some(b)) => has_name(a, b) || a.file == b.file,
        _ => false,
    }
}

// The first of so many entries that is a double of this one.
fn first_like(entries: &[Option<DirEntry>], entry: &Option<DirEntry>, count: u16) -> Option<u16>
    requires { count ≤ length entries.now }
    ensures { result ≡ first_like entries.now entry.now 0 count }
{
    for j in 0..count {
        if is_double(&entries[j as usize], entry) {
            return Some(j);
        }
    }
    None
}

/// The first entry that is a double of an earlier one, and the first such.
pub(crate) fn first_double(entries: &[Option<DirEntry>]) -> Option<(u16, u16)>
    requires { length entries.now ≡ 256 }
    ensures { result ≡ first_double entries.now 0 256 }
{
    for i in 0..256u16 {
        if let Some(first) = first_like(entries, &entries[i as usize], i) {
            return Some((i, first));
        }
    }
    None
}
