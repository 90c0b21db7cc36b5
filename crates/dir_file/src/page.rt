// The page of a block of the directory.
ghost use Rattle.std.specs.Prelude.{◌≡◌, ℕ, ◌+◌, ◌*◌, ◌<◌, length, slice_set, slice_index_or, get_or, IfSome, None, Ok};
ghost use Rattle.byte_fields.specs.Field.{field};
ghost use Rattle.dir_records.specs.Form.{HasForm, record_of};
ghost use Rattle.dir_file.specs.EntryForms.{HasForms};

use byte_fields::put;
use dir_records::DirEntry;
use htree_file::Page;

// The 128 bytes of an entry, or of none.
fn record_bytes(entry: &Option<DirEntry>) -> [u8; 128]
    requires { IfSome entry.now HasForm }
    ensures { record_of result ≡ Ok entry.now }
{
    match entry {
        Some(entry) => entry.to_bytes(),
        None => [0; 128],
    }
}

// Entry i after one entry was changed.
fn entry_after(
    entries: &[Option<DirEntry>],
    index: u16,
    entry: &Option<DirEntry>,
    i: u32,
) -> Option<DirEntry>
    requires few { (length entries.now ≡ 256) × (i < 256) × (index < 256) }
    requires forms { HasForms entries.now }
    requires form { IfSome entry.now HasForm }
    ensures entry { result ≡ get_or (slice_set entries.now index entry.now) i None }
    ensures form { IfSome result HasForm }
{
    if i == u32::from(index) {
        *entry
    } else {
        entries[i as usize]
    }
}

/// The page of a block after one entry was changed.
pub(crate) fn directory_page(
    entries: &[Option<DirEntry>],
    index: u16,
    entry: &Option<DirEntry>,
    block: u32,
    page: &mut Page,
)
    requires few { (length entries.now ≡ 256) × (block < 8) × (index < 256) }
    requires forms { HasForms entries.now }
    requires form { IfSome entry.now HasForm }
    ensures { (j : ℕ) → j < 32 → record_of (field (128 * j) 128 page.new) ≡ Ok (get_or (slice_set entries.now index entry.now) (32 * block + j) None) }
{
    for j in 0..32u32 {
        let at = entry_after(entries, index, entry, 32 * block + j);
        put(page, 128 * j as usize, &record_bytes(&at));
    }
}
