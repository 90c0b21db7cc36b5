//! What an application has, by the entries of a directory.

ghost use Rattle.std.specs.Prelude.{◌≡◌, ◌<◌, ◌≤◌, ◌*◌, ◌^◌, length};
ghost use Rattle.std.specs.Ordering.{is_eq};
ghost use Rattle.tee_types.specs.Identifier.{bytes_cmp};
ghost use Rattle.app_totals.specs.EntryTotals.{is_entry_of, bytes_by, entry_totals};

use crate::numbers::Totals;
use dir_records::DirEntry;
use tee_types::AppId;

// Whether the two are one application.
fn is_same(app: AppId, other: AppId) -> bool
    ensures { result ≡ is_eq (bytes_cmp app other) }
{
    app == other
}

// Whether the entry is that of an object of the application.
fn is_entry_of(app: AppId, entry: &Option<DirEntry>) -> bool
    ensures { result ≡ is_entry_of app entry.now }
{
    match entry {
        Some(entry) => is_same(app, entry.app),
        None => false,
    }
}

// The bytes of data of the entry's object, where it is one of the application.
fn bytes_by(app: AppId, entry: &Option<DirEntry>) -> u64
    ensures bytes { result ≡ bytes_by app entry.now }
    ensures fits { result < 2 ^ 32 }
{
    match entry {
        Some(entry) if is_same(app, entry.app) => u64::from(entry.size),
        _ => 0,
    }
}

/// How many entries are of the application's objects, and how many bytes of data these have.
pub fn entry_totals(app: AppId, entries: &[Option<DirEntry>]) -> Totals
    requires { length entries.now < 2 ^ 16 }
    ensures totals { result ≡ entry_totals app entries.now }
    ensures objects_fit { result.objects ≤ length entries.now }
    ensures bytes_fit { result.bytes ≤ length entries.now * 2 ^ 32 }
{
    let mut objects = 0u16;
    let mut bytes = 0u64;
    for entry in entries {
        if is_entry_of(app, entry) {
            objects += 1;
        }
        bytes += bytes_by(app, entry);
    }
    Totals { objects, bytes }
}
