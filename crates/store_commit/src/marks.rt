//! Marks of the files that are in use.

ghost use Rattle.std.specs.Prelude.{◌≡◌, ◌<◌, ◌≤◌, IfSome, Some, length};
ghost use Rattle.std.specs.Option.{option_map};
ghost use Rattle.tee_types.specs.Limits.{last_file};
ghost use Rattle.dir_file.specs.EntryForms.{HasForms};
ghost use Rattle.store_commit.specs.Holds.{file_held};
ghost use Rattle.store_commit.specs.Marks.{AreMarked, IsFirstUnmarked, file_named, mark_count, marked};

use dir_records::DirEntry;
use tee_types::{MAX_FILE, MAX_SESSIONS};

/// A mark of each number up to that of the last file of an object.
pub(crate) const MARKS: usize = MAX_FILE as usize + 1;

// Marks a file, if there is one.
fn mark(marks: &mut [bool; MARKS], file: Option<u16>)
    requires { IfSome file (λ n. n ≤ last_file) }
    ensures { marks.new ≡ marked marks.old file }
{
    if let Some(file) = file {
        marks[file as usize] = true;
    }
}

// The file that a session holds.
fn held_by(holds: &[Option<u16>; MAX_SESSIONS], session: usize) -> Option<u16>
    requires { session < 16 }
    ensures { result ≡ file_held holds.now session }
{
    holds[session]
}

// The file that an entry names.
fn file_of(entry: &Option<DirEntry>) -> Option<u16>
    ensures { result ≡ option_map (λ e. e.file) entry.now }
{
    match entry {
        Some(entry) => Some(entry.file),
        None => None,
    }
}

/// Marks the files that entries name.
pub(crate) fn mark_named(marks: &mut [bool; MARKS], entries: &[Option<DirEntry>])
    requires whole { length entries.now ≡ 256 }
    requires forms { HasForms entries.now }
    ensures { AreMarked (file_named entries.now) 256 marks.old marks.new }
{
    for index in 0..256u16 {
        mark(marks, file_of(&entries[index as usize]));
    }
}

/// Marks the files that sessions hold.
pub(crate) fn mark_held(marks: &mut [bool; MARKS], holds: &[Option<u16>; MAX_SESSIONS])
    requires within { (session : _) (file : _) → file_held holds.now session ≡ Some file → file ≤ last_file }
    ensures { AreMarked (file_held holds.now) 16 marks.old marks.new }
{
    for session in 0..MAX_SESSIONS {
        mark(marks, held_by(holds, session));
    }
}

/// The least file from 1 on that is not marked; not all are.
pub(crate) fn first_unmarked(marks: &[bool; MARKS]) -> u16
    requires { mark_count marks.now < last_file }
    ensures { IsFirstUnmarked marks.now result }
{
    for file in 1..MARKS as u16 {
        if !marks[file as usize] {
            return file;
        }
    }
    unreachable!()
}
