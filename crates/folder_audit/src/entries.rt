//! Auditing the objects of a directory, one after the other.

ghost use Rattle.std.specs.Prelude.{◌≡◌, ◌<◌, ◌≤◌, length, vec_len};
ghost use Rattle.std.specs.Vec.{vec_capacity};
ghost use Rattle.disk_model.specs.State.{FileState};
ghost use Rattle.tee_types.specs.Limits.{file_count};
ghost use Rattle.dir_file.specs.EntryForms.{AreEntriesOf};
ghost use Rattle.dir_records.specs.Form.{HasForm};
ghost use Rattle.folder_audit.specs.Audit.{ListAnswer, OnlyReads, folder_states, with_directory};
ghost use Rattle.folder_audit.specs.Entries.{EntryAnswer, FileAnswer};
ghost use Rattle.folder_audit.specs.Order.{AreNamesOf};

use crate::certifying::Under;
use crate::fault::AuditFault;
use crate::finding::Finding;
use crate::lines::print_line;
use crate::objects::audit_object;
use crate::order::entry_of;
use dir_index::{DirIndex, Held};
use dir_records::DirEntry;
use htree_file::Tree;
use tee_ports::StoreFile;

// Audits the object of an entry, whose file is taken out of its place and put back. No memory is taken for that.
fn audit_file<G: StoreFile + Drop>(
    under: &Under,
    files: &mut Vec<G>,
    dir: &mut Tree<G>,
    held: &Held,
) -> Result<Finding, AuditFault>
    requires files { vec_len files.old ≡ file_count }
    requires low { held.now.index < 256 }
    requires form { HasForm held.now.entry }
    ensures answer { FileAnswer under.now.keys under.now.block dir.old.tree held.now.index held.now.entry
        (folder_states G.state (with_directory files.old.items dir.old.file)) (folder_states G.state (with_directory files.new.items dir.new.file)) result }
    ensures rests { OnlyReads (folder_states G.state (with_directory files.old.items dir.old.file)) (folder_states G.state (with_directory files.new.items dir.new.file)) }
    ensures last { (none : FileState) → folder_states G.state (with_directory files.new.items dir.new.file) none file_count
        ≡ folder_states G.state (with_directory files.old.items dir.old.file) none file_count }
    ensures dir { dir.new ≡ record dir.old { file = dir.new.file } }
    ensures whole { vec_len files.new ≡ file_count }
    ensures capacity { vec_capacity files.old ≤ vec_capacity files.new }
{
    let place = held.entry.file as usize;
    let file = files.remove(place);
    let (file, found) = audit_object(under, dir, held.index, &held.entry, file);
    match files.insert(place, file) {
        Ok(()) => found,
        Err(_) => unreachable!(),
    }
}

// Audits the object of an entry, and prints its line.
fn audit_entry<G: StoreFile + Drop>(
    under: &Under,
    files: &mut Vec<G>,
    dir: &mut Tree<G>,
    held: &Held,
    lines: &mut Vec<u8>,
) -> Result<(), AuditFault>
    requires files { vec_len files.old ≡ file_count }
    requires low { held.now.index < 256 }
    requires form { HasForm held.now.entry }
    ensures answer { EntryAnswer under.now.keys under.now.block dir.old.tree held.now.index held.now.entry
        (folder_states G.state (with_directory files.old.items dir.old.file)) (folder_states G.state (with_directory files.new.items dir.new.file))
        lines.old.items lines.new.items result }
    ensures rests { OnlyReads (folder_states G.state (with_directory files.old.items dir.old.file)) (folder_states G.state (with_directory files.new.items dir.new.file)) }
    ensures last { (none : FileState) → folder_states G.state (with_directory files.new.items dir.new.file) none file_count
        ≡ folder_states G.state (with_directory files.old.items dir.old.file) none file_count }
    ensures dir { dir.new ≡ record dir.old { file = dir.new.file } }
    ensures whole { vec_len files.new ≡ file_count }
    ensures capacity { vec_capacity files.old ≤ vec_capacity files.new }
{
    match audit_file(under, files, dir, held) {
        Ok(finding) => match print_line(lines, &held.entry, &finding) {
            Ok(()) => Ok(()),
            Err(_) => Err(AuditFault::NoMemory),
        },
        Err(fault) => Err(fault),
    }
}

/// Audits the objects of a directory in the order of their names, and prints the line of each. What a certificate needs is let go with its
/// line, so that memory is taken for one object at a time.
///
/// # Errors
///
/// A call of a file failed, or memory ran out. The lines so far stay.
pub(crate) fn audit_entries<G: StoreFile + Drop>(
    under: &Under,
    files: &mut Vec<G>,
    dir: &mut Tree<G>,
    entries: &[Option<DirEntry>],
    names: &DirIndex,
    lines: &mut Vec<u8>,
) -> Result<(), AuditFault>
    requires files { vec_len files.old ≡ file_count }
    requires entries { AreEntriesOf entries.now }
    requires names { AreNamesOf entries.now names.now.entries }
    ensures answer { ListAnswer under.now.keys under.now.block dir.old.tree entries.now
        (folder_states G.state (with_directory files.old.items dir.old.file)) (folder_states G.state (with_directory files.new.items dir.new.file))
        names.now.entries lines.old.items lines.new.items result }
    ensures rests { OnlyReads (folder_states G.state (with_directory files.old.items dir.old.file)) (folder_states G.state (with_directory files.new.items dir.new.file)) }
    ensures last { (none : FileState) → folder_states G.state (with_directory files.new.items dir.new.file) none file_count
        ≡ folder_states G.state (with_directory files.old.items dir.old.file) none file_count }
    ensures dir { dir.new ≡ record dir.old { file = dir.new.file } }
    ensures whole { vec_len files.new ≡ file_count }
    ensures capacity { vec_capacity files.old ≤ vec_capacity files.new }
{
    for place in 0..names.len() {
        let held = entry_of(entries, names, place);
        match audit_entry(under, files, dir, &held, lines) {
            Ok(()) => {}
            Err(fault) => return Err(fault),
        }
    }
    Ok(())
}
