//! The bytes of one file are copied into another.

ghost use Rattle.std.specs.Prelude.{◌≡◌, ◌+◌, ◌-◌, ◌<◌, ◌≤◌, ◌^◌, ◌++◌, length, min, take, drop, replicate, IfErr, IfOk, IsTrue, OnOk};
ghost use Rattle.disk_model.specs.Bytes.{after_resize, after_write};
ghost use Rattle.disk_model.specs.Calls.{GoesOn, Known, Rests};
ghost use Rattle.tee_ports.specs.Files.{HasCause, Passes};
ghost use Rattle.folder_export.specs.declared.fault.FilePlace.TheVariants.{Bench, Folder};
ghost use Rattle.folder_export.specs.Copies.{CopiesFile, CopiesFront, FileFailed, IsSettled, IsTold, OneFailed, WritesFile};

use crate::fault::{FileFault, FilePlace};
use tee_ports::{Failed, StoreFile};

/// How many bytes are copied at a time.
const PAGE: u64 = 4_096;

/// A file of a store has no more bytes than this.
const MOST_BYTES: u64 = 4_294_967_295;

// The fault of a file of the bench.
fn bench_fault(number: u16, failed: Failed) -> FileFault
    ensures { result ≡ record { place = Bench number; count = failed.count } }
{
    FileFault {
        place: FilePlace::Bench(number),
        count: failed.count,
    }
}

// The fault of a file of the folder.
fn folder_fault(number: u16, failed: Failed) -> FileFault
    ensures { result ≡ record { place = Folder number; count = failed.count } }
{
    FileFault {
        place: FilePlace::Folder(number),
        count: failed.count,
    }
}

// How many bytes of a file are copied.
fn copied_length<F: StoreFile>(from: &mut F) -> Result<u64, Failed>
    ensures rests { Rests (F.state from.old) (F.state from.new) }
    ensures told { IfOk result (λ count. IsTold (F.state from.old) (F.state from.new) → count ≡ length (F.state from.new).reads) }
    ensures few { IfOk result (λ count. count < 2 ^ 32) }
    ensures cause { HasCause (F.state from.old) (F.state from.new) result }
{
    let length = from.len()?;
    Ok(length.min(MOST_BYTES))
}

// Zero from a place on.
fn clear_from(bytes: &mut [u8], from: usize)
    requires { from ≤ length bytes.old }
    ensures { bytes.new ≡ take from bytes.old ++ replicate (length bytes.old - from) 0 }
{
    bytes[from..].fill(0);
}

// Reads the bytes from a place on, with zero past the file's end.
fn read_part<F: StoreFile>(from: &mut F, at: u64, part: &mut [u8]) -> Result<(), Failed>
    requires { at + length part.old < 2 ^ 32 }
    ensures rests { Rests (F.state from.old) (F.state from.new) }
    ensures told { OnOk result (IsTrue (F.state from.new).tells → at + length part.old ≤ length (F.state from.new).reads →
        part.new ≡ take (length part.old) (drop at (F.state from.new).reads)) }
    ensures cause { HasCause (F.state from.old) (F.state from.new) result }
{
    let count = from.read_at(at, part)?;
    clear_from(part, count);
    Ok(())
}

// Copies the bytes from a place on to the same place, as many as the part has room for.
fn copy_part<F: StoreFile, G: StoreFile>(
    number: u16,
    from: &mut F,
    to: &mut G,
    at: u64,
    part: &mut [u8],
) -> Result<(), FileFault>
    requires { at + length part.old < 2 ^ 32 }
    ensures rests { Rests (F.state from.old) (F.state from.new) }
    ensures goes_on { GoesOn (G.state to.old) (G.state to.new) }
    ensures passed { OnOk result (Passes (F.state from.old) (F.state from.new) × Passes (G.state to.old) (G.state to.new)) }
    ensures told { OnOk result (IsTrue (F.state from.new).tells → at + length part.old ≤ length (F.state from.new).reads →
        part.new ≡ take (length part.old) (drop at (F.state from.new).reads)) }
    ensures written { OnOk result (Known (G.state to.old) (G.state to.new) → (G.state to.new).reads ≡ after_write (G.state to.old).reads at part.new) }
    ensures once { OnOk result ((G.state to.new).written ≡ min ((G.state to.old).written + length part.old) (2 ^ 64 - 1)) }
    ensures err { IfErr result (λ fault. OneFailed fault.place fault.count number (F.state from.old) (F.state from.new) (G.state to.old) (G.state to.new)) }
{
    if let Err(failed) = read_part(from, at, part) {
        return Err(bench_fault(number, failed));
    }
    match to.write_at(at, part) {
        Ok(()) => Ok(()),
        Err(failed) => Err(folder_fault(number, failed)),
    }
}

// Copies so many bytes, page by page.
fn copy_pages<F: StoreFile, G: StoreFile>(
    number: u16,
    from: &mut F,
    to: &mut G,
    length: u64,
) -> Result<(), FileFault>
    requires { length < 2 ^ 32 }
    ensures rests { Rests (F.state from.old) (F.state from.new) }
    ensures goes_on { GoesOn (G.state to.old) (G.state to.new) }
    ensures ok { OnOk result (CopiesFront length (F.state from.old) (F.state from.new) (G.state to.old) (G.state to.new)) }
    ensures err { IfErr result (λ fault. OneFailed fault.place fault.count number (F.state from.old) (F.state from.new) (G.state to.old) (G.state to.new)) }
{
    let mut page = [0; PAGE as usize];
    let mut at = 0;
    while at < length {
        let count = PAGE.min(length - at);
        match copy_part(number, from, to, at, &mut page[..count as usize]) {
            Ok(()) => at += count,
            Err(fault) => return Err(fault),
        }
    }
    Ok(())
}

// Ends a file at a place, and settles it.
fn end_at<G: StoreFile>(to: &mut G, length: u64) -> Result<(), Failed>
    requires { length < 2 ^ 32 }
    ensures goes_on { GoesOn (G.state to.old) (G.state to.new) }
    ensures passed { OnOk result (Passes (G.state to.old) (G.state to.new)) }
    ensures resized { OnOk result (Known (G.state to.old) (G.state to.new) → (G.state to.new).reads ≡ after_resize (G.state to.old).reads length) }
    ensures same { OnOk result ((G.state to.new).written ≡ (G.state to.old).written) }
    ensures settled { OnOk result (IsSettled (G.state to.new)) }
    ensures err { IfErr result (λ failed. FileFailed (G.state to.old) (G.state to.new) failed.count) }
{
    to.set_len(length)?;
    to.sync()?;
    Ok(())
}

/// Copies the bytes of the bench's file of a number into the folder's, which then has no others, and settles them.
///
/// # Errors
///
/// A call of one of the files failed. The folder's may hold anything then.
pub(crate) fn export_file<F: StoreFile, G: StoreFile>(
    number: u16,
    from: &mut F,
    to: &mut G,
) -> Result<(), FileFault>
    ensures rests { Rests (F.state from.old) (F.state from.new) }
    ensures goes_on { GoesOn (G.state to.old) (G.state to.new) }
    ensures ok { OnOk result (CopiesFile (F.state from.old) (F.state from.new) (G.state to.old) (G.state to.new)) }
    ensures err { IfErr result (λ fault. OneFailed fault.place fault.count number (F.state from.old) (F.state from.new) (G.state to.old) (G.state to.new)) }
{
    let length = match copied_length(from) {
        Ok(length) => length,
        Err(failed) => return Err(bench_fault(number, failed)),
    };
    if let Err(fault) = copy_pages(number, from, to, length) {
        return Err(fault);
    }
    match end_at(to, length) {
        Ok(()) => Ok(()),
        Err(failed) => Err(folder_fault(number, failed)),
    }
}

/// Writes the card's block into a file of the folder, which then has no other bytes, and settles it.
///
/// # Errors
///
/// A call of the file failed. It may hold anything then.
pub(crate) fn export_block<G: StoreFile>(to: &mut G, block: &[u8; 256]) -> Result<(), Failed>
    ensures goes_on { GoesOn (G.state to.old) (G.state to.new) }
    ensures ok { OnOk result (WritesFile block.now (G.state to.old) (G.state to.new)) }
    ensures err { IfErr result (λ failed. FileFailed (G.state to.old) (G.state to.new) failed.count) }
{
    to.write_at(0, block)?;
    end_at(to, 256)?;
    Ok(())
}
