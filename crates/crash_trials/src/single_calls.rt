// What single calls of a file in memory do, and its controls.

use crate::outcome::{Outcome, Tally};
use mem_files::MemFile;
use std::alloc::{AllocError, Global};
use tee_ports::{Failed, FileRig, Image, StoreFile};

// A file of these bytes, with nothing pending.
fn file_of(alloc: Global, bytes: &[u8]) -> Result<MemFile, AllocError> {
    let mut file = MemFile::new(alloc);
    file.restore(&Image::from_vec(bytes.to_vec(alloc)?))?;
    Ok(file)
}

// A write past the end, a cut and a growth fill with zero bytes, and a read ends with the file.
fn fills_with_zero(alloc: Global) -> anyhow::Result<bool> {
    let mut file = MemFile::new(alloc);
    let mut into = [9; 8];
    let written = file.write_at(3, b"ab") == Ok(());
    let read = file.read_at(1, &mut into) == Ok(4);
    let sized = file.set_len(4) == Ok(()) && file.set_len(6) == Ok(());
    let bytes = file.save()?;
    Ok(
        written
            && read
            && into == [0, 0, b'a', b'b', 9, 9, 9, 9]
            && sized
            && bytes.bytes() == [0, 0, 0, b'a', 0, 0].as_slice(),
    )
}

// What a crash leaves of 40 bytes that were written over and not settled, in the file of that number.
fn left(alloc: Global, number: u16) -> anyhow::Result<Image> {
    let mut file = file_of(alloc, &[1; 40])?;
    let _written = file.write_at(8, &[2; 30]);
    file.crash(4, number)?;
    Ok(file.save()?)
}

// A crash depends on the number of the file.
fn crashes_by_number(alloc: Global) -> anyhow::Result<bool> {
    Ok(left(alloc, 1)?.bytes() != left(alloc, 2)?.bytes())
}

// A stop fails all calls from the named one on.
fn stops(alloc: Global) -> bool {
    let mut file = MemFile::new(alloc);
    file.stop_after(1);
    file.sync() == Ok(())
        && file.write_at(0, b"a") == Err(Failed { count: 1 })
        && file.len() == Err(Failed { count: 2 })
}

// Only the calls that are armed fail, until the file is disarmed.
fn fails_by_call(alloc: Global) -> anyhow::Result<bool> {
    let mut file = MemFile::new(alloc);
    file.fail_call(2)?;
    file.fail_call(3)?;
    let armed = file.write_at(0, b"a") == Ok(())
        && file.sync() == Err(Failed { count: 1 })
        && file.set_len(9) == Err(Failed { count: 2 })
        && file.len() == Ok(1);
    file.fail_call(1)?;
    file.disarm();
    Ok(armed && file.len() == Ok(1) && file.starved() == 0)
}

// The write at which a device stops may stand after a crash, later ones may not.
fn stops_within_a_write(alloc: Global) -> anyhow::Result<bool> {
    let mut file = file_of(alloc, &[1; 6])?;
    file.stop_after(0);
    let stopped = file.write_at(2, &[4, 4]) == Err(Failed { count: 1 })
        && file.write_at(4, &[5, 5]) == Err(Failed { count: 2 });
    file.crash(1, 0)?;
    Ok(stopped && file.save()?.bytes() == [1, 1, 4, 4, 1, 1].as_slice())
}

// A mask strikes before its call and not earlier.
fn masks_before_a_call(alloc: Global) -> anyhow::Result<bool> {
    let mut file = file_of(alloc, &[1, 2, 3])?;
    file.taint_call(2, 1, &[0x00, 0xff, 0xff])?;
    let mut first = [0; 3];
    let mut second = [0; 3];
    let read = file.read_at(0, &mut first) == Ok(3) && file.read_at(0, &mut second) == Ok(3);
    Ok(read && first == [1, 2, 3] && second == [1, 2, 0xfc])
}

// An older image is put back and settled, and bytes that are flipped are settled too.
fn goes_back(alloc: Global) -> anyhow::Result<bool> {
    let mut file = file_of(alloc, &[5, 6])?;
    let written = file.write_at(1, &[7, 8]) == Ok(());
    file.flip(2, &[0x0f, 0xff]);
    file.crash(0, 0)?;
    Ok(written && file.save()?.bytes() == [5, 7, 7].as_slice())
}

/// Makes the calls; what differs is lost.
pub fn tally(alloc: Global) -> anyhow::Result<Tally> {
    let mut tally = Tally::new();
    for is_right in [
        fills_with_zero(alloc)?,
        crashes_by_number(alloc)?,
        stops(alloc),
        fails_by_call(alloc)?,
        stops_within_a_write(alloc)?,
        masks_before_a_call(alloc)?,
        goes_back(alloc)?,
    ] {
        tally.add(if is_right {
            Outcome::After
        } else {
            Outcome::Lost
        });
    }
    Ok(tally)
}
