// The entry of a record of the directory.

ghost use Rattle.std.specs.Prelude.{◌≡◌, IfOk};
ghost use Rattle.dir_records.specs.Form.{HasForm};
ghost use Rattle.image_audit.specs.Checking.{entry_in, record_offset};

use crate::fault::CertFault;
use dir_records::DirEntry;

// Where a record is refused. The format is tested before the last byte.
fn record_offset(format: u8, offset: u8) -> u8
    ensures { result ≡ record_offset format offset }
{
    if format == 1 && offset == 127 {
        122
    } else {
        offset
    }
}

/// The entry of a record of the current format.
///
/// # Errors
///
/// `Free` where all bytes are zero, else `Record` with the first field that is outside its form.
pub(crate) fn entry_in(bytes: &[u8; 128]) -> Result<DirEntry, CertFault>
    ensures answer { result ≡ entry_in bytes.now }
    ensures form { IfOk result HasForm }
{
    match DirEntry::from_bytes(bytes) {
        Ok(Some(entry)) => {
            if entry.format == 1 {
                return Err(CertFault::Record { offset: 122 });
            }
            Ok(entry)
        }
        Ok(None) => Err(CertFault::Free),
        Err(bad) => Err(CertFault::Record {
            offset: record_offset(bytes[122], bad.offset),
        }),
    }
}
