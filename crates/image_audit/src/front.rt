// The part that each certificate has.

ghost use Rattle.std.specs.Prelude.{◌≡◌, ◌<◌, ◌≤◌, length, IfOk};
ghost use Rattle.image_audit.specs.Checking.{first_wrong, front, is_wrong};

use crate::fault::CertFault;
use byte_fields::field;

/// What each certificate begins with.
pub(crate) const MARK: &[u8; 8] = b"TEECERT1";

// The byte is missing, not the mark's, or the first of an index above 255.
fn is_wrong(bytes: &[u8], at: u32) -> bool
    ensures { result ≡ is_wrong bytes.now at }
{
    let place = at as usize;
    if bytes.len() <= place {
        return true;
    }
    if at < 8 {
        return bytes[place] != MARK[place];
    }
    at == 8 && bytes[place] != 0
}

// The first byte that is wrong.
fn first_wrong(bytes: &[u8]) -> Option<u32>
    ensures { result ≡ first_wrong bytes.now }
{
    (0..4698u32).find(|at| is_wrong(bytes, *at))
}

/// The entry's index.
///
/// # Errors
///
/// `Form` with the first byte that is wrong or missing.
pub(crate) fn front(bytes: &[u8]) -> Result<u16, CertFault>
    ensures answer { result ≡ front bytes.now }
    ensures fixed { IfOk result (λ index. (4698 ≤ length bytes.now) × (index < 256)) }
{
    match first_wrong(bytes) {
        Some(at) => Err(CertFault::Form { at }),
        None => Ok(u16::from_be_bytes(field(bytes, 8))),
    }
}
