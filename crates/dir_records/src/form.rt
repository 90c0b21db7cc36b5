//! The form of an entry's bytes.

ghost use Rattle.std.specs.Prelude.{◌≡◌, drop};
ghost use Rattle.byte_fields.specs.Field.{field};
ghost use Rattle.dir_records.specs.Layout.{id_length};
ghost use Rattle.dir_records.specs.Form.{first_fault, is_free, is_upto, tests};

use byte_fields::field;
use tee_types::{MAX_ATTRIBUTES, MAX_DATA, MAX_FILE, MAX_IDENTIFIER};

/// The last format of the file of an object; the first is 1.
const LAST_FORMAT: u16 = 2;

/// Whether bytes hold no entry: all are zero.
pub(crate) fn is_free(bytes: &[u8; 128]) -> bool
    ensures { result ≡ is_free bytes.now }
{
    bytes.iter().all(|byte| *byte == 0)
}

/// Whether all bytes behind the identifier are zero.
fn is_padded(bytes: &[u8; 128]) -> bool
    ensures { result ≡ is_free (drop (id_length bytes.now) (field 16 64 bytes.now)) }
{
    let name: [u8; 64] = field(bytes, 16);
    name.iter().skip(bytes[80] as usize).all(|byte| *byte == 0)
}

/// Whether a number is one from 1 on.
fn is_upto(most: u16, n: u16) -> bool
    ensures { result ≡ is_upto most n }
{
    1 <= n && n <= most
}

/// Each field that has a form, in the order of the tests: whether it is outside it, and its offset.
fn tests(bytes: &[u8; 128]) -> [(bool, u8); 8]
    ensures { result ≡ tests bytes.now }
{
    let file = u16::from_be_bytes(field(bytes, 82));
    let size = u32::from_be_bytes(field(bytes, 116));
    let attributes = u16::from_be_bytes(field(bytes, 120));
    [
        (!is_upto(MAX_IDENTIFIER as u16, u16::from(bytes[80])), 80),
        (!is_padded(bytes), 16),
        (1 < bytes[81], 81),
        (!is_upto(MAX_FILE, file), 82),
        (MAX_DATA < size as usize, 116),
        (MAX_ATTRIBUTES < usize::from(attributes), 120),
        (!is_upto(LAST_FORMAT, u16::from(bytes[122])), 122),
        (bytes[127] != 0, 127),
    ]
}

/// Where the first field stands that is outside its form.
#[tactic(auto, unfolding(crate::specs::Form::first_fault))]
pub(crate) fn first_fault(bytes: &[u8; 128]) -> Option<u8>
    ensures { result ≡ first_fault bytes.now }
{
    tests(bytes).iter().find(|test| test.0).map(|test| test.1)
}
