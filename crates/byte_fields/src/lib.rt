//! Fields of fixed width among bytes: a row of bytes is cut into its fields, and put together from them. Fields that are
//! secret are compared by `equal_bytes`, and overwritten by `wipe`.
#![tactic(auto)]

ghost use Rattle.std.specs.Prelude.{◌≡◌, ◌≤◌, ◌+◌, length, replicate, bytes_eq};
ghost use Rattle.byte_fields.specs.Field.{field, with_field};

use std::hint::spin_loop;

/// The field of N bytes at the offset.
pub fn field<const N: usize>(bytes: &[u8], offset: usize) -> [u8; N]
    requires { offset + N ≤ length bytes.now }
    ensures { result ≡ field offset N bytes.now }
{
    let mut part = [0; N];
    part.copy_from_slice(&bytes[offset..offset + N]);
    part
}

/// Puts a field at the offset. All else stays.
pub fn put(bytes: &mut [u8], offset: usize, field: &[u8])
    requires { offset + length field.now ≤ length bytes.old }
    ensures { bytes.new ≡ with_field offset field.now bytes.old }
{
    bytes[offset..offset + field.len()].copy_from_slice(field);
}

/// Overwrites secrets with zero bytes, where they lie. Call it before the place is let go: a value that is moved, into `drop`
/// too, is a copy, and the bytes at its old place stay.
///
/// No clause can say that the machine is told to store them. It is: the function stays out of line, and the processor's
/// pause in it is an effect to the compiler, so neither a call nor the stores of its body are left out.
#[inline(never)]
pub fn wipe(secrets: &mut [u8])
    ensures { secrets.new ≡ replicate (length secrets.old) 0 }
{
    secrets.fill(0);
    spin_loop();
}

/// Whether two fields are equal. MACs, tags, keys and nonces are compared by this alone.
///
/// It looks at every byte: a comparison that ends at the first difference tells by its time where that
/// is, and so gives a MAC away byte by byte. No clause can say how long a call takes.
pub fn equal_bytes<const N: usize>(a: &[u8; N], b: &[u8; N]) -> bool
    ensures { result ≡ bytes_eq a.now b.now }
{
    let mut differ = 0u8;
    for i in 0..N {
        differ |= a[i] ^ b[i];
    }
    differ == 0
}
