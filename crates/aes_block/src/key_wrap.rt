ghost use Rattle.std.specs.Prelude.{◌≡◌, ℕ, List, length};
ghost use Rattle.aes_block.specs.State.{IsBytes};
ghost use Rattle.aes_block.specs.WrappedKey.{unwrapped_of, wrapped_of, wrapping_key};

use crate::Aes128;

// The first half of a storage key, where it stands.
fn first_half(tsk: &[u8; 32]) -> &[u8; 16]
    ensures { result.now ≡ wrapping_key tsk.now }
{
    tsk.first_chunk().unwrap()
}

/// The key of a file, `fek` (file encryption key), wrapped under a storage key of 32 bytes, `tsk` (trusted application
/// storage key): one block, which AES-128 enciphers under the first 16 bytes of `tsk`.
pub fn wrap(tsk: &[u8; 32], fek: &[u8; 16]) -> [u8; 16]
    ensures { result ≡ wrapped_of tsk.now fek.now }
{
    let mut block = *fek;
    Aes128::new(first_half(tsk)).encrypt(&mut block);
    block
}

/// The key of a file from `wrapped`, which `wrap` made of it under the same storage key `tsk`. Nothing tells whether
/// `wrapped` was made so: any other block gives the block that it deciphers to.
pub fn unwrap_key(tsk: &[u8; 32], wrapped: &[u8; 16]) -> [u8; 16]
    ensures value { result ≡ unwrapped_of tsk.now wrapped.now }
    ensures undoes { (fek : List ℕ) → IsBytes fek → length fek ≡ 16 → wrapped.now ≡ wrapped_of tsk.now fek → result ≡ fek }
{
    let mut block = *wrapped;
    Aes128::new(first_half(tsk)).decrypt(&mut block);
    block
}
