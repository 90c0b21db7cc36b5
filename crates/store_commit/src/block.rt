//! Block 0 of the card.

ghost use Rattle.std.specs.Prelude.{◌≡◌, ◌==◌, IfErr, IfOk, Ok};
ghost use Rattle.std.specs.List.{list_all};
ghost use Rattle.crash_core.specs.CardBlock.{IsReference, directory_at, first_outside, has_form_at, root_in};
ghost use Rattle.node_image.specs.References.{current_format};
ghost use Rattle.store_commit.specs.Blocks.{IsRootRefused, block_answer};

use crate::fault::MountFault;
use byte_fields::field;
use node_image::{FORMAT, RootRef};
use tee_types::{DIRECTORY_FILE, OLD_DIRECTORY_FILE};

/// The number of the directory's file, by its format.
#[tactic(auto, unfolding(tee_types::specs::Limits::directory_file))]
pub fn directory_at(format: u8) -> u16
    ensures { result ≡ directory_at format }
{
    if format == 1 { 0 } else { DIRECTORY_FILE }
}

// The byte at an offset has its form, in a block of that format.
fn has_form_at(format: u8, offset: u16, byte: u8) -> bool
    ensures { result ≡ has_form_at format offset byte }
{
    if offset == 0 {
        1 <= byte && byte <= 2
    } else if offset == 1 {
        byte < 2
    } else if offset < 4 {
        byte == directory_at(format).to_be_bytes()[offset as usize - 2]
    } else {
        offset < 36 || byte == 0
    }
}

// The first byte outside its form.
fn first_outside(block: &[u8; 256]) -> Option<u16>
    ensures { result ≡ first_outside block.now 0 256 }
{
    for i in 0..256u16 {
        if !has_form_at(block[0], i, block[i as usize]) {
            return Some(i);
        }
    }
    None
}

// All bytes are zero.
fn is_zero(block: &[u8; 256]) -> bool
    ensures { result ≡ list_all (λ x. x == 0) block.now }
{
    block.iter().all(|x| *x == 0)
}

/// The reference that the card's block 0 names, of the current format.
///
/// # Errors
///
/// `OldFormat` of the old directory's file where it names one of the old format. Besides those of `root_in`.
pub(crate) fn root_served(block: &[u8; 256]) -> Result<RootRef, MountFault>
    ensures named { IfOk result (λ r. Ok r ≡ block_answer (root_in block.now)) }
    ensures form { IfOk result IsReference }
    ensures current { IfOk result (λ r. r.format ≡ current_format) }
    ensures refused { IfErr result (IsRootRefused block.now) }
{
    let root = root_in(block)?;
    if root.format != FORMAT {
        let file = OLD_DIRECTORY_FILE;
        return Err(MountFault::OldFormat { file });
    }
    Ok(root)
}

/// The reference that the card's block 0 names.
///
/// # Errors
///
/// `NoStore` where all bytes are zero, else `CardBlock` with the first byte that is outside the form of such a block.
pub fn root_in(block: &[u8; 256]) -> Result<RootRef, MountFault>
    ensures answer { result ≡ block_answer (root_in block.now) }
    ensures form { IfOk result IsReference }
{
    if is_zero(block) {
        return Err(MountFault::NoStore);
    }
    match first_outside(block) {
        Some(byte) => Err(MountFault::CardBlock { byte }),
        None => Ok(RootRef {
            hash: field(block, 4),
            version: block[1],
            format: block[0],
        }),
    }
}
