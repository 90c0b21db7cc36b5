// The directory in a certificate.

ghost use Rattle.std.specs.Prelude.{◌≡◌, ℕ, ◌<◌, ◌≤◌, length, IfOk, IsTrue, MatchResult, Result};
ghost use Rattle.byte_fields.specs.Field.{field};
ghost use Rattle.node_image.specs.Layout.{head_of, is_sized};
ghost use Rattle.image_audit.specs.Certificate.{index_in};
ghost use Rattle.image_audit.specs.Checking.{directory_page, head_test, is_directory_head};

use crate::fault::ProofFault;
use crate::trees::{BLANK, check_nodes, head_at, open_block, read_nodes};
use aes_block::{Aes128, unwrap_key};
use byte_fields::field;
use hmac_keys::{Keys, dir_tsk, ssk};
use htree_file::Page;
use node_image::{Head, RootRef};

// How many bytes a directory has: 256 records of 128.
const DIRECTORY_BYTES: u64 = 32768;

// The directory's head.
fn directory_head(bytes: &[u8]) -> Result<Head, ProofFault>
    requires { 42 ≤ length bytes.now }
    ensures head { result ≡ head_test (is_directory_head (field 10 32 bytes.now)) (head_of (field 10 32 bytes.now)) }
    ensures eight { IfOk result (λ h. h.greatest ≡ 8) }
{
    let head = head_at(bytes, 10)?;
    let (length, greatest) = (head.length, head.greatest);
    if length != DIRECTORY_BYTES {
        return Err(ProofFault::BadHead { length, greatest });
    }
    Ok(head)
}

/// The page of the entry's block, into the page.
///
/// # Errors
///
/// The first that holds: `BadHead` where the head has not the form of a directory's, `Damaged` where the nodes do not hash
/// to the reference, `BadTag` where the block has not its node's tag.
pub(crate) fn directory_page(
    keys: &Keys,
    root: RootRef,
    bytes: &[u8],
    index: u16,
    page: &mut Page,
) -> Result<(), ProofFault>
    requires fixed { 4698 ≤ length bytes.now }
    requires index { index ≡ index_in bytes.now }
    requires low { index < 256 }
    ensures { MatchResult result
        (λ _. directory_page keys.now root bytes.now ≡ Result.Ok page.new)
        (λ fault. directory_page keys.now root bytes.now ≡ Result.Err fault) }
{
    let head = directory_head(bytes)?;
    let mut nodes = [BLANK; 8];
    read_nodes(bytes, 42, &mut nodes);
    match check_nodes(&head, &nodes, root) {
        Ok(()) => {}
        Err(fault) => return Err(fault),
    }
    let key = Aes128::new(&unwrap_key(&dir_tsk(&ssk(keys)), &head.wrapped));
    let block = u32::from(index / 32);
    *page = field(bytes, 570);
    let node = nodes[block as usize];
    open_block(&key, &head, &node, block, page)
}
