// The object in a certificate.

ghost use Rattle.std.specs.Prelude.{◌≡◌, ◌⊎◌, ℕ, ◌+◌, ◌*◌, ◌<◌, ◌≤◌, [], length, IfErr, IfOk, MatchResult, OnOk, Result};
ghost use Rattle.dir_records.specs.Form.{HasForm};
ghost use Rattle.image_audit.specs.Certificate.{object_head};
ghost use Rattle.image_audit.specs.Checking.{fault_as, length_test, long_of, object_decoding, object_listing, pages_test};
ghost use Rattle.image_audit.specs.Contents.{Answers, HoldsPages, cut_pages, listed_in, pages_answer};
ghost use Rattle.image_audit.specs.declared.fault.CertFault.TheVariants.{NoMemory, Object};

use crate::fault::{CertFault, Listed};
use crate::trees::{BLANK, check_nodes, head_at, open_block, read_nodes};
use aes_block::{Aes128, unwrap_key};
use byte_fields::field;
use dir_records::DirEntry;
use hmac_keys::{Keys, ssk, tsk};
use node_image::{Head, NodeImage, RootRef};
use std::alloc::Global;
use tee_types::Bytes;

// Deciphers each block, one page behind the other. The ciphertexts stand from a place on.
fn read_pages(
    key: &Aes128,
    head: &Head,
    nodes: &[NodeImage],
    bytes: &[u8],
    at: usize,
    content: &mut Vec<u8>,
) -> Result<(), CertFault>
    requires within { at + 4096 * length nodes.now ≤ length bytes.now }
    requires few { length nodes.now ≤ 256 }
    requires empty { content.old.items ≡ [] }
    ensures ok { OnOk result (pages_test (cut_pages key.now head.now nodes.now bytes.now at) 0 (length nodes.now) ≡ Result.Ok (length nodes.now)) }
    ensures pages { OnOk result (HoldsPages (cut_pages key.now head.now nodes.now bytes.now at) content.new.items (length nodes.now)) }
    ensures err { IfErr result (λ fault. (fault ≡ NoMemory)
        ⊎ (fault_as Object (pages_test (cut_pages key.now head.now nodes.now bytes.now at) 0 (length nodes.now)) ≡ Result.Err fault)) }
{
    for k in 0..nodes.len() {
        let mut page = field(bytes, at + 4096 * k);
        let node = nodes[k];
        match open_block(key, head, &node, k as u32, &mut page) {
            Ok(()) => {}
            Err(fault) => return Err(CertFault::Object(fault)),
        }
        match content.extend_from_slice(&page) {
            Ok(()) => {}
            Err(_) => return Err(CertFault::NoMemory),
        }
    }
    Ok(())
}

// The length is the one that a certificate with such an object has.
fn test_length(bytes: &[u8], head: &Head) -> Result<(), CertFault>
    requires head { head.now ≡ object_head bytes.now }
    requires few { head.now.greatest ≤ 256 }
    ensures answer { MatchResult result (λ _. length_test bytes.now ≡ Result.Ok (long_of bytes.now)) (λ fault. length_test bytes.now ≡ Result.Err fault) }
    ensures long { OnOk result (length bytes.now ≡ 4698 + 4162 * head.now.greatest) }
{
    let long = 4698 + 4162 * head.greatest as usize;
    if bytes.len() == long {
        return Ok(());
    }
    let at = bytes.len().min(long) as u32;
    Err(CertFault::Form { at })
}

// What the pages of an entry's object say.
fn list_content(alloc: Global, entry: &DirEntry, content: &[u8]) -> Result<Listed, CertFault>
    requires size { 4096 + entry.now.size ≤ length content.now }
    requires attributes { entry.now.attributes ≤ 2048 }
    ensures ok { IfOk result (λ l. l ≡ listed_in entry.now content.now) }
    ensures err { IfErr result (λ fault. fault ≡ NoMemory) }
{
    let (size, attributes) = (entry.size as usize, entry.attributes as usize);
    match (
        Bytes::from_slice(alloc, &content[..attributes]),
        Bytes::from_slice(alloc, &content[4096..4096 + size]),
    ) {
        (Ok(attributes), Ok(bytes)) => Ok(Listed {
            app: entry.app,
            id: entry.id,
            attributes,
            bytes,
        }),
        _ => Err(CertFault::NoMemory),
    }
}

// The pages of the object of an entry, one behind the other.
fn read_content(
    alloc: Global,
    keys: &Keys,
    entry: &DirEntry,
    bytes: &[u8],
    head: &Head,
    nodes: &mut [NodeImage],
) -> Result<Vec<u8>, CertFault>
    requires head { head.now ≡ object_head bytes.now }
    requires few { (1 ≤ head.now.greatest) × (head.now.greatest ≤ 256) }
    requires long { length bytes.now ≡ 4698 + 4162 * head.now.greatest }
    requires room { length nodes.old ≡ head.now.greatest }
    ensures ok { IfOk result (λ content. pages_answer keys.now entry.now bytes.now ≡ Result.Ok head.now.greatest) }
    ensures pages { IfOk result (λ content. HoldsPages (object_decoding keys.now entry.now bytes.now) content.items head.now.greatest) }
    ensures err { IfErr result (λ fault. (fault ≡ NoMemory) ⊎ (pages_answer keys.now entry.now bytes.now ≡ Result.Err fault)) }
{
    let greatest = head.greatest as usize;
    let root = RootRef {
        hash: entry.hash,
        version: entry.version,
        format: entry.format,
    };
    read_nodes(bytes, 4698, nodes);
    match check_nodes(head, nodes, root) {
        Ok(()) => {}
        Err(fault) => return Err(CertFault::Object(fault)),
    }
    let key = Aes128::new(&unwrap_key(&tsk(&ssk(keys), &entry.app.bytes()), &head.wrapped));
    let Ok(mut content) = Vec::with_capacity(alloc, 4096 * greatest) else {
        return Err(CertFault::NoMemory);
    };
    match read_pages(&key, head, nodes, bytes, 4698 + 66 * greatest, &mut content) {
        Ok(()) => Ok(content),
        Err(fault) => Err(fault),
    }
}

/// What a certificate says of the object of an entry.
///
/// # Errors
///
/// The first that holds: `Object` with `BadHead` where the head has not the form of one; `Form` where the certificate has
/// not the length that the head tells; `Object` with `Damaged` where the nodes do not hash to the entry's reference, or with
/// `BadTag` of the first block that has not its node's tag; `WrongSize` where the head's length is not the entry's. Besides
/// `NoMemory`.
pub(crate) fn list_object(
    alloc: Global,
    keys: &Keys,
    entry: &DirEntry,
    bytes: &[u8],
) -> Result<Listed, CertFault>
    requires fixed { 4698 ≤ length bytes.now }
    requires form { HasForm entry.now }
    ensures { Answers (object_listing keys.now entry.now bytes.now) result }
{
    let head = match head_at(bytes, 4666) {
        Ok(head) => head,
        Err(fault) => return Err(CertFault::Object(fault)),
    };
    match test_length(bytes, &head) {
        Ok(()) => {}
        Err(fault) => return Err(fault),
    }
    let Ok(mut nodes) = vec![in alloc; BLANK; head.greatest as usize] else {
        return Err(CertFault::NoMemory);
    };
    let content = match read_content(alloc, keys, entry, bytes, &head, &mut nodes) {
        Ok(content) => content,
        Err(fault) => return Err(fault),
    };
    let (size, length) = (entry.size, head.length);
    if length != 4096 + u64::from(size) {
        return Err(CertFault::WrongSize {
            entry: size,
            head: length,
        });
    }
    match list_content(alloc, entry, content.as_slice()) {
        Ok(listed) => Ok(listed),
        Err(fault) => Err(fault),
    }
}
