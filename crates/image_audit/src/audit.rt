// Making a certificate.

ghost use Rattle.std.specs.Prelude.{◌≡◌, ◌⊎◌, ◌<◌, ◌/◌, ◌++◌, ℕ, IfErr, IfOk, OnOk};
ghost use Rattle.disk_model.specs.Calls.{Rests};
ghost use Rattle.htree_file.specs.Answers.{FaultCause, HasCause, IsOutside};
ghost use Rattle.image_audit.specs.Audited.{BeginsAudit, EndsAudit, IsAudit, PutsCipher, PutsCiphers};
ghost use Rattle.image_audit.specs.Auditing.{tree_bytes};

use crate::front::MARK;
use htree_file::{Tree, TreeFault};
use std::alloc::Global;
use tee_ports::{NoMemory, StoreFile};

// Puts the head and the nodes of a tree behind the bytes.
fn put_tree<F: StoreFile>(tree: &Tree<F>, out: &mut Vec<u8>) -> Result<(), NoMemory>
    ensures { OnOk result (out.new.items ≡ out.old.items ++ tree_bytes tree.now.tree) }
{
    let head = tree.head();
    out.extend_from_slice(&head.to_bytes())?;
    for k in 0..head.greatest {
        let Some(node) = tree.node(k + 1) else {
            unreachable!()
        };
        out.extend_from_slice(&node.to_bytes())?;
    }
    Ok(())
}

// Puts the ciphertext of a block behind the bytes.
fn put_cipher<F: StoreFile>(
    tree: &mut Tree<F>,
    block: u32,
    out: &mut Vec<u8>,
) -> Result<(), TreeFault>
    requires { block < tree.old.tree.head.greatest }
    ensures ok { OnOk result (PutsCipher (F.state tree.new.file) tree.old.tree block out.old.items out.new.items) }
    ensures fault { IfErr result IsOutside }
    ensures same { tree.new ≡ record tree.old { file = tree.new.file } }
    ensures rests { Rests (F.state tree.old.file) (F.state tree.new.file) }
    ensures cause { HasCause (F.state tree.old.file) (F.state tree.new.file) result }
{
    let mut page = [0; 4096];
    tree.read_cipher(block, &mut page)?;
    out.extend_from_slice(&page)?;
    Ok(())
}

// Puts the ciphertext of each block behind the bytes.
fn put_ciphers<F: StoreFile>(tree: &mut Tree<F>, out: &mut Vec<u8>) -> Result<(), TreeFault>
    ensures ok { OnOk result (PutsCiphers (F.state tree.old.file) (F.state tree.new.file) tree.old.tree tree.old.tree.head.greatest out.old.items out.new.items) }
    ensures fault { IfErr result IsOutside }
    ensures same { tree.new ≡ record tree.old { file = tree.new.file } }
    ensures rests { Rests (F.state tree.old.file) (F.state tree.new.file) }
    ensures cause { HasCause (F.state tree.old.file) (F.state tree.new.file) result }
{
    for k in 0..tree.head().greatest {
        put_cipher(tree, k, out)?;
    }
    Ok(())
}

/// The front of a certificate: its mark, the index of the entry, the tree of the directory, and the ciphertext of the entry's block. It
/// takes the memory for the whole, where the object's tree has so many blocks.
///
/// # Errors
///
/// `Failed` where a call of the file failed, and `NoMemory`.
pub fn begin_certificate<F: StoreFile>(
    alloc: Global,
    dir: &mut Tree<F>,
    index: u16,
    blocks: u32,
) -> Result<Vec<u8>, TreeFault>
    requires low { index < 256 }
    requires eight { dir.old.tree.head.greatest ≡ 8 }
    ensures ok { IfOk result (λ v. BeginsAudit index dir.old.tree (F.state dir.old.file) (F.state dir.new.file) v.items) }
    ensures fault { IfErr result IsOutside }
    ensures same { dir.new ≡ record dir.old { file = dir.new.file } }
    ensures rests { Rests (F.state dir.old.file) (F.state dir.new.file) }
    ensures cause { HasCause (F.state dir.old.file) (F.state dir.new.file) result }
{
    let mut bytes = Vec::with_capacity(alloc, 4698 + 4162 * blocks as usize)?;
    bytes.extend_from_slice(MARK)?;
    bytes.extend_from_slice(&index.to_be_bytes())?;
    put_tree(dir, &mut bytes)?;
    put_cipher(dir, u32::from(index / 32), &mut bytes)?;
    Ok(bytes)
}

/// Puts what a certificate has of the object behind its front: the tree, and each ciphertext.
///
/// # Errors
///
/// `Failed` where a call of the file failed, and `NoMemory`.
pub fn end_certificate<F: StoreFile>(
    object: &mut Tree<F>,
    bytes: &mut Vec<u8>,
) -> Result<(), TreeFault>
    ensures ok { OnOk result (EndsAudit object.old.tree (F.state object.old.file) (F.state object.new.file) bytes.old.items bytes.new.items) }
    ensures fault { IfErr result IsOutside }
    ensures same { object.new ≡ record object.old { file = object.new.file } }
    ensures rests { Rests (F.state object.old.file) (F.state object.new.file) }
    ensures cause { HasCause (F.state object.old.file) (F.state object.new.file) result }
{
    put_tree(object, bytes)?;
    put_ciphers(object, bytes)?;
    Ok(())
}

/// The certificate of an entry of the directory, of a tree of the directory and of the tree of the entry's object. It
/// takes its memory first.
///
/// # Errors
///
/// `Failed` where a call of a file failed, and `NoMemory`.
pub fn audit_object<F: StoreFile>(
    alloc: Global,
    dir: &mut Tree<F>,
    index: u16,
    object: &mut Tree<F>,
) -> Result<Vec<u8>, TreeFault>
    requires low { index < 256 }
    requires eight { dir.old.tree.head.greatest ≡ 8 }
    ensures ok { IfOk result (λ v. IsAudit index dir.old.tree object.old.tree
        (F.state dir.old.file) (F.state dir.new.file) (F.state object.old.file) (F.state object.new.file) v.items) }
    ensures fault { IfErr result IsOutside }
    ensures dir { dir.new ≡ record dir.old { file = dir.new.file } }
    ensures object { object.new ≡ record object.old { file = object.new.file } }
    ensures dir_rests { Rests (F.state dir.old.file) (F.state dir.new.file) }
    ensures object_rests { Rests (F.state object.old.file) (F.state object.new.file) }
    ensures cause { IfErr result (λ fault. FaultCause (F.state dir.old.file) (F.state dir.new.file) fault
        ⊎ FaultCause (F.state object.old.file) (F.state object.new.file) fault) }
{
    let mut bytes = begin_certificate(alloc, dir, index, object.head().greatest)?;
    end_certificate(object, &mut bytes)?;
    Ok(bytes)
}
