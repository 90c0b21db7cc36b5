//! Certifying an object.

ghost use Rattle.std.specs.Prelude.{◌≡◌, ◌<◌, IfErr, IfOk, OnOk};
ghost use Rattle.disk_model.specs.Bytes.{AreBytes};
ghost use Rattle.disk_model.specs.Calls.{Rests};
ghost use Rattle.dir_records.specs.Form.{HasForm};
ghost use Rattle.htree_file.specs.Answers.{FilePassed};
ghost use Rattle.crash_core.specs.Entries.{name_of};
ghost use Rattle.store_model.specs.Name.{name_eq};
ghost use Rattle.image_audit.specs.Audited.{IsAudit};
ghost use Rattle.image_audit.specs.Certificate.{name_listed};
ghost use Rattle.folder_audit.specs.Objects.{CallFails, CertifyAnswer, IsChecked, IsRefusal, RefusedAs, tree_answer, tree_end};

use crate::fault::{AuditFault, failed_at};
use crate::finding::Finding;
use dir_records::DirEntry;
use hmac_keys::{Keys, ssk, tsk};
use htree_file::{Broken, Tree, TreeFault};
use image_audit::{CertFault, Listed, ProofFault, begin_certificate, check, end_certificate};
use node_image::RootRef;
use std::alloc::{AllocError, Global};
use tee_ports::{NoMemory, StoreFile};
use tee_types::DIRECTORY_FILE;
use tree_paths::NodeSet;

/// What a store in a folder is read under: the device's keys, and the card's block.
#[derive(Drop)]
pub(crate) struct Under {
    pub(crate) alloc: Global,
    pub(crate) keys: Keys,
    pub(crate) block: [u8; 256],
}

// What a failure of a file is, or want of memory.
fn tree_end(file: u16, fault: TreeFault) -> AuditFault
    ensures { result ≡ tree_end file fault }
{
    match fault {
        TreeFault::Failed { count } => failed_at(file, count),
        _ => AuditFault::NoMemory,
    }
}

/// What a fault in loading an object's tree is: the object is damaged, or the tree could not be loaded.
pub(crate) fn tree_answer(file: u16, fault: TreeFault) -> Result<Finding, AuditFault>
    ensures { result ≡ tree_answer file fault }
{
    match fault {
        TreeFault::Failed { count } => Err(failed_at(file, count)),
        TreeFault::NoMemory => Err(AuditFault::NoMemory),
        _ => Ok(Finding::Damaged),
    }
}

// The certificate of an entry, of a tree of the directory and of the tree of the entry's object, which is in that file.
#[tactic(auto, unfolding(tee_types::specs::Limits::directory_file))]
fn make_certificate<G: StoreFile>(
    alloc: Global,
    dir: &mut Tree<G>,
    index: u16,
    object: &mut Tree<G>,
    file: u16,
) -> Result<Vec<u8>, AuditFault>
    requires low { index < 256 }
    requires eight { dir.old.tree.head.greatest ≡ 8 }
    ensures ok { IfOk result (λ v. IsAudit index dir.old.tree object.old.tree (G.state dir.old.file) (G.state dir.new.file) (G.state object.old.file) (G.state object.new.file) v.items) }
    ensures dir { dir.new ≡ record dir.old { file = dir.new.file } }
    ensures dir_rests { Rests (G.state dir.old.file) (G.state dir.new.file) }
    ensures rests { Rests (G.state object.old.file) (G.state object.new.file) }
    ensures passed { OnOk result (FilePassed (G.state dir.old.file) (G.state dir.new.file) × FilePassed (G.state object.old.file) (G.state object.new.file)) }
    ensures failed { IfErr result (CallFails (G.state dir.old.file) (G.state dir.new.file) (G.state object.old.file) (G.state object.new.file) file) }
{
    let greatest = object.head().greatest;
    let mut certificate = match begin_certificate(alloc, dir, index, greatest) {
        Ok(certificate) => certificate,
        Err(fault) => return Err(tree_end(DIRECTORY_FILE, fault)),
    };
    match end_certificate(object, &mut certificate) {
        Ok(()) => Ok(certificate),
        Err(fault) => Err(tree_end(file, fault)),
    }
}

// What is told of an object whose certificate is refused, but for want of memory.
fn refused_finding(fault: CertFault) -> Result<Finding, NoMemory>
    ensures { RefusedAs fault result }
{
    match fault {
        CertFault::Object(ProofFault::BadTag { block, .. }) => Ok(bad_finding(block)),
        CertFault::NoMemory => Err(AllocError),
        _ => Ok(Finding::Damaged),
    }
}

// A bad block of the data is told by its number; where the block of the attributes is bad, the object is damaged.
fn bad_finding(block: u32) -> Finding
    ensures { IsRefusal result }
{
    if block < 1 || 256 < block {
        return Finding::Damaged;
    }
    let mut bad = NodeSet::none();
    bad.add(block);
    Finding::Bad(bad)
}

// Whether what a certificate lists is the object of an entry.
fn is_of(listed: &Listed, entry: &DirEntry) -> bool
    ensures { result ≡ name_eq (name_listed listed.now) (name_of entry.now) }
{
    listed.app == entry.app && listed.id == entry.id
}

// The bytes of a list are bytes.
fn see_bytes(bytes: &[u8])
    ensures { AreBytes bytes.now }
{}

// Checks the certificate of an entry, and says what is told of the object.
fn check_certificate(
    under: &Under,
    entry: &DirEntry,
    certificate: Vec<u8>,
) -> Result<Finding, NoMemory>
    ensures { IfOk result (IsChecked under.now.keys under.now.block entry.now certificate.items) }
{
    see_bytes(certificate.as_slice());
    match check(
        under.alloc,
        &under.block,
        &under.keys,
        certificate.as_slice(),
    ) {
        Ok(listed) => {
            if is_of(&listed, entry) {
                Ok(Finding::Certified(certificate))
            } else {
                Ok(Finding::Damaged)
            }
        }
        Err(fault) => refused_finding(fault),
    }
}

/// Makes the certificate of an entry, whose object's tree was found good, and checks it. Gives the object's file back.
///
/// What a certificate is refused for, though the reads before were good, is told in its place: the file changed meanwhile.
///
/// # Errors
///
/// A call of a file failed, or memory ran out.
pub(crate) fn certify_object<G: StoreFile>(
    under: &Under,
    dir: &mut Tree<G>,
    index: u16,
    entry: &DirEntry,
    file: G,
) -> (G, Result<Finding, AuditFault>)
    requires low { index < 256 }
    requires form { HasForm entry.now }
    ensures answer { CertifyAnswer under.now.keys under.now.block dir.old.tree index entry.now (G.state dir.old.file) (G.state dir.new.file) (G.state file) (G.state result.0) result.1 }
    ensures dir { dir.new ≡ record dir.old { file = dir.new.file } }
    ensures dir_rests { Rests (G.state dir.old.file) (G.state dir.new.file) }
    ensures rests { Rests (G.state file) (G.state result.0) }
{
    if dir.head().greatest != 8 {
        return (file, Ok(Finding::Damaged));
    }
    let root = RootRef {
        hash: entry.hash,
        version: entry.version,
        format: entry.format,
    };
    let wrap = tsk(&ssk(&under.keys), &entry.app.bytes());
    let mut object = match Tree::load(under.alloc, file, &wrap, root) {
        Ok(object) => object,
        Err(Broken { file, fault }) => return (file, tree_answer(entry.file, fault)),
    };
    let made = make_certificate(under.alloc, dir, index, &mut object, entry.file);
    let file = object.into_file();
    match made {
        Ok(certificate) => match check_certificate(under, entry, certificate) {
            Ok(finding) => (file, Ok(finding)),
            Err(_) => (file, Err(AuditFault::NoMemory)),
        },
        Err(fault) => (file, Err(fault)),
    }
}
