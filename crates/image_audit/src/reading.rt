// Reading a certificate.

ghost use Rattle.std.specs.Prelude.{◌≡◌, ◌≤◌, length, IfOk};
ghost use Rattle.dir_records.specs.Form.{HasForm};
ghost use Rattle.image_audit.specs.Checking.{certificate_of, entry_listed};
ghost use Rattle.image_audit.specs.Contents.{Answers};

use crate::card::root_named;
use crate::directory::directory_page;
use crate::entry::entry_in;
use crate::fault::{CertFault, Listed};
use crate::front::front;
use crate::object::list_object;
use byte_fields::field;
use dir_records::DirEntry;
use hmac_keys::Keys;
use node_image::RootRef;
use std::alloc::Global;

// The entry of a certificate under a reference.
fn read_entry(keys: &Keys, root: RootRef, certificate: &[u8]) -> Result<DirEntry, CertFault>
    ensures answer { result ≡ entry_listed keys.now root certificate.now }
    ensures fixed { IfOk result (λ entry. 4698 ≤ length certificate.now) }
    ensures form { IfOk result HasForm }
{
    let index = match front(certificate) {
        Ok(index) => index,
        Err(fault) => return Err(fault),
    };
    let mut page = [0; 4096];
    match directory_page(keys, root, certificate, index, &mut page) {
        Ok(()) => {}
        Err(fault) => return Err(CertFault::Directory(fault)),
    }
    match entry_in(&field(&page, 128 * (index as usize % 32))) {
        Ok(entry) => Ok(entry),
        Err(fault) => Err(fault),
    }
}

/// What a certificate says under the card's block 0. It takes time and memory that grow with the certificate's length.
///
/// # Errors
///
/// The first test that fails, in the order of `CertFault`'s variants. Besides `NoMemory`.
pub fn check(
    alloc: Global,
    block: &[u8; 256],
    keys: &Keys,
    certificate: &[u8],
) -> Result<Listed, CertFault>
    ensures { Answers (certificate_of keys.now block.now certificate.now) result }
{
    let root = match root_named(block) {
        Ok(root) => root,
        Err(fault) => return Err(fault),
    };
    match read_entry(keys, root, certificate) {
        Ok(entry) => list_object(alloc, keys, &entry, certificate),
        Err(fault) => Err(fault),
    }
}
