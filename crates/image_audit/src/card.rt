// The reference that the card's block 0 names.

ghost use Rattle.std.specs.Prelude.{◌≡◌};
ghost use Rattle.image_audit.specs.Checking.{root_named};

use crate::fault::CertFault;
use node_image::RootRef;
use store_commit::{MountFault, root_in};

/// The reference that a block names. One of the old format is refused at its first byte.
pub(crate) fn root_named(block: &[u8; 256]) -> Result<RootRef, CertFault>
    ensures { result ≡ root_named block.now }
{
    if block[0] == 1 {
        return Err(CertFault::CardBlock { byte: 0 });
    }
    match root_in(block) {
        Ok(root) => Ok(root),
        Err(MountFault::CardBlock { byte }) => Err(CertFault::CardBlock { byte }),
        Err(_) => Err(CertFault::NoStore),
    }
}
