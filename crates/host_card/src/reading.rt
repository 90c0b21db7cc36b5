// The card of a file.
ghost use Rattle.std.specs.Prelude.{◌≡◌, box_value, None, IsTrue, IfOk, IfErr, OnOk};
ghost use Rattle.disk_model.specs.Calls.{Known, Rests};
ghost use Rattle.rpmb_card.specs.Card.{IsCard, keyed};
ghost use Rattle.host_card.specs.CardFile.{IsDamaged, last_request};
ghost use Rattle.host_card.specs.Faults.{HasFault};
ghost use Rattle.host_card.specs.Places.{Stands};
ghost use Rattle.host_card.specs.Versions.{IsRestored, with_block};

use crate::CardFault;
use crate::card_file::{BLOCKS, check_header};
use crate::versions::{Version, read_block};
use hmac_keys::SecretKey;
use rpmb_card::SimCard;
use rpmb_frame::Frame;
use std::alloc::Global;
use tee_ports::StoreFile;

// Puts a block of the file back into the card.
fn restore_block<F: StoreFile>(
    file: &mut F,
    key: &[u8; 32],
    address: u8,
    card: &mut SimCard,
) -> Result<(), CardFault>
    requires sound { IsCard card.old }
    ensures sound { OnOk result (IsCard card.new) }
    ensures rests { Rests (F.state file.old) (F.state file.new) }
    ensures counted { OnOk result ((F.state file.new).faults ≡ (F.state file.old).faults) }
    ensures fault { IfErr result (λ fault. HasFault key.now (F.state file.old) (F.state file.new) fault) }
    ensures register { OnOk result (card.new.register ≡ card.old.register) }
    ensures told { OnOk result (IsTrue (F.state file.old).tells → Known (F.state file.old) (F.state file.new) →
        (card.new ≡ with_block card.old address (last_request key.now (F.state file.old).reads address))
        × ¬ IsDamaged key.now (F.state file.old).reads address) }
{
    match read_block(file, key, address)? {
        Version::Request(request) => {
            let frame = Frame::parse(&request);
            card.restore(address, &frame.block, frame.counter + 1);
            Ok(())
        }
        Version::Clear => Ok(()),
        Version::Bad => Err(CardFault::Damaged { address }),
    }
}

// Puts all blocks of the file back into a card that was never written.
fn restore_blocks<F: StoreFile>(
    file: &mut F,
    key: &[u8; 32],
    card: &mut SimCard,
) -> Result<(), CardFault>
    requires unused { card.old ≡ keyed key.now }
    requires sound { IsCard card.old }
    ensures sound { OnOk result (IsCard card.new) }
    ensures rests { Rests (F.state file.old) (F.state file.new) }
    ensures counted { OnOk result ((F.state file.new).faults ≡ (F.state file.old).faults) }
    ensures fault { IfErr result (λ fault. HasFault key.now (F.state file.old) (F.state file.new) fault) }
    ensures register { OnOk result (card.new.register ≡ None) }
    ensures told { OnOk result (IsTrue (F.state file.old).tells → Known (F.state file.old) (F.state file.new) →
        IsRestored key.now (F.state file.old).reads 256 card.new) }
{
    for address in 0..BLOCKS {
        restore_block(file, key, address as u8, card)?;
    }
    Ok(())
}

/// The card that a file keeps. The file is read alone.
///
/// # Errors
///
/// The first that holds: no memory for the card; the file failed, has no bytes, is foreign, is another card's, or has a
/// damaged block.
pub fn read_card<F: StoreFile>(
    alloc: Global,
    file: &mut F,
    key: &SecretKey,
) -> Result<Box<SimCard>, CardFault>
    ensures card { IfOk result (λ card. IsTrue (F.state file.old).tells → Known (F.state file.old) (F.state file.new) →
        Stands key.now (F.state file.old).reads None (box_value card)) }
    ensures register { IfOk result (λ card. (box_value card).register ≡ None) }
    ensures sound { IfOk result (λ card. IsCard (box_value card)) }
    ensures rests { Rests (F.state file.old) (F.state file.new) }
    ensures counted { OnOk result ((F.state file.new).faults ≡ (F.state file.old).faults) }
    ensures fault { IfErr result (λ fault. HasFault key.now (F.state file.old) (F.state file.new) fault) }
{
    let Ok(mut card) = Box::new(alloc, SimCard::with_key(key.bytes())) else {
        return Err(CardFault::NoMemory);
    };
    check_header(file, key.bytes())?;
    restore_blocks(file, key.bytes(), &mut card)?;
    Ok(card)
}
