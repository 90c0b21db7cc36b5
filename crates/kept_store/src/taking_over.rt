//! Taking over a store that was exported: its block is put into a card that was never written.

ghost use Rattle.std.specs.Prelude.{◌≡◌, ◌≢◌, ◌↔◌, IfErr, IsTrue, OnOk};
ghost use Rattle.disk_model.specs.Calls.{GoesOn};
ghost use Rattle.htree_file.specs.Answers.{FileFailed};
ghost use Rattle.rpmb_card.specs.Card.{CardState};
ghost use Rattle.rpmb_host.specs.Honest.{HasCard};
ghost use Rattle.kept_store.specs.declared.fault.OpenFault.TheVariants.{CardMissing};
ghost use Rattle.kept_store.specs.Kept.{IfBlock, IsBlank, IsEmptied, RestsOrEmptied, TakesNothing, TakesOver, TellsNoTag, WritesFirst, card_failed};

use crate::fault::OpenFault;
use folder_audit::read_block;
use rpmb_card::RpmbPort;
use rpmb_host::{Host, HostFault};
use store_commit::{CardRead, MountFault, read_card, root_in};
use tee_ports::{Entropy, Failed, StoreFile};
use tee_types::{Cause, Device};

/// The number of the file into which an export puts the card's block 0.
pub(crate) const BLOCK_FILE: u16 = 274;

/// Puts an exported block into a card that was never written, where there is one, and cuts it off
/// in its file: it is taken once.
///
/// # Errors
///
/// `Block` where the file failed; `Store` where the card did, or its answer is refused. Where the
/// file failed behind the card's write, the block stays there, and is not taken again: the card is
/// written then.
pub(crate) fn take_over<G: StoreFile, R: RpmbPort, E: Entropy>(
    host: &mut Host<R>,
    exported: &mut G,
    entropy: &mut E,
) -> Result<(), OpenFault>
    ensures key { host.new.key ≡ host.old.key }
    ensures goes_on { GoesOn (G.state exported.old) (G.state exported.new) }
    ensures file { OnOk result (RestsOrEmptied (G.state exported.old) (G.state exported.new)) }
    ensures takes { OnOk result (TakesOver (R.state host.old.port) (R.state host.new.port) host.old.key (G.state exported.old) (G.state exported.new)) }
    ensures failed { IfErr result (IfBlock (λ count. FileFailed (G.state exported.old) (G.state exported.new) count)) }
    ensures untagged { IfErr result TellsNoTag }
    ensures named { IfErr result (λ fault. fault ≢ CardMissing) }
    ensures alone { TakesNothing (R.state host.old.port) (R.state host.new.port) host.old.key (G.state exported.old) (G.state exported.new) }
{
    let counter = match read_card(host, entropy) {
        Ok(CardRead { counter, .. }) => counter,
        Err(fault) => return Err(OpenFault::Store(fault.without_computed_tag())),
    };
    if counter > 0 {
        return Ok(());
    }
    match read_block(exported) {
        Ok(block) => {
            if is_blank(&block) {
                Ok(())
            } else {
                take_block(host, exported, &block)
            }
        }
        Err(failed) => Err(OpenFault::Block {
            count: failed.count,
        }),
    }
}

// Writes an exported block into a card that was never written, and cuts it off in its file.
fn take_block<G: StoreFile, R: RpmbPort>(
    host: &mut Host<R>,
    exported: &mut G,
    block: &[u8; 256],
) -> Result<(), OpenFault>
    ensures key { host.new.key ≡ host.old.key }
    ensures goes_on { GoesOn (G.state exported.old) (G.state exported.new) }
    ensures writes { OnOk result ((card : CardState) → HasCard (R.state host.old.port) host.old.key card → card.counter ≡ 0
        → WritesFirst card (R.state host.new.port) block.now) }
    ensures emptied { OnOk result (IsEmptied (G.state exported.old) (G.state exported.new)) }
    ensures failed { IfErr result (IfBlock (λ count. FileFailed (G.state exported.old) (G.state exported.new) count)) }
    ensures untagged { IfErr result TellsNoTag }
    ensures named { IfErr result (λ fault. fault ≢ CardMissing) }
{
    if let Err(fault) = write_first(host, block) {
        return Err(fault);
    }
    match empty_file(exported) {
        Ok(()) => Ok(()),
        Err(failed) => Err(OpenFault::Block {
            count: failed.count,
        }),
    }
}

// Cuts off all bytes of a file, and settles it.
fn empty_file<G: StoreFile>(file: &mut G) -> Result<(), Failed>
    ensures goes_on { GoesOn (G.state file.old) (G.state file.new) }
    ensures emptied { OnOk result (IsEmptied (G.state file.old) (G.state file.new)) }
    ensures failed { IfErr result (λ e. FileFailed (G.state file.old) (G.state file.new) e.count) }
{
    file.set_len(0)?;
    file.sync()
}

/// Whether a block is of no store: all its bytes are zero.
pub(crate) fn is_blank(block: &[u8; 256]) -> bool
    ensures { IsTrue result ↔ IsBlank block.now }
{
    match root_in(block) {
        Err(MountFault::NoStore) => true,
        _ => false,
    }
}

// Writes block 0 of a card that was never written.
fn write_first<R: RpmbPort>(host: &mut Host<R>, block: &[u8; 256]) -> Result<(), OpenFault>
    ensures key { host.new.key ≡ host.old.key }
    ensures writes { OnOk result ((card : CardState) → HasCard (R.state host.old.port) host.old.key card → card.counter ≡ 0
        → WritesFirst card (R.state host.new.port) block.now) }
    ensures store { IfErr result (IfBlock (λ count. ⊥)) }
    ensures untagged { IfErr result TellsNoTag }
    ensures named { IfErr result (λ fault. fault ≢ CardMissing) }
{
    match host.write_block(0, 0, block) {
        Ok(_) => Ok(()),
        Err(HostFault::Failed { count }) => Err(failed_card(count)),
        Err(HostFault::BadFrame(fault)) => Err(OpenFault::Store(MountFault::Frame(fault))),
        Err(HostFault::CardResult(result)) => Err(OpenFault::Store(MountFault::CardResult(result))),
        Err(HostFault::Spent) => Err(OpenFault::Store(MountFault::Spent)),
    }
}

/// The fault of a card whose exchange failed.
pub(crate) fn failed_card(count: u64) -> OpenFault
    ensures { result ≡ card_failed count }
{
    OpenFault::Store(MountFault::Failed(Cause::Fault {
        device: Device::Card,
        count,
    }))
}
