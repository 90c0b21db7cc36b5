//! Reading the card for a mount.

ghost use Rattle.std.specs.Prelude.{◌≡◌, IfErr, IfOk, IsTrue, OnOk};
ghost use Rattle.disk_model.specs.State.{FileState};
ghost use Rattle.rpmb_card.specs.Card.{CardState};
ghost use Rattle.rpmb_host.specs.Honest.{HasCard};
ghost use Rattle.crash_core.specs.Pictures.{block_zero};
ghost use Rattle.store_commit.specs.Causes.{counts};
ghost use Rattle.store_commit.specs.Counts.{RefusalCounts, RefusalNotDrawn, RefusalNotOfCard};
ghost use Rattle.store_commit.specs.Leaving.{KeepsPort};
ghost use Rattle.store_commit.specs.Mounts.{CardRefused, Tells, host_answer};
ghost use Rattle.store_commit.specs.Reads.{AsksBlock, AsksCounter, IsBlockRead, IsCardRead, IsCounterRead, IsReadRefused, OfHost};

use crate::commit::draw_nonce;
use crate::fault::MountFault;
use rpmb_card::RpmbPort;
use rpmb_host::{Host, HostFault};
use tee_ports::Entropy;
use tee_types::{Cause, Device};

/// The card's write counter and its block 0.
#[derive(Clone, Copy, Drop)]
pub struct CardRead {
    /// The write counter.
    pub counter: u32,
    /// The bytes of block 0.
    pub block: [u8; 256],
}

// What a fault of the host is for a mount.
pub(crate) fn host_answer(fault: HostFault) -> MountFault
    ensures { result ≡ host_answer fault }
{
    match fault {
        HostFault::Failed { count } => MountFault::Failed(Cause::Fault {
            device: Device::Card,
            count,
        }),
        HostFault::BadFrame(fault) => MountFault::Frame(fault),
        HostFault::CardResult(result) => MountFault::CardResult(result),
        HostFault::Spent => MountFault::Spent,
    }
}

/// Reads the card's counter, with a nonce that is drawn.
pub(crate) fn read_counter<R: RpmbPort, E: Entropy>(
    host: &mut Host<R>,
    entropy: &mut E,
) -> Result<u32, MountFault>
    ensures key { host.new.key ≡ host.old.key }
    ensures stays { (R.state host.new.port).card ≡ (R.state host.old.port).card }
    ensures goes_on { KeepsPort (R.state host.old.port) (R.state host.new.port) }
    ensures told { IfOk result (λ n. (card : CardState) → HasCard (R.state host.old.port) host.old.key card → card.counter ≡ n) }
    ensures fault { IfErr result (CardRefused (R.state host.old.port) (R.state host.new.port) host.old.key (E.faults entropy.old) (E.faults entropy.new)) }
    ensures passed { OnOk result (((R.state host.new.port).faults ≡ (R.state host.old.port).faults) × (E.faults entropy.new ≡ E.faults entropy.old)) }
    // What was heard, whatever the card is.
    ensures heard { IfOk result (IsCounterRead host.old.key (R.state host.old.port) (R.state host.new.port)) }
    ensures refused { IfErr result (OfHost (λ fault. AsksCounter host.old.key (R.state host.old.port) (R.state host.new.port) (Err fault))) }
    ensures counts { IfErr result (λ fault. (file : FileState) → RefusalCounts
        (counts file (R.state host.old.port) (E.faults entropy.old)) (counts file (R.state host.new.port) (E.faults entropy.new)) fault) }
    ensures calm { IsTrue (R.state host.old.port).calm → IsTrue (R.state host.new.port).calm × IfErr result RefusalNotOfCard }
    ensures drawn { E.is_reliable entropy.old → IfErr result RefusalNotDrawn }
    ensures reliable { E.is_reliable entropy.old → E.is_reliable entropy.new }
{
    let nonce = match draw_nonce(entropy) {
        Ok(nonce) => nonce,
        Err(cause) => return Err(MountFault::Failed(cause)),
    };
    match host.read_counter(&nonce) {
        Ok(counter) => Ok(counter),
        Err(fault) => Err(host_answer(fault)),
    }
}

/// Reads the card's block 0, with a nonce that is drawn. The card is as it was, and it takes no memory.
///
/// # Errors
///
/// `Failed` where the draw or the exchange failed; `Frame` and `CardResult` as the host says.
pub fn read_block<R: RpmbPort, E: Entropy>(
    host: &mut Host<R>,
    entropy: &mut E,
) -> Result<[u8; 256], MountFault>
    ensures key { host.new.key ≡ host.old.key }
    ensures stays { (R.state host.new.port).card ≡ (R.state host.old.port).card }
    ensures goes_on { KeepsPort (R.state host.old.port) (R.state host.new.port) }
    ensures told { IfOk result (λ b. (card : CardState) → HasCard (R.state host.old.port) host.old.key card → block_zero card ≡ b) }
    ensures fault { IfErr result (CardRefused (R.state host.old.port) (R.state host.new.port) host.old.key (E.faults entropy.old) (E.faults entropy.new)) }
    ensures passed { OnOk result (((R.state host.new.port).faults ≡ (R.state host.old.port).faults) × (E.faults entropy.new ≡ E.faults entropy.old)) }
    // What was heard, whatever the card is.
    ensures heard { IfOk result (IsBlockRead host.old.key (R.state host.old.port) (R.state host.new.port)) }
    ensures refused { IfErr result (OfHost (λ fault. AsksBlock host.old.key (R.state host.old.port) (R.state host.new.port) (Err fault))) }
    ensures counts { IfErr result (λ fault. (file : FileState) → RefusalCounts
        (counts file (R.state host.old.port) (E.faults entropy.old)) (counts file (R.state host.new.port) (E.faults entropy.new)) fault) }
    ensures calm { IsTrue (R.state host.old.port).calm → IsTrue (R.state host.new.port).calm × IfErr result RefusalNotOfCard }
    ensures drawn { E.is_reliable entropy.old → IfErr result RefusalNotDrawn }
    ensures reliable { E.is_reliable entropy.old → E.is_reliable entropy.new }
{
    let nonce = match draw_nonce(entropy) {
        Ok(nonce) => nonce,
        Err(cause) => return Err(MountFault::Failed(cause)),
    };
    match host.read_block(0, &nonce) {
        Ok(block) => Ok(block),
        Err(fault) => Err(host_answer(fault)),
    }
}

/// Reads the card: its write counter, then its block 0, each with a nonce that is drawn. The card is as it was, and it takes no memory.
///
/// # Errors
///
/// `Failed` where a draw or an exchange failed; `Frame` and `CardResult` as the host says.
pub fn read_card<R: RpmbPort, E: Entropy>(
    host: &mut Host<R>,
    entropy: &mut E,
) -> Result<CardRead, MountFault>
    ensures key { host.new.key ≡ host.old.key }
    ensures stays { (R.state host.new.port).card ≡ (R.state host.old.port).card }
    ensures goes_on { KeepsPort (R.state host.old.port) (R.state host.new.port) }
    ensures told { IfOk result (λ r. (card : CardState) → HasCard (R.state host.old.port) host.old.key card → Tells card r.counter r.block) }
    ensures fault { IfErr result (CardRefused (R.state host.old.port) (R.state host.new.port) host.old.key (E.faults entropy.old) (E.faults entropy.new)) }
    ensures passed { OnOk result (((R.state host.new.port).faults ≡ (R.state host.old.port).faults) × (E.faults entropy.new ≡ E.faults entropy.old)) }
    ensures heard { IfOk result (λ r. IsCardRead host.old.key (R.state host.old.port) (R.state host.new.port) r.counter r.block) }
    ensures refused { IfErr result (OfHost (IsReadRefused host.old.key (R.state host.old.port) (R.state host.new.port))) }
    ensures counts { IfErr result (λ fault. (file : FileState) → RefusalCounts
        (counts file (R.state host.old.port) (E.faults entropy.old)) (counts file (R.state host.new.port) (E.faults entropy.new)) fault) }
    ensures calm { IsTrue (R.state host.old.port).calm → IsTrue (R.state host.new.port).calm × IfErr result RefusalNotOfCard }
    ensures drawn { E.is_reliable entropy.old → IfErr result RefusalNotDrawn }
    ensures reliable { E.is_reliable entropy.old → E.is_reliable entropy.new }
{
    let counter = read_counter(host, entropy)?;
    match read_block(host, entropy) {
        Ok(block) => Ok(CardRead { counter, block }),
        Err(fault) => Err(fault),
    }
}
