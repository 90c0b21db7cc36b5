//! Formatting a store.

ghost use Rattle.std.specs.Prelude.{◌≡◌, IfErr, IfOk, IsTrue};
ghost use Rattle.store_commit.specs.Causes.{counts};
ghost use Rattle.store_commit.specs.Counts.{NoneRose, RefusalCounts, RefusalNotDrawn, RefusalNotOfCard};
ghost use Rattle.store_commit.specs.Formats.{FormatGoesOn, FormatHeard, FormatRefused, Formats, IsFormatWritten, LeavesFormat, make_answer};

use crate::card::root_block;
use crate::fault::{GateBroken, MountFault};
use crate::reading::{host_answer, read_counter};
use dir_file::DirFile;
use hmac_keys::{Keys, dir_tsk, rpmb_key, ssk};
use htree_file::{Broken, TreeFault};
use rpmb_card::RpmbPort;
use rpmb_host::Host;
use std::alloc::Global;
use tee_ports::{Entropy, StoreFile};
use tee_types::{Cause, Device};

// What a fault in making the directory is.
fn make_answer(fault: TreeFault) -> MountFault
    ensures { result ≡ make_answer fault }
{
    match fault {
        TreeFault::Failed { count } => MountFault::Failed(Cause::Fault {
            device: Device::Dir,
            count,
        }),
        TreeFault::NoEntropy { count } => MountFault::Failed(Cause::Fault {
            device: Device::Entropy,
            count,
        }),
        _ => MountFault::NoMemory,
    }
}

/// Formats a store: makes a directory without objects in the file and settles it, then writes the card's block 0, and reads
/// the write's result.
///
/// # Errors
///
/// `Spent` where the card's counter is at its end; `Frame` and `CardResult` as the host says; `Failed` where a call of a
/// device failed; `NoMemory`. The card's block 0 is then as before, or names the new directory.
pub fn format_parts<F: StoreFile + Drop, R: RpmbPort + Drop, E: Entropy>(
    alloc: Global,
    dir: F,
    card: R,
    keys: &Keys,
    entropy: &mut E,
) -> Result<(F, R), GateBroken<F, R>>
    ensures made { IfOk result (λ m. Formats (F.state m.0) (R.state card) (R.state m.1) keys.now) }
    ensures left { IfErr result (λ b. LeavesFormat (F.state b.dir) (R.state card) (R.state b.card) keys.now) }
    ensures refused { IfErr result (λ b. FormatRefused (F.state dir) (F.state b.dir) (R.state card) (R.state b.card) keys.now
        (E.faults entropy.old) (E.faults entropy.new) b.fault) }
    ensures goes_on { IfOk result (λ m. FormatGoesOn (F.state dir) (F.state m.0) (R.state card) (R.state m.1)) }
    ensures goes_on_err { IfErr result (λ b. FormatGoesOn (F.state dir) (F.state b.dir) (R.state card) (R.state b.card)) }
    // Whatever the card is.
    ensures written { IfOk result (λ m. IsFormatWritten (F.state m.0) (R.state card) (R.state m.1) keys.now) }
    ensures heard { IfErr result (λ b. FormatHeard (F.state dir) (F.state b.dir) (R.state card) (R.state b.card) keys.now b.fault) }
    // A refusal that carries a count is of the one that rose; after another, and after a format, none did.
    ensures passed { IfOk result (λ m. NoneRose (counts (F.state dir) (R.state card) (E.faults entropy.old))
        (counts (F.state m.0) (R.state m.1) (E.faults entropy.new))) }
    ensures counts { IfErr result (λ b. RefusalCounts (counts (F.state dir) (R.state card) (E.faults entropy.old))
        (counts (F.state b.dir) (R.state b.card) (E.faults entropy.new)) b.fault) }
    ensures calm { IsTrue (R.state card).calm → IfOk result (λ m. IsTrue (R.state m.1).calm) }
    ensures calm_err { IsTrue (R.state card).calm → IfErr result (λ b. IsTrue (R.state b.card).calm × RefusalNotOfCard b.fault) }
    ensures drawn { E.is_reliable entropy.old → IfErr result (λ b. RefusalNotDrawn b.fault) }
    ensures reliable { E.is_reliable entropy.old → E.is_reliable entropy.new }
{
    let mut host = Host::new(card, rpmb_key(keys));
    let counter = match read_counter(&mut host, entropy) {
        Ok(counter) => counter,
        Err(fault) => {
            let card = host.into_port();
            return Err(GateBroken { dir, card, fault });
        }
    };
    if counter == u32::MAX {
        let card = host.into_port();
        let fault = MountFault::Spent;
        return Err(GateBroken { dir, card, fault });
    }
    let tsk = dir_tsk(&ssk(keys));
    let (made, root) = match DirFile::make(alloc, dir, &tsk, entropy) {
        Ok((made, root)) => (made, root),
        Err(Broken { file, fault }) => {
            let fault = make_answer(fault);
            let card = host.into_port();
            return Err(GateBroken {
                dir: file,
                card,
                fault,
            });
        }
    };
    let file = made.into_file();
    match host.write_block(0, counter, &root_block(&root)) {
        Ok(_) => Ok((file, host.into_port())),
        Err(fault) => {
            let fault = host_answer(fault);
            let card = host.into_port();
            Err(GateBroken {
                dir: file,
                card,
                fault,
            })
        }
    }
}
