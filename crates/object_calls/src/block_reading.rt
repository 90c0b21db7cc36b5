//! The card's block 0.

ghost use Rattle.std.specs.Prelude.{◌≡◌, IfErr, IfOk, IsTrue, OnOk};
ghost use Rattle.disk_model.specs.State.{FileState};
ghost use Rattle.hmac_keys.specs.KeyTable.{rpmb_key};
ghost use Rattle.rpmb_card.specs.Card.{CardState};
ghost use Rattle.rpmb_host.specs.Honest.{HasCard};
ghost use Rattle.crash_core.specs.Pictures.{block_zero};
ghost use Rattle.store_commit.specs.Causes.{counts};
ghost use Rattle.store_commit.specs.Counts.{RefusalCounts, RefusalNotDrawn, RefusalNotOfCard};
ghost use Rattle.store_commit.specs.Leaving.{KeepsPort};
ghost use Rattle.store_commit.specs.Mounts.{CardRefused};
ghost use Rattle.store_commit.specs.Reads.{AsksBlock, IsBlockRead, OfHost};

use crate::bench::{Bench, BlockRead, Halted};
use hmac_keys::{Keys, rpmb_key};
use rpmb_card::RpmbPort;
use rpmb_host::Host;
use store_commit::read_block;
use tee_ports::Entropy;

/// Reads the card's block 0, by one exchange under a nonce that is drawn. No file is called, and no memory is taken.
///
/// # Errors
///
/// `Frame` and `CardResult` as the host says; `Failed` where the draw or the exchange failed. The card is as it was.
pub fn card_block<F, R: RpmbPort, E: Entropy>(
    bench: Bench<F, R>,
    keys: &Keys,
    entropy: &mut E,
) -> Result<BlockRead<F, R>, Halted<F, R>>
    ensures files { IfOk result (λ r. r.bench.files ≡ bench.files) }
    ensures files_err { IfErr result (λ h. h.bench.files ≡ bench.files) }
    ensures card { IfOk result (λ r. (R.state r.bench.card).card ≡ (R.state bench.card).card) }
    ensures card_err { IfErr result (λ h. (R.state h.bench.card).card ≡ (R.state bench.card).card) }
    ensures goes_on { IfOk result (λ r. KeepsPort (R.state bench.card) (R.state r.bench.card)) }
    ensures goes_on_err { IfErr result (λ h. KeepsPort (R.state bench.card) (R.state h.bench.card)) }
    ensures told { IfOk result (λ r. (card : CardState) → HasCard (R.state bench.card) (rpmb_key keys.now.huk) card → block_zero card ≡ r.block) }
    ensures refused { IfErr result (λ h. CardRefused (R.state bench.card) (R.state h.bench.card) (rpmb_key keys.now.huk)
        (E.faults entropy.old) (E.faults entropy.new) h.fault) }
    ensures passed { IfOk result (λ r. ((R.state r.bench.card).faults ≡ (R.state bench.card).faults) × (E.faults entropy.new ≡ E.faults entropy.old)) }
    // What was heard, whatever the card is: the block of a verified answer, or the answer that was refused.
    ensures heard { IfOk result (λ r. IsBlockRead (rpmb_key keys.now.huk) (R.state bench.card) (R.state r.bench.card) r.block) }
    ensures heard_err { IfErr result (λ h. OfHost (λ fault. AsksBlock (rpmb_key keys.now.huk) (R.state bench.card) (R.state h.bench.card) (Err fault))
        h.fault) }
    // A refusal that carries a count is of the one that rose; after another none did.
    ensures counts { IfErr result (λ h. (file : FileState) → RefusalCounts (counts file (R.state bench.card) (E.faults entropy.old))
        (counts file (R.state h.bench.card) (E.faults entropy.new)) h.fault) }
    ensures calm { IsTrue (R.state bench.card).calm → IfOk result (λ r. IsTrue (R.state r.bench.card).calm) }
    ensures calm_err { IsTrue (R.state bench.card).calm → IfErr result (λ h. IsTrue (R.state h.bench.card).calm × RefusalNotOfCard h.fault) }
    ensures drawn { E.is_reliable entropy.old → IfErr result (λ h. RefusalNotDrawn h.fault) }
    ensures reliable { E.is_reliable entropy.old → E.is_reliable entropy.new }
{
    let Bench { files, card } = bench;
    let mut host = Host::new(card, rpmb_key(keys));
    match read_block(&mut host, entropy) {
        Ok(block) => {
            let card = host.into_port();
            let bench = Bench { files, card };
            Ok(BlockRead { bench, block })
        }
        Err(fault) => {
            let card = host.into_port();
            let bench = Bench { files, card };
            Err(Halted { bench, fault })
        }
    }
}
