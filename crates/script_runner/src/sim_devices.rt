//! The simulated devices that the program and its trials run on: files in memory, and a card that has its key.

ghost use Rattle.std.specs.Prelude.{◌≡◌, vec_len, All, IfOk, IsTrue, Some};
ghost use Rattle.hmac_keys.specs.KeyTable.{rpmb_key};
ghost use Rattle.tee_types.specs.Limits.{file_count};
ghost use Rattle.mem_files.specs.Machine.{fresh};
ghost use Rattle.mem_files.specs.Memory.{file_state};
ghost use Rattle.rpmb_card.specs.Arms.{no_arms};
ghost use Rattle.rpmb_card.specs.Card.{CardState};
ghost use Rattle.rpmb_card.specs.Protocol.{last_counter};
ghost use Rattle.rpmb_host.specs.Honest.{HasCard};
ghost use Rattle.script_runner.specs.Blank.{keyed_card, simulator_keys};
ghost use Rattle.script_runner.specs.Port.{card_port_state};

use crate::card_port::CardPort;
use hmac_keys::{Keys, rpmb_key};
use mem_files::MemFile;
use rpmb_card::{PROGRAM_KEY, SimCard, empty_frame};
use rpmb_frame::Frame;
use run_acts::Bench;
use std::alloc::{AllocError, Global};
use tee_types::BENCH_FILES;

/// A bench of the simulator.
pub type SimBench = Bench<MemFile, CardPort>;

/// What the simulated device has from its maker.
pub fn simulator_keys() -> Keys
    ensures { result ≡ simulator_keys }
{
    Keys {
        huk: [0, 1, 2, 3, 4, 5, 6, 7, 8, 9, 10, 11, 12, 13, 14, 15],
        chip: [0; 32],
    }
}

// A card that was never used but to give it the key.
fn keyed_card() -> SimCard
    ensures { result ≡ keyed_card }
{
    let mut card = SimCard::blank();
    let program = Frame {
        key_or_mac: *rpmb_key(&simulator_keys()).bytes(),
        kind: PROGRAM_KEY,
        ..empty_frame()
    };
    card.answer(&program.write());
    card
}

// So many empty files.
fn empty_files(alloc: Global, count: usize) -> Result<Vec<MemFile>, AllocError>
    ensures many { IfOk result (λ files. vec_len files ≡ count) }
    ensures fresh { IfOk result (λ files. All (λ file. file_state file ≡ fresh) files.items) }
{
    let mut files = Vec::with_capacity(alloc, count)?;
    for _ in 0..count {
        files.push(MemFile::new(alloc))?;
    }
    Ok(files)
}

/// The devices as they are made: 274 empty files, and a card that has the key, whose counter is 0 and whose blocks are zero. No fault is armed,
/// and none was counted.
///
/// # Errors
///
/// Memory ran out.
pub fn blank_bench(alloc: Global) -> Result<SimBench, AllocError>
    ensures whole { IfOk result (λ bench. vec_len bench.files ≡ file_count) }
    ensures files { IfOk result (λ bench. All (λ file. file_state file ≡ fresh) bench.files.items) }
    ensures card { IfOk result (λ bench. HasCard (card_port_state bench.card) (rpmb_key simulator_keys.huk) keyed_card) }
    ensures calm { IfOk result (λ bench. IsTrue (card_port_state bench.card).calm) }
    ensures arms { IfOk result (λ bench. (card_port_state bench.card).arms ≡ no_arms) }
    ensures faults { IfOk result (λ bench. (card_port_state bench.card).faults ≡ 0) }
{
    let files = empty_files(alloc, BENCH_FILES)?;
    let card = CardPort::new(alloc, keyed_card())?;
    Ok(Bench { files, card })
}

/// A bench whose card's write counter has reached its end. Nothing else of the card changed, nor of the files; no fault of the card is armed,
/// and none was counted.
///
/// # Errors
///
/// Memory ran out.
pub fn worn(alloc: Global, bench: SimBench) -> Result<SimBench, AllocError>
    ensures files { IfOk result (λ worn. worn.files ≡ bench.files) }
    ensures card { (card : CardState) → (card_port_state bench.card).card ≡ Some card
        → IfOk result (λ worn. (card_port_state worn.card).card ≡ Some (record card { counter = last_counter })) }
    ensures calm { IfOk result (λ worn. IsTrue (card_port_state worn.card).calm) }
    ensures arms { IfOk result (λ worn. (card_port_state worn.card).arms ≡ no_arms) }
    ensures faults { IfOk result (λ worn. (card_port_state worn.card).faults ≡ 0) }
{
    let Bench { files, card } = bench;
    let mut card = card.into_card();
    card.wear(u32::MAX);
    Ok(Bench {
        files,
        card: CardPort::new(alloc, card)?,
    })
}
