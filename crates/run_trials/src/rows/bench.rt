// The bench of a row's run.

ghost use Rattle.std.specs.Prelude.{◌≡◌, vec_len, IfOk};
ghost use Rattle.tee_types.specs.Limits.{file_count};

use crate::old_stores::old_bench;
use crate::rows::settings::Settings;
use hmac_keys::rpmb_key;
use rpmb_card::CardRig;
use rpmb_host::Host;
use std::alloc::Global;
use tee_types::BENCH_FILES;
use trial_runs::{Bench, SimBench, blank_bench, simulator_keys, worn};

// The bench that the row before left, or one with a store of the old format, or devices that were never used.
fn first_bench(
    alloc: Global,
    settings: &Settings,
    before: Option<SimBench>,
) -> anyhow::Result<SimBench>
    ensures { IfOk result (λ bench. vec_len bench.files ≡ file_count) }
{
    match before {
        Some(bench) if settings.same_bench && bench.files.len() == BENCH_FILES => Ok(bench),
        _ if settings.is_old => old_bench(alloc),
        _ => Ok(blank_bench(alloc)?),
    }
}

// Writes block 1 of a card that was never written: this byte, and zeros behind it.
fn write_map(bench: SimBench, byte: u8) -> anyhow::Result<SimBench>
    ensures { IfOk result (λ written. vec_len written.files ≡ vec_len bench.files) }
{
    let Bench { files, card } = bench;
    let mut host = Host::new(card, rpmb_key(&simulator_keys()));
    let mut block = [0; 256];
    block[0] = byte;
    if host.write_block(1, 0, &block).is_err() {
        anyhow::bail!("block 1 is not written");
    }
    Ok(Bench {
        files,
        card: host.into_port(),
    })
}

/// The bench for a row's run, with what its settings do to it.
pub fn bench_for(
    alloc: Global,
    settings: &Settings,
    before: Option<SimBench>,
) -> anyhow::Result<SimBench>
    ensures { IfOk result (λ bench. vec_len bench.files ≡ file_count) }
{
    let mut bench = first_bench(alloc, settings, before)?;
    if settings.is_worn {
        bench = worn(alloc, bench)?;
    }
    if settings.exchanged {
        bench.files.swap(1, 2);
    }
    if let Some(byte) = settings.map_byte {
        bench = write_map(bench, byte)?;
    }
    if settings.card_fails > 0 {
        bench.card.fail_call(settings.card_fails)?;
    }
    Ok(bench)
}
