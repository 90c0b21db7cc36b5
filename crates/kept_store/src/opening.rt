//! Opening a store: a new one, one that was closed, or one that was exported.

ghost use Rattle.std.specs.Prelude.{◌≡◌, [], false, vec_len, IfErr, IfOk, IsTrue, OnErr, OnOk};
ghost use Rattle.disk_model.specs.Calls.{GoesOn, Rests};
ghost use Rattle.htree_file.specs.Answers.{FileFailed};
ghost use Rattle.hmac_keys.specs.KeyTable.{rpmb_key};
ghost use Rattle.rpmb_card.specs.Card.{CardState};
ghost use Rattle.tee_types.specs.Limits.{directory_file, file_count};
ghost use Rattle.object_calls.specs.Begins.{IsWholeOpening, MountsAsRead};
ghost use Rattle.object_calls.specs.Opening.{IsKeyed, bench_files};
ghost use Rattle.object_calls.specs.OpeningFiles.{files_of};
ghost use Rattle.kept_store.specs.declared.fault.OpenFault.TheVariants.{CardMissing};
ghost use Rattle.kept_store.specs.Kept.{FindsBlank, IfBlock, IsEmpty, KeepsStore, LacksCard, LacksStore, NamesNoExport, OpensExport, OpensStore, RestsDevices, RestsOrEmptied, StaysUnmade, TellsNoTag};

use crate::fault::{OpenFault, Unopened, given_up};
use crate::finding::{Found, find_store};
use crate::taking_over::take_over;
use hmac_keys::{Keys, rpmb_key};
use object_calls::{Bench, Halted, Opening, format, mount};
use rpmb_card::RpmbPort;
use rpmb_host::Host;
use std::alloc::Global;
use tee_ports::{Entropy, StoreFile};

// Makes the store where it is new.
fn format_new<F: StoreFile + Drop, R: RpmbPort + Drop, E: Entropy>(
    alloc: Global,
    found: Found<F, R>,
    keys: &Keys,
    entropy: &mut E,
) -> Result<Bench<F, R>, Halted<F, R>>
    requires { vec_len found.devices.files ≡ file_count }
    ensures whole { IfOk result (λ b. vec_len b.files ≡ file_count) }
    ensures keeps { IfOk result (λ b. found.is_new ≡ false → b ≡ found.devices) }
    ensures only_new { OnErr result (IsTrue found.is_new) }
    ensures goes_on { IfOk result (λ b. GoesOn (files_of F.state found.devices.files.items directory_file) (files_of F.state b.files.items directory_file)) }
    ensures goes_on_err { IfErr result (λ h. GoesOn (files_of F.state found.devices.files.items directory_file)
        (files_of F.state h.bench.files.items directory_file)) }
{
    let Found { devices, is_new } = found;
    if is_new {
        format(alloc, devices, keys, entropy)
    } else {
        Ok(devices)
    }
}

// Makes the store where it is new, and mounts it.
fn open_store<F: StoreFile + Drop, R: RpmbPort + Drop, E: Entropy>(
    alloc: Global,
    devices: Bench<F, R>,
    keys: &Keys,
    entropy: &mut E,
) -> Result<Opening<F, R>, Unopened<F, R>>
    requires { vec_len devices.files ≡ file_count }
    ensures keyed { IfOk result (λ o. IsKeyed keys.now o) }
    ensures unopened { IfOk result (λ o. o.applications ≡ []) }
    ensures opens { IfOk result (λ o. IsWholeOpening F.state R.state o) }
    ensures keeps { IfOk result (λ o. KeepsStore (R.state devices.card) (rpmb_key keys.now.huk)
        (MountsAsRead F.state (files_of F.state devices.files.items directory_file) (R.state devices.card) keys.now o)) }
    ensures untagged { IfErr result (λ u. TellsNoTag u.fault) }
    ensures made { IfOk result (λ o. FindsBlank (R.state devices.card) (rpmb_key keys.now.huk)
        (IsEmpty (files_of F.state devices.files.items directory_file) (bench_files F.state o directory_file))) }
    ensures refused { IfErr result (λ u. FindsBlank (R.state devices.card) (rpmb_key keys.now.huk)
        (StaysUnmade F.state R.state devices u.devices)) }
    ensures no_block { IfErr result (λ u. IfBlock (λ count. ⊥) u.fault) }
    ensures missing { IfErr result (λ u. u.fault ≡ CardMissing → LacksCard (R.state devices.card) (rpmb_key keys.now.huk)
        (files_of F.state devices.files.items directory_file) (files_of F.state u.devices.files.items directory_file)) }
{
    let found = match find_store(devices, keys, entropy) {
        Ok(found) => found,
        Err(unopened) => return Err(unopened),
    };
    let bench = match format_new(alloc, found, keys, entropy) {
        Ok(bench) => bench,
        Err(halted) => return Err(given_up(halted)),
    };
    match mount(alloc, bench, keys, entropy) {
        Ok(opening) => Ok(opening),
        Err(halted) => Err(given_up(halted)),
    }
}

/// Opens a store on its devices; the card has its key. Where the card was never written and the
/// file of an exported block has one, that block is put into the card, and its file is left without
/// bytes: so a store that was exported goes on from there, once. Where the card's block 0 is all
/// zero and the directory's file has no bytes, a store is made.
///
/// # Errors
///
/// `CardMissing` where the block is all zero and the directory's file has bytes: nothing is changed
/// then. `Block` where the file of the exported block failed. `Store` where the card or the
/// directory's file failed, or as the format and the mount say, without a computed tag. The
/// devices are given back.
pub fn open_devices<F: StoreFile + Drop, R: RpmbPort + Drop, G: StoreFile, E: Entropy>(
    alloc: Global,
    devices: Bench<F, R>,
    exported: &mut G,
    keys: &Keys,
    entropy: &mut E,
) -> Result<Opening<F, R>, Unopened<F, R>>
    requires { vec_len devices.files ≡ file_count }
    ensures keyed { IfOk result (λ o. IsKeyed keys.now o) }
    ensures unopened { IfOk result (λ o. o.applications ≡ []) }
    ensures opens { IfOk result (λ o. IsWholeOpening F.state R.state o) }
    ensures store { IfOk result (λ o. OpensStore F.state (files_of F.state devices.files.items directory_file) (R.state devices.card) keys.now o) }
    ensures exported { IfOk result (λ o. OpensExport F.state (files_of F.state devices.files.items directory_file) (R.state devices.card)
        (G.state exported.old) (G.state exported.new) keys.now o) }
    ensures block { OnOk result (RestsOrEmptied (G.state exported.old) (G.state exported.new)) }
    ensures rests { (card : CardState) → NamesNoExport (R.state devices.card) (rpmb_key keys.now.huk) (G.state exported.old) (G.state exported.new) card
        → Rests (G.state exported.old) (G.state exported.new) }
    ensures goes_on { GoesOn (G.state exported.old) (G.state exported.new) }
    ensures failed { IfErr result (λ u. IfBlock (λ count. FileFailed (G.state exported.old) (G.state exported.new) count) u.fault) }
    ensures untagged { IfErr result (λ u. TellsNoTag u.fault) }

    // Where there is no store, and none was exported, a store is made only over a directory's file
    // that has no bytes; beside one that has bytes nothing is changed.
    ensures made { IfOk result (λ o. (card : CardState) → LacksStore (R.state devices.card) (rpmb_key keys.now.huk)
        (G.state exported.old) (G.state exported.new) card
        → IsEmpty (files_of F.state devices.files.items directory_file) (bench_files F.state o directory_file)) }
    ensures refused { IfErr result (λ u. (card : CardState) → LacksStore (R.state devices.card) (rpmb_key keys.now.huk)
        (G.state exported.old) (G.state exported.new) card
        → StaysUnmade F.state R.state devices u.devices) }
    ensures missing { IfErr result (λ u. u.fault ≡ CardMissing → LacksCard (R.state devices.card) (rpmb_key keys.now.huk)
        (files_of F.state devices.files.items directory_file) (files_of F.state u.devices.files.items directory_file)) }
{
    let Bench { files, card } = devices;
    let mut host = Host::new(card, rpmb_key(keys));
    let taken = take_over(&mut host, exported, entropy);
    let card = host.into_port();
    let devices = Bench { files, card };
    match taken {
        Ok(()) => open_store(alloc, devices, keys, entropy),
        Err(fault) => Err(Unopened { devices, fault }),
    }
}
