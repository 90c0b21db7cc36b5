//! Whether a store is on its devices.

ghost use Rattle.std.specs.Prelude.{◌≡◌, ℕ, false, length, vec_len, IfErr, IfOk, IsTrue};
ghost use Rattle.disk_model.specs.Calls.{Rests};
ghost use Rattle.hmac_keys.specs.KeyTable.{rpmb_key};
ghost use Rattle.tee_types.specs.Limits.{directory_file, file_count};
ghost use Rattle.object_calls.specs.OpeningFiles.{files_of};
ghost use Rattle.kept_store.specs.declared.fault.OpenFault.TheVariants.{CardMissing};
ghost use Rattle.kept_store.specs.Kept.{HasBlankCard, HasNamingCard, IfBlock, IsEmpty, KeepsStore, LacksCard, RestsDevices, TellsNoTag, directory_failed};

use crate::fault::{OpenFault, Unopened, given_up};
use crate::taking_over::is_blank;
use hmac_keys::Keys;
use object_calls::{Bench, BlockRead, card_block};
use rpmb_card::RpmbPort;
use store_commit::MountFault;
use tee_ports::{Entropy, Failed, StoreFile};
use tee_types::{Cause, DIRECTORY_FILE, Device};

/// Devices, and whether the store on them has to be made.
#[derive(Drop)]
pub(crate) struct Found<F, R> {
    pub(crate) devices: Bench<F, R>,
    pub(crate) is_new: bool,
}

// How many bytes the directory's file has.
fn directory_len<F: StoreFile + Drop>(files: &mut Vec<F>) -> Result<u64, Failed>
    requires { vec_len files.old ≡ file_count }
    ensures whole { vec_len files.new ≡ file_count }
    ensures rests { (number : ℕ) → Rests (files_of F.state files.old.items number) (files_of F.state files.new.items number) }
    ensures told { IfOk result (λ n. IsTrue (files_of F.state files.new.items directory_file).tells →
        n ≡ length (files_of F.state files.new.items directory_file).reads) }
{
    files[DIRECTORY_FILE as usize].len()
}

// The fault of a directory's file that failed.
fn failed_directory(count: u64) -> OpenFault
    ensures { result ≡ directory_failed count }
{
    OpenFault::Store(MountFault::Failed(Cause::Fault {
        device: Device::Dir,
        count,
    }))
}

/// Finds out whether the store on its devices has to be made: the card's block 0 is all zero, and
/// the directory's file has no bytes. Nothing is changed.
///
/// # Errors
///
/// `CardMissing` where the block is all zero and the directory's file has bytes. `Store` where a
/// draw, the card or that file failed.
pub(crate) fn find_store<F: StoreFile + Drop, R: RpmbPort + Drop, E: Entropy>(
    devices: Bench<F, R>,
    keys: &Keys,
    entropy: &mut E,
) -> Result<Found<F, R>, Unopened<F, R>>
    requires { vec_len devices.files ≡ file_count }
    ensures whole { IfOk result (λ f. vec_len f.devices.files ≡ file_count) }
    ensures rests { IfOk result (λ f. RestsDevices F.state R.state devices f.devices) }
    ensures rests_err { IfErr result (λ u. RestsDevices F.state R.state devices u.devices) }
    ensures named { IfOk result (λ f. f.is_new ≡ false → HasNamingCard (R.state devices.card) (rpmb_key keys.now.huk)) }
    ensures new { IfOk result (λ f. IsTrue f.is_new → HasBlankCard (R.state devices.card) (rpmb_key keys.now.huk)) }
    ensures empty { IfOk result (λ f. IsTrue f.is_new → IsEmpty (files_of F.state devices.files.items directory_file)
        (files_of F.state f.devices.files.items directory_file)) }
    ensures kept { IfOk result (λ f. KeepsStore (R.state devices.card) (rpmb_key keys.now.huk)
        ((f.is_new ≡ false) × (f.devices.files ≡ devices.files))) }
    ensures no_block { IfErr result (λ u. IfBlock (λ count. ⊥) u.fault) }
    ensures untagged { IfErr result (λ u. TellsNoTag u.fault) }
    ensures missing { IfErr result (λ u. u.fault ≡ CardMissing → LacksCard (R.state devices.card) (rpmb_key keys.now.huk)
        (files_of F.state devices.files.items directory_file) (files_of F.state u.devices.files.items directory_file)) }
{
    let BlockRead { bench, block } = match card_block(devices, keys, entropy) {
        Ok(read) => read,
        Err(halted) => return Err(given_up(halted)),
    };
    if !is_blank(&block) {
        return Ok(Found {
            devices: bench,
            is_new: false,
        });
    }
    let Bench { mut files, card } = bench;
    let length = directory_len(&mut files);
    let devices = Bench { files, card };
    match length {
        Ok(0) => Ok(Found {
            devices,
            is_new: true,
        }),
        Ok(_) => Err(Unopened {
            devices,
            fault: OpenFault::CardMissing,
        }),
        Err(failed) => Err(Unopened {
            devices,
            fault: failed_directory(failed.count),
        }),
    }
}
