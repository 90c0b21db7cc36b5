//! Formatting a store.

ghost use Rattle.std.specs.Prelude.{◌≡◌, vec_len, IfErr, IfOk, IsTrue};
ghost use Rattle.tee_types.specs.Limits.{directory_file, file_count};
ghost use Rattle.store_commit.specs.Causes.{counts};
ghost use Rattle.store_commit.specs.Counts.{NoneRose, RefusalCounts, RefusalNotDrawn, RefusalNotOfCard};
ghost use Rattle.store_commit.specs.Formats.{FormatGoesOn, FormatHeard, FormatRefused, Formats, IsFormatWritten, LeavesFormat};
ghost use Rattle.object_calls.specs.OpeningFiles.{files_of};
ghost use Rattle.object_calls.specs.Formed.{MountsToNone};
ghost use Rattle.object_calls.specs.MountRefusals.{SameObjectFiles};

use crate::bench::{Bench, FileParts, Halted, put_together, take_apart};
use hmac_keys::Keys;
use rpmb_card::RpmbPort;
use std::alloc::Global;
use store_commit::{GateBroken, format_parts};
use tee_ports::{Entropy, StoreFile};

/// Formats a store: makes a directory without objects in its file and settles it, then writes the card's block 0, and reads the write's
/// result. The files of objects are not called.
///
/// # Errors
///
/// `Spent` where the card's counter is at its end; `Frame` and `CardResult` as the host says; `Failed` where a call of a device failed;
/// `NoMemory`. The card's block 0 is then as before, or names the new directory.
pub fn format<F: StoreFile + Drop, R: RpmbPort + Drop, E: Entropy>(
    alloc: Global,
    bench: Bench<F, R>,
    keys: &Keys,
    entropy: &mut E,
) -> Result<Bench<F, R>, Halted<F, R>>
    requires { vec_len bench.files ≡ file_count }
    ensures made { IfOk result (λ b. Formats (files_of F.state b.files.items directory_file) (R.state bench.card) (R.state b.card) keys.now) }
    ensures mounts { IfOk result (λ b. MountsToNone F.state b.files.items (R.state bench.card) (R.state b.card) keys.now) }
    ensures others { IfOk result (λ b. SameObjectFiles F.state bench.files.items b.files.items) }
    ensures whole { IfOk result (λ b. vec_len b.files ≡ file_count) }
    ensures left { IfErr result (λ h. LeavesFormat (files_of F.state h.bench.files.items directory_file) (R.state bench.card) (R.state h.bench.card) keys.now) }
    ensures refused { IfErr result (λ h. FormatRefused (files_of F.state bench.files.items directory_file) (files_of F.state h.bench.files.items directory_file)
        (R.state bench.card) (R.state h.bench.card) keys.now (E.faults entropy.old) (E.faults entropy.new) h.fault) }
    ensures others_err { IfErr result (λ h. SameObjectFiles F.state bench.files.items h.bench.files.items) }
    ensures whole_err { IfErr result (λ h. vec_len h.bench.files ≡ file_count) }
    // What is known of the directory's file and of the port goes on.
    ensures goes_on { IfOk result (λ b. FormatGoesOn (files_of F.state bench.files.items directory_file) (files_of F.state b.files.items directory_file)
        (R.state bench.card) (R.state b.card)) }
    ensures goes_on_err { IfErr result (λ h. FormatGoesOn (files_of F.state bench.files.items directory_file) (files_of F.state h.bench.files.items directory_file)
        (R.state bench.card) (R.state h.bench.card)) }
    // Whatever the card is.
    ensures written { IfOk result (λ b. IsFormatWritten (files_of F.state b.files.items directory_file) (R.state bench.card) (R.state b.card) keys.now) }
    ensures heard { IfErr result (λ h. FormatHeard (files_of F.state bench.files.items directory_file) (files_of F.state h.bench.files.items directory_file)
        (R.state bench.card) (R.state h.bench.card) keys.now h.fault) }
    // A refusal that carries a count is of the one that rose; after another, and after a format, none did.
    ensures passed { IfOk result (λ b. NoneRose (counts (files_of F.state bench.files.items directory_file) (R.state bench.card) (E.faults entropy.old))
        (counts (files_of F.state b.files.items directory_file) (R.state b.card) (E.faults entropy.new))) }
    ensures counts { IfErr result (λ h. RefusalCounts (counts (files_of F.state bench.files.items directory_file) (R.state bench.card) (E.faults entropy.old))
        (counts (files_of F.state h.bench.files.items directory_file) (R.state h.bench.card) (E.faults entropy.new)) h.fault) }
    ensures calm { IsTrue (R.state bench.card).calm → IfOk result (λ b. IsTrue (R.state b.card).calm) }
    ensures calm_err { IsTrue (R.state bench.card).calm → IfErr result (λ h. IsTrue (R.state h.bench.card).calm × RefusalNotOfCard h.fault) }
    ensures drawn { E.is_reliable entropy.old → IfErr result (λ h. RefusalNotDrawn h.fault) }
    ensures reliable { E.is_reliable entropy.old → E.is_reliable entropy.new }
{
    let Bench { files, card } = bench;
    let FileParts {
        spare,
        objects,
        dir,
    } = take_apart(files);
    match format_parts(alloc, dir, card, keys, entropy) {
        Ok((dir, card)) => {
            let files = put_together(spare, objects, dir);
            Ok(Bench { files, card })
        }
        Err(GateBroken { dir, card, fault }) => {
            let files = put_together(spare, objects, dir);
            let bench = Bench { files, card };
            Err(Halted { bench, fault })
        }
    }
}
