// The end of all arms.

ghost use Rattle.std.specs.Prelude.{◌≡◌, ℕ, length, vec_len};
ghost use Rattle.disk_model.specs.Controls.{disarmed};
ghost use Rattle.object_calls.specs.OpeningFiles.{files_of};
ghost use Rattle.run_acts.specs.Benches.{bench_state};
ghost use Rattle.run_acts.specs.Between.{AreSound};
ghost use Rattle.run_acts.specs.Disarming.{Disarms};

use object_calls::Bench;
use rpmb_card::CardRig;
use tee_ports::FileRig;

// Removes all arms of these files.
fn disarm_files<F: FileRig>(files: &mut [F])
    ensures { (file : ℕ) → files_of F.state files.new file ≡ disarmed (files_of F.state files.old file) }
{
    for file in files.iter_mut() {
        file.disarm();
    }
}

/// Removes all arms of the devices.
pub(crate) fn disarm_bench<F: FileRig + Drop, R: CardRig + Drop>(bench: Bench<F, R>) -> Bench<F, R>
    ensures disarms { Disarms (bench_state F.state R.state bench) (bench_state F.state R.state result) }
    ensures whole { vec_len result.files ≡ vec_len bench.files }
    ensures sound { AreSound (bench_state F.state R.state result).files }
{
    let Bench {
        mut files,
        mut card,
    } = bench;
    disarm_files(&mut files);
    card.disarm();
    Bench { files, card }
}
