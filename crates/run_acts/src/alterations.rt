//! Files of a bench that are saved, put back and altered.

ghost use Rattle.std.specs.Prelude.{◌≡◌, ◌≢◌, ◌<◌, ℕ, length, slice_get, vec_len, Some, IfOk, OnErr, OnOk};
ghost use Rattle.disk_model.specs.Bytes.{after_mask};
ghost use Rattle.disk_model.specs.Controls.{renamed_as, settled_as};
ghost use Rattle.tee_types.specs.Limits.{directory_file, file_count};
ghost use Rattle.script_text.specs.Laws.{IsFileDevice};
ghost use Rattle.object_calls.specs.OpeningFiles.{files_of};
ghost use Rattle.run_acts.specs.Alterations.{FlipsFile, RestoresFile, SavesFiles, file_number};
ghost use Rattle.run_acts.specs.Benches.{bench_state};

use object_calls::Bench;
use rpmb_card::RpmbPort;
use std::alloc::Global;
use tee_ports::{FileRig, Image, NoMemory};
use tee_types::{DIRECTORY_FILE, Device};

/// The number of a file: the directory's is `DIRECTORY_FILE`.
#[tactic(auto, unfolding(tee_types::specs::Limits::directory_file))]
pub fn file_number(file: Device) -> usize
    requires { IsFileDevice file }
    ensures number { result ≡ file_number file }
    ensures within { result < file_count }
{
    match file {
        Device::File(number) => number as usize,
        Device::Dir | Device::Card | Device::Entropy => usize::from(DIRECTORY_FILE),
    }
}

// What these files read as.
fn save_all<F: FileRig>(alloc: Global, files: &[F]) -> Result<Vec<Image>, NoMemory>
    ensures count { IfOk result (λ images. length images.items ≡ length files.now) }
    ensures each { IfOk result (λ images. (file : ℕ) → file < length files.now → slice_get images.items file ≡ Some (files_of F.state files.now file).reads) }
{
    let mut images = Vec::new(alloc);
    for file in files {
        images.push(file.save()?)?;
    }
    Ok(images)
}

// Puts the bytes of one file back.
fn restore_one<F: FileRig>(files: &mut [F], file: usize, image: &Image) -> Result<(), NoMemory>
    requires { file < length files.old }
    ensures here { OnOk result (files_of F.state files.new file ≡ renamed_as (files_of F.state files.old file) image.now) }
    ensures others { (k : ℕ) → k ≢ file → files_of F.state files.new k ≡ files_of F.state files.old k }
    ensures same { OnErr result (files_of F.state files.new file ≡ files_of F.state files.old file) }
{
    files[file].restore(image)
}

// Lays a mask over one file.
fn flip_one<F: FileRig>(files: &mut [F], file: usize, at: u64, mask: &[u8])
    requires { file < length files.old }
    ensures here { files_of F.state files.new file ≡ settled_as (files_of F.state files.old file) (after_mask (files_of F.state files.old file).reads at mask.now) }
    ensures others { (k : ℕ) → k ≢ file → files_of F.state files.new k ≡ files_of F.state files.old k }
{
    files[file].flip(at, mask)
}

/// What every file of the bench reads as, file 0 first. The bench stays.
///
/// # Errors
///
/// Memory ran out.
pub fn save_files<F: FileRig + Drop, R: RpmbPort + Drop>(
    alloc: Global,
    bench: &Bench<F, R>,
) -> Result<Vec<Image>, NoMemory>
    requires { vec_len bench.now.files ≡ file_count }
    ensures { IfOk result (λ images. SavesFiles (bench_state F.state R.state bench.now) images.items) }
{
    save_all(alloc, &bench.files)
}

/// Makes an image the bytes of a file, settled and with nothing pending. The file is honest from then on; all else of the bench stays.
///
/// # Errors
///
/// Memory ran out; nothing changed.
pub fn restore_file<F: FileRig + Drop, R: RpmbPort + Drop>(
    bench: &mut Bench<F, R>,
    file: Device,
    image: &Image,
) -> Result<(), NoMemory>
    requires whole { vec_len bench.old.files ≡ file_count }
    requires file { IsFileDevice file }
    ensures restored { OnOk result (RestoresFile (file_number file) image.now (bench_state F.state R.state bench.old) (bench_state F.state R.state bench.new)) }
    ensures refused { OnErr result (bench_state F.state R.state bench.new ≡ bench_state F.state R.state bench.old) }
    ensures whole { vec_len bench.new.files ≡ file_count }
    ensures card { bench.new.card ≡ bench.old.card }
{
    restore_one(&mut bench.files, file_number(file), image)
}

/// Lays a mask by exclusive or over the bytes of a file from a place on, where there are bytes, and settles them; all else of the bench stays.
pub fn flip_file<F: FileRig + Drop, R: RpmbPort + Drop>(
    bench: &mut Bench<F, R>,
    file: Device,
    at: u32,
    mask: &[u8],
)
    requires whole { vec_len bench.old.files ≡ file_count }
    requires file { IsFileDevice file }
    ensures flipped { FlipsFile (file_number file) at mask.now (bench_state F.state R.state bench.old) (bench_state F.state R.state bench.new) }
    ensures whole { vec_len bench.new.files ≡ file_count }
    ensures card { bench.new.card ≡ bench.old.card }
{
    flip_one(&mut bench.files, file_number(file), u64::from(at), mask)
}
