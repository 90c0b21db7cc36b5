// Exports into a folder of files in memory.

ghost use Rattle.std.specs.Prelude.{◌≡◌, vec_len, IfOk};
ghost use Rattle.tee_types.specs.Limits.{file_count};
ghost use Rattle.folder_export.specs.Folders.{folder_count};

use anyhow::{Context, bail};
use mem_files::MemFile;
use std::alloc::{AllocError, Global};
use std::sync::Wait;
use std::thread::Threads;
use tee_ports::{FileRig, Image, ListEntropy};
use tee_types::BENCH_FILES;
use trial_runs::{
    CardPort, Ended, FOLDER_FILES, FileFault, FilePlace, SimBench, Status, blank_bench, card_block,
    new_folder, reliable, run_into, simulator_keys,
};

/// Makes the store that is exported.
pub const MADE: &str = "app a 00000000-0000-0000-0000-000000000001
a create 6b657931 rwm a0a1a2a3a4a5a6a7a8a9aaabacadaeaf 000102030405060708090a0b0c0d0e0f101112131415161718191a1b1c1d1e1f
a create 6b657932 rwm - 0001
";

/// Makes another store: its first object has other data.
pub const OTHER: &str = "app a 00000000-0000-0000-0000-000000000001
a create 6b657931 rwm a0a1a2a3a4a5a6a7a8a9aaabacadaeaf 1f1e1d1c1b1a191817161514131211100f0e0d0c0b0a09080706050403020100
a create 6b657932 rwm - 0001
";

/// What a form of a folder does over these devices, with a script to read.
pub fn run_form<W: Threads + Wait + Sync>(
    rt: &W,
    alloc: Global,
    form: &str,
    script: &str,
    bench: SimBench,
    entropy: &mut ListEntropy,
    folder: &mut Vec<MemFile>,
) -> anyhow::Result<Ended<MemFile, CardPort>>
    requires files { vec_len bench.files ≡ file_count }
    requires folder { vec_len folder.old ≡ folder_count }
    ensures files { IfOk result (λ ended. vec_len ended.bench.files ≡ file_count) }
    ensures folder { vec_len folder.new ≡ folder_count }
{
    let words = vec![in alloc;
        String::from_str(alloc, form)?,
        String::from_str(alloc, "a")?,
    ]?;
    run_into(rt, alloc, &words, script, bench, entropy, folder)
}

/// A store, and the folder that it was exported into.
#[derive(Drop)]
pub struct Exported {
    pub bench: SimBench,
    pub folder: Vec<MemFile>,
}

/// Makes the store of a script, and exports it.
pub fn export_made<W: Threads + Wait + Sync>(
    rt: &W,
    alloc: Global,
    script: &str,
) -> anyhow::Result<Exported>
    ensures files { IfOk result (λ exported. vec_len exported.bench.files ≡ file_count) }
    ensures folder { IfOk result (λ exported. vec_len exported.folder ≡ folder_count) }
{
    let mut folder = new_folder(alloc)?;
    let bench = blank_bench(alloc)?;
    let ended = run_form(
        rt,
        alloc,
        "export",
        script,
        bench,
        &mut reliable(),
        &mut folder,
    )?;
    if ended.status != Status::Done {
        bail!("an export that is not done");
    }
    let bench = ended.bench;
    Ok(Exported { bench, folder })
}

// What the files read as.
fn images_of(alloc: Global, files: &[MemFile]) -> anyhow::Result<Vec<Image>> {
    let mut images = Vec::new(alloc);
    for file in files {
        images.push(file.save()?)?;
    }
    Ok(images)
}

// How many of these files read as the images at their places.
fn same_files(alloc: Global, images: &[Image], files: &[MemFile]) -> anyhow::Result<usize> {
    let others = images_of(alloc, files)?;
    let same = images
        .iter()
        .zip(others.iter())
        .filter(|(image, other)| image.bytes() == other.bytes())
        .count();
    Ok(same)
}

// How many of these files were written byte by byte once.
fn written_once(images: &[Image], files: &[MemFile]) -> usize {
    images
        .iter()
        .zip(files.iter())
        .filter(|(image, file)| image.bytes().len() as u64 == file.written())
        .count()
}

// A bench, and what its files and the card's block read as.
#[derive(Drop)]
struct Imaged {
    bench: SimBench,
    images: Vec<Image>,
}

// What an export of the bench has to write.
fn images_to_write(alloc: Global, bench: SimBench) -> anyhow::Result<Imaged>
    requires { vec_len bench.files ≡ file_count }
    ensures { IfOk result (λ imaged. vec_len imaged.bench.files ≡ file_count) }
{
    let Ok(read) = card_block(bench, &simulator_keys(), &mut reliable()) else {
        bail!("the card's block 0 was not read");
    };
    let bench = read.bench;
    let mut images = images_of(alloc, &bench.files)?;
    images.push(Image::from_vec(read.block.to_vec(alloc)?))?;
    Ok(Imaged { bench, images })
}

/// Lets the file of a number fail at its first call.
pub fn fail_first(files: &mut Vec<MemFile>, number: u16) -> anyhow::Result<()>
    ensures { vec_len files.new ≡ vec_len files.old }
{
    match files.get_mut(usize::from(number)) {
        Some(file) => file.fail_call(1)?,
        None => bail!("no file"),
    }
    Ok(())
}

// An export that failed: the bench that it gave back, and whether the status tells of the file that failed, and the bench stayed.
#[derive(Drop)]
struct Failed {
    bench: SimBench,
    told: bool,
}

// Exports a store while a file fails.
fn export_failing<W: Threads + Wait + Sync>(
    rt: &W,
    alloc: Global,
    bench: SimBench,
    images: &[Image],
    place: FilePlace,
) -> anyhow::Result<Failed>
    requires { vec_len bench.files ≡ file_count }
    ensures { IfOk result (λ failed. vec_len failed.bench.files ≡ file_count) }
{
    let mut bench = bench;
    let mut folder = new_folder(alloc)?;
    match place {
        FilePlace::Bench(number) => fail_first(&mut bench.files, number)?,
        FilePlace::Folder(number) => fail_first(&mut folder, number)?,
    }
    let ended = run_form(rt, alloc, "export", "", bench, &mut reliable(), &mut folder)?;
    let told = ended.status == Status::FileFault(FileFault { place, count: 1 });
    let kept = same_files(alloc, images, &ended.bench.files)? == BENCH_FILES;
    Ok(Failed {
        bench: ended.bench,
        told: told && kept,
    })
}

// The files that fail, one after another: of the folder and of the bench those that have bytes, and some beside them.
const PLACES: [FilePlace; 10] = [
    FilePlace::Folder(0),
    FilePlace::Folder(1),
    FilePlace::Folder(2),
    FilePlace::Folder(272),
    FilePlace::Folder(273),
    FilePlace::Folder(274),
    FilePlace::Bench(0),
    FilePlace::Bench(1),
    FilePlace::Bench(272),
    FilePlace::Bench(273),
];

// Exports a store while one file after another fails. Says how many are not told, or change the bench.
fn untold<W: Threads + Wait + Sync>(
    rt: &W,
    alloc: Global,
    store: SimBench,
    images: &[Image],
) -> anyhow::Result<u64>
    requires { vec_len store.files ≡ file_count }
{
    let mut bench = store;
    let mut missed = 0u64;
    for place in PLACES {
        let failed = export_failing(rt, alloc, bench, images, place)?;
        bench = failed.bench;
        if !failed.told {
            missed = missed.saturating_add(1);
        }
    }
    Ok(missed)
}

/// The line of exports.
pub fn export_line<W: Threads + Wait + Sync>(rt: &W, alloc: Global) -> anyhow::Result<String> {
    let Exported { bench, folder } = export_made(rt, alloc, MADE)?;
    let Imaged { bench, images } = images_to_write(alloc, bench)?;
    let same = same_files(alloc, &images, &folder)?;
    let once = written_once(&images, &folder);
    let missed = untold(rt, alloc, bench, &images)?;
    let line: Result<String, AllocError> = format!(in alloc;
        "an export into {FOLDER_FILES} files: {same} hold what was exported, {once} were written once; {} exports with a file that fails, {missed} do not tell it",
        PLACES.len()
    );
    line.context("no memory")
}
