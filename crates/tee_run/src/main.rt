//! Trusted storage, run by scripts: `tee_run run` reads a script from standard input, serves its calls over a simulated disk and card, and
//! prints the history of calls and replies. `tee_run export PATH` exports what the script leaves into the folder PATH, too. `tee_run card` reads a
//! script of objects on the card alone, and prints its lines with their replies.
#![tactic(auto)]

mod checking;
mod exporting;

ghost use Rattle.std.specs.Prelude.{◌≡◌, vec_len, IfOk};
ghost use Rattle.folder_export.specs.Folders.{folder_count};

use checking::check_standard;
use exporting::{FolderTaken, lock_export};
use host_folder::{FolderFile, FolderLock};
use script_runner::{
    FOLDER_FILES, RunEnd, Status, blank_bench, folder_of, run, simulator_keys, status_number,
    status_text,
};
use seed_words::SeedEntropy;
use std::env::Env;
use std::fs::{File, Files};
use std::process::ExitCode;
use std::sync::Wait;
use std::thread::Threads;
use std::{env, io};
use tee_ports::{NoMemory, StdSink, StdSource};

/// The words behind the program's name. Words that can't be read are none.
fn words_of(rt: &(impl Env + AllocGlobal)) -> Result<Vec<String>, io::Error> {
    let mut words = Vec::new(rt.alloc());
    for word in env::args(rt)?.skip(1) {
        words.push(word)?;
    }
    Ok(words)
}

/// The file of that number in the folder that the words speak of: an audit reads it, if it is there.
fn folder_file<'a, R: Files<File = File> + AllocGlobal + Drop>(
    rt: &'a R,
    words: &[String],
    number: u16,
) -> Result<FolderFile<'a, R>, NoMemory> {
    let path = folder_of(words);
    match words.first() {
        Some(word) if word.as_str() == "audit" => {
            FolderFile::read_if_there(rt, rt.alloc(), path, number)
        }
        _ => FolderFile::new(rt, rt.alloc(), path, number),
    }
}

/// The files of the folder that the words speak of. None is opened.
fn folder_files<'a, R: Files<File = File> + AllocGlobal + Drop>(
    rt: &'a R,
    words: &[String],
) -> Result<Vec<FolderFile<'a, R>>, NoMemory>
    ensures { IfOk result (λ folder. vec_len folder ≡ folder_count) }
{
    let mut folder = Vec::with_capacity(rt.alloc(), FOLDER_FILES)?;
    for number in 0..FOLDER_FILES as u16 {
        folder.push(folder_file(rt, words, number)?)?;
    }
    Ok(folder)
}

/// Runs the script on standard input over devices that were never used, and the folder that the words speak of.
fn run_standard<W: Files<File = File> + Input + Print + AllocGlobal + Threads + Wait + Sync + Drop>(
    rt: &W,
    words: &[String],
) -> Status {
    let Ok(bench) = blank_bench(rt.alloc()) else {
        return Status::NoMemory;
    };
    let Ok(mut folder) = folder_files(rt, words) else {
        return Status::NoMemory;
    };
    let mut source = StdSource::new(rt.reader());
    let mut sink = StdSink::new(io::writer(rt));
    let mut entropy = SeedEntropy::from_seed(&[0; 32]);
    let RunEnd { status, bench: _ } = run(
        rt,
        rt.alloc(),
        words,
        &mut source,
        &mut sink,
        bench,
        &simulator_keys(),
        &mut entropy,
        &mut folder,
    );
    status
}

/// Whether the words ask for a check of the script.
fn is_check(words: &[String]) -> bool {
    match words {
        [word] => word.as_str() == "check",
        _ => false,
    }
}

/// The lock that is held while the words are done: an export's, on its folder.
fn lock_of<W: Files<File = File> + AllocGlobal>(
    rt: &W,
    words: &[String],
) -> Result<Option<FolderLock>, FolderTaken> {
    match words {
        [word, path] if word.as_str() == "export" => lock_export(rt, rt.alloc(), path.as_str()),
        _ => Ok(None),
    }
}

/// Does what the words ask, and gives the exit status. What is not done has its text on standard error.
fn do_words<W>(rt: &W, words: &[String]) -> u8
where
    W: Files<File = File> + Input + Print + Eprint + AllocGlobal + Threads + Wait + Sync + Drop,
{
    if is_check(words) {
        return check_standard(rt);
    }
    match lock_of(rt, words) {
        Ok(lock) => {
            let number = told(rt, &run_standard(rt, words));
            drop(lock);
            number
        }
        Err(taken) => {
            let _ = eprintln!(rt; "{taken}");
            7
        }
    }
}

/// The exit status of a run, whose text goes to standard error.
fn told(rt: &impl Eprint, status: &Status) -> u8 {
    let number = status_number(status);
    if number != 0 {
        let _ = rt.eprintln(status_text(status));
    }
    number
}

fn main(rt: HostRuntime) -> ExitCode {
    let number = match words_of(&rt) {
        Ok(words) => do_words(&rt, words.as_slice()),
        Err(error) if error.kind() == io::ErrorKind::OutOfMemory => told(&rt, &Status::NoMemory),
        Err(_) => told(&rt, &Status::Usage),
    };
    ExitCode::from(number)
}
