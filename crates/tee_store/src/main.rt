//! A store of trusted objects in a folder of the host, by commands: `tee_store create FOLDER`, then `put`, `get`, `list` and
//! others. `tee_store --help` lists them.
//!
//! The keys of the store lie in a file, which `create` makes of random bytes of the system. A command that changes nothing opens
//! the store to be read alone. Each fault is one line on standard error, and an exit status by its kind (`kinds`).
#![tactic(auto)]

mod amounts;
mod checking;
mod creating;
mod dumping;
mod faults;
mod files;
mod findings;
mod help;
mod keys;
mod kinds;
mod line;
mod listing;
mod names;
mod objects;
mod reply_texts;
mod reporting;
mod serving;
mod stores;
mod words;
mod words_fault;

use checking::check;
use creating::create;
use dumping::dump;
use faults::{Fault, kind_of_fault};
use help::{HELP, VERSION};
use kinds::{Kind, status_of};
use listing::list;
use objects::{get, info, put, remove, rename};
use reporting::{report, report_alone};
use std::env;
use std::process::ExitCode;
use words::{Command, Place, Task, command_of};
use words_fault::WordsFault;

// The words behind the program's name.
fn words_of(rt: &HostRuntime) -> Result<Vec<String>, Fault> {
    let Ok(all) = env::args(rt) else {
        return Err(Fault::Words(WordsFault::NoText));
    };
    let mut words = Vec::new(rt.alloc());
    for word in all.skip(1) {
        words.push(word)?;
    }
    Ok(words)
}

// What the words ask.
fn asked(rt: &HostRuntime) -> Result<Command, Fault> {
    let words = words_of(rt)?;
    Ok(command_of(rt.alloc(), words)?)
}

// Does what is asked of a store.
fn do_task(rt: &HostRuntime, place: &Place, task: &Task) -> Result<(), Fault> {
    match task {
        Task::Create => create(rt, place),
        Task::List => list(rt, place),
        Task::Put(id) => put(rt, place, *id),
        Task::Get(id) => get(rt, place, *id),
        Task::Info(id) => info(rt, place, *id),
        Task::Remove(id) => remove(rt, place, *id),
        Task::Rename { id, new } => rename(rt, place, *id, *new),
        Task::Check => check(rt, place),
        Task::Dump => dump(rt, place),
    }
}

// Does what is asked.
fn do_command(rt: &HostRuntime, command: &Command) -> Result<(), Fault> {
    match command {
        Command::Help => rt.write_all(HELP.as_bytes()).map_err(Fault::Output),
        Command::Version => rt.write_all(VERSION.as_bytes()).map_err(Fault::Output),
        Command::Store { place, task } => do_task(rt, place, task),
    }
}

// How a command ends. A fault has its line on standard error.
fn run(rt: &HostRuntime) -> Kind {
    let command = match asked(rt) {
        Ok(command) => command,
        Err(fault) => {
            let _ = report_alone(rt, &fault);
            return kind_of_fault(&fault);
        }
    };
    match do_command(rt, &command) {
        Ok(()) => Kind::Done,
        Err(fault) => {
            let _ = report(rt, &command, &fault);
            kind_of_fault(&fault)
        }
    }
}

fn main(rt: HostRuntime) -> ExitCode {
    ExitCode::from(status_of(run(&rt)))
}
