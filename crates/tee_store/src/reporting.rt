//! The line of a fault on standard error.

use crate::faults::Fault;
use crate::names::Name;
use crate::words::{Command, Place, Task};
use std::io;
use tee_types::{Code, ObjectId, Reply};

// The object that a reply speaks of, if it is of one.
fn object_of(task: &Task, reply: &Reply) -> Option<ObjectId> {
    match task {
        Task::Create | Task::List | Task::Check | Task::Dump => None,
        Task::Put(id) | Task::Get(id) | Task::Info(id) | Task::Remove(id) => Some(*id),
        Task::Rename { id, new } => match reply {
            Reply::Refused(Code::AccessConflict) => Some(*new),
            _ => Some(*id),
        },
    }
}

// Writes the line, with what it is about before it.
fn report_about(rt: &HostRuntime, about: &str, fault: &Fault) -> io::Result<()> {
    eprintln!(rt; "tee_store: {about}: {fault}")
}

// Writes the line of a reply.
fn report_reply(
    rt: &HostRuntime,
    place: &Place,
    task: &Task,
    fault: &Fault,
    reply: &Reply,
) -> io::Result<()> {
    match object_of(task, reply) {
        Some(id) => {
            let name = Name { id };
            eprintln!(rt; "tee_store: {name}: {fault}")
        }
        None => report_about(rt, place.folder.as_str(), fault),
    }
}

// Writes the line of a task that was not done.
fn report_task(rt: &HostRuntime, place: &Place, task: &Task, fault: &Fault) -> io::Result<()> {
    match fault {
        Fault::Call { reply, .. } => report_reply(rt, place, task, fault, reply),
        Fault::Keys(_) => report_about(rt, place.keys.as_str(), fault),
        Fault::Random(_) => report_about(rt, "/dev/urandom", fault),
        Fault::Input(_) => report_about(rt, "standard input", fault),
        Fault::Output(_) => report_about(rt, "standard output", fault),
        Fault::Folder(_) | Fault::Open(_) | Fault::Audit(_) | Fault::Found(_) => {
            report_about(rt, place.folder.as_str(), fault)
        }
        Fault::Words(_) | Fault::NoMemory => report_alone(rt, fault),
    }
}

/// Writes the line of a fault that is about no folder.
pub fn report_alone(rt: &HostRuntime, fault: &Fault) -> io::Result<()> {
    eprintln!(rt; "tee_store: {fault}")
}

/// Writes the line of a command that was not done.
pub fn report(rt: &HostRuntime, command: &Command, fault: &Fault) -> io::Result<()> {
    match command {
        Command::Store { place, task } => report_task(rt, place, task, fault),
        Command::Help | Command::Version => report_about(rt, "standard output", fault),
    }
}
