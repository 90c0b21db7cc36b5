//! How a run ends.

ghost use Rattle.std.specs.Prelude.{◌≡◌};
ghost use Rattle.script_runner.specs.Exit.{status_text, status_number};

use folder_export::FileFault;
use run_acts::MountFault;
use std::alloc::AllocError;

/// How a run ends.
#[derive(Clone, Copy, Debug, PartialEq, Eq)]
pub enum Status {
    /// The script was read to its end, and every step was run and written.
    Done,
    /// The words are no form of the command line.
    Usage,
    /// The line of this number, from 1, is the first outside the grammar.
    BadLine(u32),
    /// The source failed.
    ReadFault,
    /// The sink failed, or it is full.
    WriteFault,
    /// The script passes a limit.
    TooLong(Excess),
    /// There was no memory.
    NoMemory,
    /// A mount was refused for what was read: there is no store, or it is not one.
    MountRefused(MountFault),
    /// A mount ended at a device: a call of it failed, or the card's counter is at its end.
    DeviceFault(MountFault),
    /// A call of a file failed while the store was exported or audited.
    FileFault(FileFault),
    /// The objects on the card alone were not mounted: its blocks have not the form of objects.
    CardMapRefused {
        /// The first block that is outside the form.
        block: u8,
        /// The first offset in it that is.
        offset: u8,
    },
    /// The quotas of a phase commit so many objects, more than the 256 of a store.
    OverCommitted(u32),
}

/// The limit that a script passes.
#[derive(Clone, Copy, Debug, PartialEq, Eq)]
pub enum Excess {
    /// It has more than 16,777,216 bytes.
    Bytes,
    /// It declares so many applications, more than 16.
    Apps(u32),
}

impl From<AllocError> for Status {
    ghost use Rattle.std.specs.Prelude.{◌≡◌};
    ghost use Rattle.script_runner.specs.declared.status.Status.TheVariants.{NoMemory};

    ghost from_gives = { λ _ e. e ≡ NoMemory };

    fn from(_: AllocError) -> Status {
        Status::NoMemory
    }
}

/// The text that goes to standard error.
pub fn status_text(status: &Status) -> &'static str
    ensures { result.now ≡ status_text status.now }
{
    match status {
        Status::Done => "",
        Status::Usage =>
            "usage: tee_run run | tee_run soak N | tee_run migrate | tee_run export PATH | tee_run audit PATH | tee_run card",
        Status::BadLine(_) => "bad line",
        Status::ReadFault => "read fault",
        Status::WriteFault => "write fault",
        Status::TooLong(Excess::Bytes) => "script too long",
        Status::TooLong(Excess::Apps(_)) => "too many applications",
        Status::NoMemory => "no memory",
        Status::MountRefused(_) | Status::CardMapRefused { .. } => "mount refused",
        Status::DeviceFault(_) | Status::FileFault(_) => "device fault",
        Status::OverCommitted(_) => "quotas exceed 256 objects",
    }
}

/// The exit status.
pub fn status_number(status: &Status) -> u8
    ensures { result ≡ status_number status.now }
{
    match status {
        Status::Done => 0,
        Status::Usage => 2,
        Status::BadLine(_) => 3,
        Status::ReadFault => 4,
        Status::WriteFault => 5,
        Status::MountRefused(_) | Status::CardMapRefused { .. } => 6,
        Status::DeviceFault(_) | Status::FileFault(_) => 7,
        Status::TooLong(_) => 8,
        Status::NoMemory => 9,
        Status::OverCommitted(_) => 10,
    }
}
