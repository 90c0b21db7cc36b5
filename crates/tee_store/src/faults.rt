//! Why a command was not done.

ghost use Rattle.std.specs.Prelude.{◌≡◌};
ghost use Rattle.tee_store.specs.Faults.{kind_of_fault, kind_of_keys};

use crate::keys::KeysFault;
use crate::kinds::{Kind, kind_of_audit, kind_of_open, kind_of_reply};
use crate::reply_texts::write_reply;
use crate::words_fault::WordsFault;
use folder_audit::AuditFault;
use kept_store::OpenFault;
use std::alloc::{AllocError, AllocFailed};
use std::{fmt, io};
use tee_types::Reply;

/// Why a command was not done.
#[derive(Debug, Drop)]
pub enum Fault {
    /// The words ask nothing.
    Words(WordsFault),
    /// The system did not make the folder, or did not tell what is in it.
    Folder(io::Error),
    /// There are no keys.
    Keys(KeysFault),
    /// The system gave no random bytes.
    Random(io::Error),
    /// The store was not opened.
    Open(OpenFault),
    /// The audit of the store ended early.
    Audit(AuditFault),
    /// The audit found objects that are not whole: so many.
    Found(u64),
    /// A call was not done.
    Call {
        /// What it was answered.
        reply: Reply,
        /// Whether a commit was in doubt as the store was closed.
        in_doubt: bool,
    },
    /// Standard input failed.
    Input(io::Error),
    /// Standard output failed.
    Output(io::Error),
    /// Memory ran out.
    NoMemory,
}

impl From<WordsFault> for Fault {
    fn from(fault: WordsFault) -> Fault {
        Fault::Words(fault)
    }
}

impl From<KeysFault> for Fault {
    fn from(fault: KeysFault) -> Fault {
        Fault::Keys(fault)
    }
}

impl From<OpenFault> for Fault {
    fn from(fault: OpenFault) -> Fault {
        Fault::Open(fault)
    }
}

impl From<AllocError> for Fault {
    fn from(_: AllocError) -> Fault {
        Fault::NoMemory
    }
}

impl<T: Drop> From<AllocFailed<T>> for Fault {
    fn from(_: AllocFailed<T>) -> Fault {
        Fault::NoMemory
    }
}

/// How a command ends that has no keys.
fn kind_of_keys(fault: &KeysFault) -> Kind
    ensures { result ≡ kind_of_keys fault.now }
{
    match fault {
        KeysFault::Missing => Kind::Refused,
        KeysFault::WrongLength => Kind::Damaged,
        KeysFault::System(_) => Kind::Device,
    }
}

/// How a command ends that was not done.
pub fn kind_of_fault(fault: &Fault) -> Kind
    ensures { result ≡ kind_of_fault fault.now }
{
    match fault {
        Fault::Words(WordsFault::NoMemory) => Kind::Device,
        Fault::Words(_) => Kind::Usage,
        Fault::Keys(fault) => kind_of_keys(fault),
        Fault::Open(fault) => kind_of_open(*fault),
        Fault::Audit(fault) => kind_of_audit(*fault),
        Fault::Found(_) => Kind::Damaged,
        Fault::Call { reply, .. } => kind_of_reply(reply),
        Fault::Folder(_)
        | Fault::Random(_)
        | Fault::Input(_)
        | Fault::Output(_)
        | Fault::NoMemory => Kind::Device,
    }
}

// Why an audit ended early, in words.
fn write_audit<W: fmt::Write>(f: &mut fmt::Formatter<W>, fault: AuditFault) -> fmt::Result {
    match fault {
        AuditFault::Refused(fault) => {
            let fault = OpenFault::Store(fault);
            write!(f, "{fault}")
        }
        AuditFault::Failed(_) => f.write_str("the system refused a call of a file of the store"),
        AuditFault::NoMemory => f.write_str("memory ran out"),
    }
}

// A reply in words, and whether the call was done.
fn write_call<W: fmt::Write>(
    f: &mut fmt::Formatter<W>,
    reply: &Reply,
    in_doubt: bool,
) -> fmt::Result {
    if in_doubt {
        f.write_str("not known whether it was done; run `tee_store check`: ")?;
    }
    write_reply(f, reply)
}

impl fmt::Display for Fault {
    fn fmt<W: fmt::Write>(&self, f: &mut fmt::Formatter<W>) -> fmt::Result {
        match self {
            Fault::Words(fault) => write!(f, "{fault}"),
            Fault::Folder(error) => write!(f, "{error}"),
            Fault::Keys(fault) => write!(f, "{fault}"),
            Fault::Random(error) => write!(f, "{error}"),
            Fault::Open(fault) => write!(f, "{fault}"),
            Fault::Audit(fault) => write_audit(f, *fault),
            Fault::Found(count) => write!(f, "objects that are not whole: {count}"),
            Fault::Call { reply, in_doubt } => write_call(f, reply, *in_doubt),
            Fault::Input(error) => write!(f, "{error}"),
            Fault::Output(error) => write!(f, "{error}"),
            Fault::NoMemory => f.write_str("memory ran out"),
        }
    }
}
