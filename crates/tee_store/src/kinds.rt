//! How a command ends, by what came of it.

ghost use Rattle.std.specs.Prelude.{◌≡◌};
ghost use Rattle.tee_store.specs.Kinds.{kind_of_audit, kind_of_card, kind_of_cause, kind_of_code, kind_of_mount, kind_of_open, kind_of_reply, status_of};

use folder_audit::AuditFault;
use host_card::CardFault;
use kept_store::OpenFault;
use object_calls::MountFault;
use tee_types::{Cause, Code, Reply};

/// How a command ends.
#[derive(Clone, Copy, Debug, PartialEq, Eq)]
pub enum Kind {
    /// It was done.
    Done,
    /// It was refused, and changed nothing.
    Refused,
    /// The words are no command.
    Usage,
    /// The store, an object or the card's file is not as it was left, or the keys are others.
    Damaged,
    /// The system refused a call, or there was no room or no memory.
    Device,
    /// Somebody else has the store open.
    Busy,
}

/// The exit status.
pub fn status_of(kind: Kind) -> u8
    ensures { result ≡ status_of kind }
{
    match kind {
        Kind::Done => 0,
        Kind::Refused => 1,
        Kind::Usage => 2,
        Kind::Damaged => 3,
        Kind::Device => 4,
        Kind::Busy => 5,
    }
}

/// Of a return code.
fn kind_of_code(code: Code) -> Kind
    ensures { result ≡ kind_of_code code }
{
    match code {
        Code::AccessConflict | Code::BadParameters | Code::ItemNotFound | Code::Overflow => {
            Kind::Refused
        }
        Code::NoSpace => Kind::Device,
    }
}

/// Of why the storage is not available.
fn kind_of_cause(cause: Cause) -> Kind
    ensures { result ≡ kind_of_cause cause }
{
    match cause {
        Cause::Fault { .. } => Kind::Device,
        Cause::Frame(_) | Cause::CardResult(_) => Kind::Damaged,
    }
}

/// Of a reply.
pub fn kind_of_reply(reply: &Reply) -> Kind
    ensures { result ≡ kind_of_reply reply.now }
{
    match reply {
        Reply::Done
        | Reply::Handle(_)
        | Reply::Content(_)
        | Reply::Info { .. }
        | Reply::Found { .. } => Kind::Done,
        Reply::Refused(code) => kind_of_code(*code),
        Reply::Misuse(_) => Kind::Refused,
        Reply::Corrupt => Kind::Damaged,
        Reply::NotAvailable(cause) => kind_of_cause(*cause),
        Reply::CounterSpent(_) | Reply::NoMemory => Kind::Device,
    }
}

/// Of why no card was read.
fn kind_of_card(fault: CardFault) -> Kind
    ensures { result ≡ kind_of_card fault }
{
    match fault {
        CardFault::Failed { .. } | CardFault::NoMemory => Kind::Device,
        _ => Kind::Damaged,
    }
}

/// Of why a store was not mounted.
fn kind_of_mount(fault: MountFault) -> Kind
    ensures { result ≡ kind_of_mount fault }
{
    match fault {
        MountFault::NoStore | MountFault::OldFormat { .. } => Kind::Refused,
        MountFault::CardBlock { .. }
        | MountFault::Directory(_)
        | MountFault::Frame(_)
        | MountFault::CardResult(_) => Kind::Damaged,
        MountFault::Failed(cause) => kind_of_cause(cause),
        MountFault::Spent | MountFault::NoMemory => Kind::Device,
    }
}

/// Of why a store was not opened.
pub fn kind_of_open(fault: OpenFault) -> Kind
    ensures { result ≡ kind_of_open fault }
{
    match fault {
        OpenFault::NoName | OpenFault::NoFolder | OpenFault::NoStore | OpenFault::Exists => {
            Kind::Refused
        }
        OpenFault::Unreadable | OpenFault::Unlocked | OpenFault::Block { .. } => Kind::Device,
        OpenFault::Busy => Kind::Busy,
        OpenFault::Card(fault) => kind_of_card(fault),
        OpenFault::CardMissing => Kind::Damaged,
        OpenFault::Store(fault) => kind_of_mount(fault),
    }
}

/// Of why an audit ended early.
pub fn kind_of_audit(fault: AuditFault) -> Kind
    ensures { result ≡ kind_of_audit fault }
{
    match fault {
        AuditFault::Refused(fault) => kind_of_mount(fault),
        AuditFault::Failed(_) | AuditFault::NoMemory => Kind::Device,
    }
}
