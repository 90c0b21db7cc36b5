//! Replies that are told twice: to the history, and to the caller.

ghost use Rattle.std.specs.Prelude.{◌≡◌, IfOk, OnErr};
ghost use Rattle.call_steps.specs.PlainReplies.{AccusesNone, HasNoBytes};

use std::alloc::Global;
use tee_types::{NoMemory, Reply};

/// A reply without memory of its own, twice: for the history, and for the caller.
pub fn twice(reply: Reply) -> (Reply, Reply)
    requires { HasNoBytes reply }
    ensures { result ≡ (reply, reply) }
{
    match reply {
        Reply::Done => (Reply::Done, Reply::Done),
        Reply::Handle(number) => (Reply::Handle(number), Reply::Handle(number)),
        Reply::Found { id, size } => (Reply::Found { id, size }, Reply::Found { id, size }),
        Reply::Refused(code) => (Reply::Refused(code), Reply::Refused(code)),
        Reply::Misuse(reason) => (Reply::Misuse(reason), Reply::Misuse(reason)),
        Reply::Corrupt => (Reply::Corrupt, Reply::Corrupt),
        Reply::NotAvailable(cause) => (Reply::NotAvailable(cause), Reply::NotAvailable(cause)),
        Reply::CounterSpent(counter) => {
            (Reply::CounterSpent(counter), Reply::CounterSpent(counter))
        }
        Reply::NoMemory => (Reply::NoMemory, Reply::NoMemory),
        Reply::Content(_) | Reply::Info { .. } => unreachable!(),
    }
}

/// A copy of a reply. One that accuses a device takes no memory.
///
/// # Errors
///
/// Memory ran out.
pub fn copied(alloc: Global, reply: &Reply) -> Result<Reply, NoMemory>
    ensures given { IfOk result (λ told. told ≡ reply.now) }
    ensures none { OnErr result (AccusesNone reply.now) }
{
    match reply {
        Reply::NotAvailable(cause) => Ok(Reply::NotAvailable(*cause)),
        other => other.copy(alloc),
    }
}
