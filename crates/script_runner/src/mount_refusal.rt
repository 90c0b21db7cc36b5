//! Ending a run where a mount was refused.

ghost use Rattle.std.specs.Prelude.{◌≡◌, ◌⊎◌, ◌≤◌, ◌++◌, IfErr, OnErr, OnOk};
ghost use Rattle.tee_ports.specs.Faults.{Rose};
ghost use Rattle.tee_ports.specs.Streams.{Appends};
ghost use Rattle.run_acts.specs.Lines.{refusal_line};
ghost use Rattle.script_runner.specs.Sending.{IsWriteError, Stops};
ghost use Rattle.script_runner.specs.Prints.{PrintsRefusal};

use crate::{Status, flush};
use run_acts::{MountFault, print_refusal};
use tee_ports::Sink;

/// Puts the text so far and the line of a refusal.
fn put_refusal<K: Sink>(fault: &MountFault, sink: &mut K, kept: &mut Vec<u8>) -> Result<(), Status>
    ensures ok { OnOk result (Appends (K.held sink.old) (K.held sink.new) (kept.old.items ++ refusal_line fault.now)) }
    ensures err { OnErr result (Stops (K.held sink.old) (K.held sink.new) kept.old.items (refusal_line fault.now)) }
    ensures error { IfErr result (IsWriteError (Rose (K.faults sink.old) (K.faults sink.new) ⊎ K.is_full sink.new)) }
    ensures counted { K.faults sink.old ≤ K.faults sink.new }
{
    print_refusal(fault, kept)?;
    flush(sink, kept, 0)
}

/// Puts the text so far, with the reason of a refusal below it, and says how the run ends.
pub(crate) fn print_mount_refusal<K: Sink>(fault: MountFault, sink: &mut K, kept: Vec<u8>) -> Status
    ensures prints { PrintsRefusal (Rose (K.faults sink.old) (K.faults sink.new) ⊎ K.is_full sink.new) (K.held sink.old) (K.held sink.new) kept.items fault result }
    ensures counted { K.faults sink.old ≤ K.faults sink.new }
{
    let mut kept = kept;
    match fault {
        MountFault::NoMemory => Status::NoMemory,
        MountFault::Failed(_) | MountFault::Spent => {
            let _put = flush(sink, &mut kept, 0);
            Status::DeviceFault(fault)
        }
        MountFault::NoStore
        | MountFault::CardBlock { .. }
        | MountFault::OldFormat { .. }
        | MountFault::Directory(_)
        | MountFault::Frame(_)
        | MountFault::CardResult(_) => match put_refusal(&fault, sink, &mut kept) {
            Ok(()) => Status::MountRefused(fault),
            Err(status) => status,
        },
    }
}
