//! Ending a run where a card is not mounted.

ghost use Rattle.std.specs.Prelude.{◌≡◌, ◌⊎◌, ◌≤◌, ◌++◌, length, take, IfErr, OnErr, OnOk};
ghost use Rattle.tee_ports.specs.Faults.{Rose};
ghost use Rattle.tee_ports.specs.Streams.{Appends};
ghost use Rattle.script_runner.specs.Sending.{IsWriteError, Stops};
ghost use Rattle.script_runner.specs.CardRecords.{card_map_line, told_mount};
ghost use Rattle.script_runner.specs.CardRuns.{IsOfMount, PrintsMount};

use crate::mount_refusal::print_mount_refusal;
use crate::{Status, flush};
use rpmb_files::CardFault;
use run_acts::MountFault;
use script_text::{put, put_word_number};
use tee_ports::Sink;
use tee_types::{Cause, NoMemory};

/// What the answer of a device is told as where the card is mounted.
fn told_mount(cause: Cause) -> MountFault
    ensures { result ≡ told_mount cause }
{
    match cause {
        Cause::Fault { device, count } => MountFault::Failed(Cause::Fault { device, count }),
        Cause::Frame(fault) => MountFault::Frame(fault),
        Cause::CardResult(value) => MountFault::CardResult(value),
    }
}

/// Appends the line of a card whose blocks have not the form of objects. A refusal may leave a part of it behind the old text.
#[tactic(auto, unfolding(crate::specs::CardRecords::card_map_line))]
fn put_card_map(out: &mut Vec<u8>, block: u8, offset: u8) -> Result<(), NoMemory>
    ensures ok { OnOk result (out.new.items ≡ out.old.items ++ card_map_line block offset) }
    ensures kept { take (length out.old.items) out.new.items ≡ out.old.items }
{
    put_word_number(out, b"# refused card-map ", u64::from(block))?;
    put_word_number(out, b" ", u64::from(offset))?;
    put(out, b"\n")?;
    Ok(())
}

/// Appends the line of a card whose blocks have not the form of objects. A refusal leaves the text as it was.
fn print_card_map(out: &mut Vec<u8>, block: u8, offset: u8) -> Result<(), NoMemory>
    ensures ok { OnOk result (out.new.items ≡ out.old.items ++ card_map_line block offset) }
    ensures err { OnErr result (out.new.items ≡ out.old.items) }
{
    let before = out.len();
    let printed = put_card_map(out, block, offset);
    if printed.is_err() {
        out.truncate(before);
    }
    printed
}

/// Puts the text so far and the line of a card whose blocks have not the form of objects.
fn put_bad_card<K: Sink>(
    block: u8,
    offset: u8,
    sink: &mut K,
    kept: &mut Vec<u8>,
) -> Result<(), Status>
    ensures ok { OnOk result (Appends (K.held sink.old) (K.held sink.new) (kept.old.items ++ card_map_line block offset)) }
    ensures err { OnErr result (Stops (K.held sink.old) (K.held sink.new) kept.old.items (card_map_line block offset)) }
    ensures error { IfErr result (IsWriteError (Rose (K.faults sink.old) (K.faults sink.new) ⊎ K.is_full sink.new)) }
    ensures counted { K.faults sink.old ≤ K.faults sink.new }
{
    print_card_map(kept, block, offset)?;
    flush(sink, kept, 0)
}

/// Puts the text so far, with the reason of the refused mount below it, and says how the run ends.
pub(crate) fn print_card_refusal<K: Sink>(fault: CardFault, sink: &mut K, kept: Vec<u8>) -> Status
    requires { IsOfMount fault }
    ensures prints { PrintsMount (Rose (K.faults sink.old) (K.faults sink.new) ⊎ K.is_full sink.new) (K.held sink.old) (K.held sink.new) kept.items fault result }
    ensures counted { K.faults sink.old ≤ K.faults sink.new }
{
    match fault {
        CardFault::Bad { block, offset } => {
            let mut kept = kept;
            match put_bad_card(block, offset, sink, &mut kept) {
                Ok(()) => Status::CardMapRefused { block, offset },
                Err(status) => status,
            }
        }
        CardFault::Device(cause) => print_mount_refusal(told_mount(cause), sink, kept),
        CardFault::NoMemory => Status::NoMemory,
        CardFault::TooLarge { .. }
        | CardFault::NotFound
        | CardFault::Full { .. }
        | CardFault::Spent => unreachable!(),
    }
}
