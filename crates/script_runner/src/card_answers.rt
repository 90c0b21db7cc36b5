//! What the lines of a script of the card are answered, and the text of it.

ghost use Rattle.std.specs.Prelude.{◌≡◌, ◌⊎◌, ◌≤◌, ◌++◌, ◌+◌, ◌<◌, length, IfErr, IfOk, OnErr, OnOk};
ghost use Rattle.tee_ports.specs.Faults.{Rose};
ghost use Rattle.card_script.specs.CardText.{answer_line, listed_line};
ghost use Rattle.card_script.specs.declared.card_line.CardReply.TheVariants.{Done as DoneReply};
ghost use Rattle.rpmb_files.specs.Replies.{done_reply, fault_reply, found_reply};
ghost use Rattle.script_runner.specs.Sending.{IsWriteError, Sends, Stops};
ghost use Rattle.script_runner.specs.CardRecords.{map_reply, names_text};

use crate::text_sink::PIECE;
use crate::{Status, flush};
use card_script::{CardLine, CardReply, print_answer, print_listed};
use rpmb_files::{CardFault, CardName};
use tee_ports::Sink;
use tee_types::{Bytes, NoMemory};

/// The reply of a call that was refused so. No call of a store that is mounted is refused for the form of the card's blocks.
pub(crate) fn fault_reply(fault: CardFault) -> Result<CardReply, NoMemory>
    ensures { IfOk result (λ reply. map_reply reply ≡ fault_reply fault) }
{
    match fault {
        CardFault::TooLarge { size } => Ok(CardReply::TooLarge { size }),
        CardFault::NotFound => Ok(CardReply::NotFound),
        CardFault::Full { need, free } => Ok(CardReply::Full { need, free }),
        CardFault::Spent => Ok(CardReply::Spent),
        CardFault::Device(_) => Ok(CardReply::Device),
        CardFault::Bad { .. } | CardFault::NoMemory => Err(NoMemory {}),
    }
}

/// The reply of a call that gives nothing.
pub(crate) fn done_reply(answer: Result<(), CardFault>) -> Result<CardReply, NoMemory>
    ensures { IfOk result (λ reply. map_reply reply ≡ done_reply answer) }
{
    match answer {
        Ok(()) => Ok(CardReply::Done),
        Err(fault) => fault_reply(fault),
    }
}

/// The reply of a call that gives the bytes of an object.
pub(crate) fn found_reply(answer: Result<Bytes, CardFault>) -> Result<CardReply, NoMemory>
    ensures { IfOk result (λ reply. map_reply reply ≡ found_reply answer) }
{
    match answer {
        Ok(bytes) => Ok(CardReply::Content(bytes)),
        Err(fault) => fault_reply(fault),
    }
}

/// Sends the line of a reply.
pub(crate) fn send_answer<K: Sink>(
    place: u64,
    line: &CardLine,
    reply: &CardReply,
    sink: &mut K,
    kept: &mut Vec<u8>,
) -> Result<(), Status>
    ensures ok { OnOk result (Sends (K.held sink.old) (K.held sink.new) kept.old.items kept.new.items (answer_line place line.now reply.now)) }
    ensures err { OnErr result (Stops (K.held sink.old) (K.held sink.new) kept.old.items (answer_line place line.now reply.now)) }
    ensures error { IfErr result (IsWriteError (Rose (K.faults sink.old) (K.faults sink.new) ⊎ K.is_full sink.new)) }
    ensures counted { K.faults sink.old ≤ K.faults sink.new }
    // Less than a piece stays kept.
    ensures small { OnOk result (length kept.new.items < PIECE) }
{
    print_answer(place, line, reply, kept)?;
    flush(sink, kept, PIECE)
}

/// Sends the line of an object that `list` shows.
fn send_name<K: Sink>(name: &CardName, sink: &mut K, kept: &mut Vec<u8>) -> Result<(), Status>
    ensures ok { OnOk result (Sends (K.held sink.old) (K.held sink.new) kept.old.items kept.new.items (listed_line name.now.app name.now.id name.now.size)) }
    ensures err { OnErr result (Stops (K.held sink.old) (K.held sink.new) kept.old.items (listed_line name.now.app name.now.id name.now.size)) }
    ensures error { IfErr result (IsWriteError (Rose (K.faults sink.old) (K.faults sink.new) ⊎ K.is_full sink.new)) }
    ensures counted { K.faults sink.old ≤ K.faults sink.new }
    // Less than a piece stays kept.
    ensures small { OnOk result (length kept.new.items < PIECE) }
{
    print_listed(name.app, &name.id, name.size, kept)?;
    flush(sink, kept, PIECE)
}

/// Sends the line of a list, and those of the objects that it shows.
pub(crate) fn send_names<K: Sink>(
    place: u64,
    line: &CardLine,
    names: &[CardName],
    sink: &mut K,
    kept: &mut Vec<u8>,
) -> Result<(), Status>
    ensures ok { OnOk result (Sends (K.held sink.old) (K.held sink.new) kept.old.items kept.new.items (answer_line place line.now DoneReply ++ names_text names.now)) }
    ensures err { OnErr result (Stops (K.held sink.old) (K.held sink.new) kept.old.items (answer_line place line.now DoneReply ++ names_text names.now)) }
    ensures error { IfErr result (IsWriteError (Rose (K.faults sink.old) (K.faults sink.new) ⊎ K.is_full sink.new)) }
    ensures counted { K.faults sink.old ≤ K.faults sink.new }
    // Less than a piece stays kept.
    ensures small { OnOk result (length kept.new.items < PIECE) }
{
    send_answer(place, line, &CardReply::Done, sink, kept)?;
    for name in names {
        send_name(name, sink, kept)?;
    }
    Ok(())
}
