//! Writing the text of phases and controls.

ghost use Rattle.std.specs.Prelude.{◌≡◌, ◌≤◌, ◌⊎◌, ◌++◌, ◌<◌, length, slice_get, Some, OnOk, OnErr, IfErr};
ghost use Rattle.tee_ports.specs.Faults.{Rose};
ghost use Rattle.script_text.specs.Text.{event_text, events_text, phase_line, control_line};
ghost use Rattle.script_runner.specs.RefusedLines.{refused_lines};
ghost use Rattle.script_runner.specs.Sending.{Sends, Stops, IsWriteError};

use crate::refused_lines::send_refused;
use crate::status::Status;
use crate::text_sink::{PIECE, flush};
use run_acts::RefusedCall;
use script_text::{Control, Mode, Script, Step, print_control, print_event, print_phase};
use store_model::{Event, History};
use tee_ports::Sink;

/// What is told of a phase.
#[derive(Clone, Copy, Drop)]
pub struct PhaseText<'a> {
    /// The phase's number.
    pub number: u64,
    /// How its calls were served.
    pub mode: Mode,
    /// How many objects there were as it opened.
    pub objects: u16,
    /// Its events.
    pub history: &'a History,
    /// Its calls.
    pub calls: &'a [Step],
    /// Those that were refused under quotas.
    pub refused: &'a [RefusedCall],
}

/// Sends the line of one event.
fn send_event<K: Sink>(
    script: &Script,
    place: u64,
    event: &Event,
    sink: &mut K,
    kept: &mut Vec<u8>,
) -> Result<(), Status>
    ensures ok { OnOk result (Sends (K.held sink.old) (K.held sink.new) kept.old.items kept.new.items (event_text script.now place event.now)) }
    ensures err { OnErr result (Stops (K.held sink.old) (K.held sink.new) kept.old.items (event_text script.now place event.now)) }
    ensures error { IfErr result (IsWriteError (Rose (K.faults sink.old) (K.faults sink.new) ⊎ K.is_full sink.new)) }
    ensures counted { K.faults sink.old ≤ K.faults sink.new }
    // Less than a piece stays kept.
    ensures small { OnOk result (length kept.new.items < PIECE) }
{
    print_event(place, script, event, kept)?;
    flush(sink, kept, PIECE)
}

/// Sends the line before a phase's history.
fn send_header<K: Sink>(phase: &PhaseText, sink: &mut K, kept: &mut Vec<u8>) -> Result<(), Status>
    ensures ok { OnOk result (Sends (K.held sink.old) (K.held sink.new) kept.old.items kept.new.items (phase_line phase.now.number phase.now.mode phase.now.objects)) }
    ensures err { OnErr result (Stops (K.held sink.old) (K.held sink.new) kept.old.items (phase_line phase.now.number phase.now.mode phase.now.objects)) }
    ensures error { IfErr result (IsWriteError (Rose (K.faults sink.old) (K.faults sink.new) ⊎ K.is_full sink.new)) }
    ensures counted { K.faults sink.old ≤ K.faults sink.new }
    // Less than a piece stays kept.
    ensures small { OnOk result (length kept.new.items < PIECE) }
{
    print_phase(phase.number, phase.mode, phase.objects, kept)?;
    flush(sink, kept, PIECE)
}

/// Sends the line before a phase's history, and its events.
fn send_history<K: Sink>(
    script: &Script,
    phase: &PhaseText,
    sink: &mut K,
    kept: &mut Vec<u8>,
) -> Result<(), Status>
    ensures ok { OnOk result (Sends (K.held sink.old) (K.held sink.new) kept.old.items kept.new.items
        (phase_line phase.now.number phase.now.mode phase.now.objects ++ events_text script.now 0 phase.now.history.now.events)) }
    ensures err { OnErr result (Stops (K.held sink.old) (K.held sink.new) kept.old.items
        (phase_line phase.now.number phase.now.mode phase.now.objects ++ events_text script.now 0 phase.now.history.now.events)) }
    ensures error { IfErr result (IsWriteError (Rose (K.faults sink.old) (K.faults sink.new) ⊎ K.is_full sink.new)) }
    ensures counted { K.faults sink.old ≤ K.faults sink.new }
    // Less than a piece stays kept.
    ensures small { OnOk result (length kept.new.items < PIECE) }
{
    send_header(phase, sink, kept)?;
    for place in 0..phase.history.len() {
        let event = event_at(phase.history, place);
        send_event(script, place, event, sink, kept)?;
    }
    Ok(())
}

/// Sends the text of a phase: below its events stand the lines of its calls that were refused under quotas.
pub fn send_phase<K: Sink>(
    script: &Script,
    phase: &PhaseText,
    sink: &mut K,
    kept: &mut Vec<u8>,
) -> Result<(), Status>
    ensures ok { OnOk result (Sends (K.held sink.old) (K.held sink.new) kept.old.items kept.new.items
        (phase_line phase.now.number phase.now.mode phase.now.objects ++ events_text script.now 0 phase.now.history.now.events ++ refused_lines script.now phase.now.calls.now phase.now.refused.now)) }
    ensures err { OnErr result (Stops (K.held sink.old) (K.held sink.new) kept.old.items
        (phase_line phase.now.number phase.now.mode phase.now.objects ++ events_text script.now 0 phase.now.history.now.events ++ refused_lines script.now phase.now.calls.now phase.now.refused.now)) }
    ensures error { IfErr result (IsWriteError (Rose (K.faults sink.old) (K.faults sink.new) ⊎ K.is_full sink.new)) }
    ensures counted { K.faults sink.old ≤ K.faults sink.new }
    // Less than a piece stays kept.
    ensures small { OnOk result (length kept.new.items < PIECE) }
{
    send_history(script, phase, sink, kept)?;
    send_refused(script, phase.calls, phase.refused, sink, kept)
}

/// Sends the line of a control that is done.
pub fn send_control<K: Sink>(
    control: &Control,
    sink: &mut K,
    kept: &mut Vec<u8>,
) -> Result<(), Status>
    ensures ok { OnOk result (Sends (K.held sink.old) (K.held sink.new) kept.old.items kept.new.items (control_line control.now)) }
    ensures err { OnErr result (Stops (K.held sink.old) (K.held sink.new) kept.old.items (control_line control.now)) }
    ensures error { IfErr result (IsWriteError (Rose (K.faults sink.old) (K.faults sink.new) ⊎ K.is_full sink.new)) }
    ensures counted { K.faults sink.old ≤ K.faults sink.new }
    // Less than a piece stays kept.
    ensures small { OnOk result (length kept.new.items < PIECE) }
{
    print_control(control, kept)?;
    flush(sink, kept, PIECE)
}

/// Sends lines that were written before.
pub fn send_lines<K: Sink>(lines: &[u8], sink: &mut K, kept: &mut Vec<u8>) -> Result<(), Status>
    ensures ok { OnOk result (Sends (K.held sink.old) (K.held sink.new) kept.old.items kept.new.items lines.now) }
    ensures err { OnErr result (Stops (K.held sink.old) (K.held sink.new) kept.old.items lines.now) }
    ensures error { IfErr result (IsWriteError (Rose (K.faults sink.old) (K.faults sink.new) ⊎ K.is_full sink.new)) }
    ensures counted { K.faults sink.old ≤ K.faults sink.new }
    // Less than a piece stays kept.
    ensures small { OnOk result (length kept.new.items < PIECE) }
{
    kept.extend_from_slice(lines)?;
    flush(sink, kept, PIECE)
}

/// The event at that place.
fn event_at(history: &History, place: u64) -> &Event
    requires { place < length history.now.events }
    ensures { slice_get history.now.events place ≡ Some result.now }
{
    history.get(place).unwrap()
}
