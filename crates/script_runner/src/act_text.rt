//! Sending the text of an act that was done.

ghost use Rattle.std.specs.Prelude.{◌⊎◌, ◌≤◌, ◌++◌, IfErr, IfOk, OnErr, OnOk};
ghost use Rattle.script_text.specs.declared.script.Control.TheVariants.{List as ListControl};
ghost use Rattle.tee_ports.specs.Faults.{Rose};
ghost use Rattle.script_text.specs.Text.{control_line, events_text, phase_line};
ghost use Rattle.script_runner.specs.Sending.{IsWriteError, Sends, Stops};
ghost use Rattle.script_runner.specs.Prints.{IsCutOff, IsSent, PrintsExcess, PrintsLines};
ghost use Rattle.script_runner.specs.RefusedLines.{refused_lines};

use crate::run_state::{Run, RunEnd};
use crate::{PhaseText, Status, flush, send_control, send_lines, send_phase};
use script_text::{Control, Script};
use tee_ports::Sink;

/// Sends the line of a control.
pub(crate) fn print_control_act<K: Sink, F: Drop, R: Drop>(
    control: &Control,
    run: Run<F, R>,
    sink: &mut K,
) -> Result<Run<F, R>, RunEnd<F, R>>
    ensures ok { IfOk result (IsSent (K.held sink.old) (K.held sink.new) (control_line control.now) run) }
    ensures err { IfErr result (IsCutOff (Rose (K.faults sink.old) (K.faults sink.new) ⊎ K.is_full sink.new) (K.held sink.old) (K.held sink.new)
        (control_line control.now) run) }
    ensures counted { K.faults sink.old ≤ K.faults sink.new }
{
    let mut run = run;
    match send_control(control, sink, &mut run.kept) {
        Ok(()) => Ok(run),
        Err(status) => Err(RunEnd {
            status,
            bench: run.bench,
        }),
    }
}

/// Sends the line of a list, and the lines that it shows.
fn send_list<K: Sink>(lines: &[u8], sink: &mut K, kept: &mut Vec<u8>) -> Result<(), Status>
    ensures ok { OnOk result (Sends (K.held sink.old) (K.held sink.new) kept.old.items kept.new.items (control_line ListControl ++ lines.now)) }
    ensures err { OnErr result (Stops (K.held sink.old) (K.held sink.new) kept.old.items (control_line ListControl ++ lines.now)) }
    ensures error { IfErr result (IsWriteError (Rose (K.faults sink.old) (K.faults sink.new) ⊎ K.is_full sink.new)) }
    ensures counted { K.faults sink.old ≤ K.faults sink.new }
{
    send_control(&Control::List, sink, kept)?;
    send_lines(lines, sink, kept)
}

/// Sends the line of a list, and the lines that it shows.
pub(crate) fn print_list<K: Sink, F: Drop, R: Drop>(
    lines: &[u8],
    run: Run<F, R>,
    sink: &mut K,
) -> Result<Run<F, R>, RunEnd<F, R>>
    ensures ok { IfOk result (IsSent (K.held sink.old) (K.held sink.new) (control_line ListControl ++ lines.now) run) }
    ensures err { IfErr result (IsCutOff (Rose (K.faults sink.old) (K.faults sink.new) ⊎ K.is_full sink.new) (K.held sink.old) (K.held sink.new)
        (control_line ListControl ++ lines.now) run) }
    ensures counted { K.faults sink.old ≤ K.faults sink.new }
{
    let mut run = run;
    match send_list(lines, sink, &mut run.kept) {
        Ok(()) => Ok(run),
        Err(status) => Err(RunEnd {
            status,
            bench: run.bench,
        }),
    }
}

/// Sends the text of a phase.
pub(crate) fn print_phase_act<K: Sink, F: Drop, R: Drop>(
    script: &Script,
    phase: &PhaseText,
    run: Run<F, R>,
    sink: &mut K,
) -> Result<Run<F, R>, RunEnd<F, R>>
    ensures ok { IfOk result (IsSent (K.held sink.old) (K.held sink.new) (phase_line phase.now.number phase.now.mode phase.now.objects ++ events_text script.now 0 phase.now.history.now.events ++ refused_lines script.now phase.now.calls.now phase.now.refused.now) run) }
    ensures err { IfErr result (IsCutOff (Rose (K.faults sink.old) (K.faults sink.new) ⊎ K.is_full sink.new) (K.held sink.old) (K.held sink.new)
        (phase_line phase.now.number phase.now.mode phase.now.objects ++ events_text script.now 0 phase.now.history.now.events ++ refused_lines script.now phase.now.calls.now phase.now.refused.now) run) }
    ensures counted { K.faults sink.old ≤ K.faults sink.new }
{
    let mut run = run;
    match send_phase(script, phase, sink, &mut run.kept) {
        Ok(()) => Ok(run),
        Err(status) => Err(RunEnd {
            status,
            bench: run.bench,
        }),
    }
}

/// Puts the last lines of a run, and says how it ends.
pub(crate) fn print_last_lines<K: Sink>(lines: Vec<u8>, sink: &mut K) -> Status
    ensures prints { PrintsLines (Rose (K.faults sink.old) (K.faults sink.new) ⊎ K.is_full sink.new) (K.held sink.old) (K.held sink.new) lines.items result }
    ensures counted { K.faults sink.old ≤ K.faults sink.new }
{
    let mut kept = lines;
    match flush(sink, &mut kept, 0) {
        Ok(()) => Status::Done,
        Err(status) => status,
    }
}

/// Puts the text so far, where the quotas of the next phase commit so many objects, and says how the run ends.
pub(crate) fn print_excess<K: Sink>(sum: u32, sink: &mut K, lines: Vec<u8>) -> Status
    ensures prints { PrintsExcess (Rose (K.faults sink.old) (K.faults sink.new) ⊎ K.is_full sink.new) (K.held sink.old) (K.held sink.new) lines.items sum result }
    ensures counted { K.faults sink.old ≤ K.faults sink.new }
{
    let mut kept = lines;
    match flush(sink, &mut kept, 0) {
        Ok(()) => Status::OverCommitted(sum),
        Err(status) => status,
    }
}
