//! Writing text to a sink.

ghost use Rattle.std.specs.Prelude.{◌≡◌, ◌<◌, ◌≤◌, ◌⊎◌, ℕ, [], length, take, IsOk, OnOk, OnErr, IfErr};
ghost use Rattle.tee_ports.specs.Faults.{Rose};
ghost use Rattle.tee_ports.specs.Streams.{Appends};
ghost use Rattle.script_runner.specs.Sending.{Sends, Stops, IsWriteError};

use crate::status::Status;
use tee_ports::Sink;

/// The sink took no more: it failed, or it is full.
#[derive(Clone, Copy, Debug, PartialEq, Eq)]
pub struct WriteFault;

/// Puts all these bytes. A fault comes only where the sink failed or is full, and then a front of them was put.
pub fn put_all<K: Sink>(sink: &mut K, bytes: &[u8]) -> Result<(), WriteFault>
    ensures ok { OnOk result (Appends (K.held sink.old) (K.held sink.new) bytes.now) }
    ensures put { (n : ℕ) × Appends (K.held sink.old) (K.held sink.new) (take n bytes.now) }
    ensures fault { OnErr result (Rose (K.faults sink.old) (K.faults sink.new) ⊎ K.is_full sink.new) }
    ensures counted { K.faults sink.old ≤ K.faults sink.new }
{
    let mut at = 0;
    while at < bytes.len() {
        match sink.put(&bytes[at..]) {
            Ok(0) => return Err(WriteFault),
            Ok(n) => at += n,
            Err(_) => return Err(WriteFault),
        }
    }
    Ok(())
}

/// How much text is kept before it is put.
pub const PIECE: usize = 65_536;

/// Puts the text that is kept, where there is enough of it or this is the last.
pub fn flush<K: Sink>(sink: &mut K, kept: &mut Vec<u8>, at_least: usize) -> Result<(), Status>
    ensures ok { OnOk result (Sends (K.held sink.old) (K.held sink.new) kept.old.items kept.new.items []) }
    // Less than is asked for stays, and nothing is put; else nothing is kept.
    ensures few { length kept.old.items < at_least
        → IsOk result × (sink.new ≡ sink.old) × (kept.new.items ≡ kept.old.items) }
    ensures all { OnOk result (at_least ≤ length kept.old.items → kept.new.items ≡ []) }
    ensures small { OnOk result (1 ≤ at_least → length kept.new.items < at_least) }
    ensures err { OnErr result (Stops (K.held sink.old) (K.held sink.new) kept.old.items []) }
    // No memory is taken.
    ensures fault { IfErr result (λ status. status ≡ Status.WriteFault) }
    ensures error { IfErr result (IsWriteError (Rose (K.faults sink.old) (K.faults sink.new) ⊎ K.is_full sink.new)) }
    ensures counted { K.faults sink.old ≤ K.faults sink.new }
{
    if kept.len() < at_least {
        return Ok(());
    }
    match put_all(sink, kept.as_slice()) {
        Ok(()) => {
            kept.clear();
            Ok(())
        }
        Err(WriteFault) => Err(Status::WriteFault),
    }
}
