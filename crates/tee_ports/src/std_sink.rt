// A sink over a writer, as standard output.
ghost use Rattle.std.specs.Prelude.{◌≡◌, ◌<◌, ◌≤◌, ◌^◌, length, take, None, IfOk, IfErr, IsTrue, is_ok, if◌then◌else◌, false};
ghost use Rattle.std.specs.Io.{WritesAtMost};
ghost use Rattle.std.specs.Io.KnownBytes.{Appends, Keeps, WriteAppends};
ghost use Rattle.tee_ports.specs.Faults.{next_count};

use crate::failed::count_fault;
use crate::{Failed, Sink};
use std::io;
use std::io::{ErrorKind, Write};
use std::marker::Model;

/// A writer that takes bytes: `StdSink::new(io::writer(&rt))` is standard output.
///
/// Each call makes one write of the piece, and a flush, so the bytes that it took have left the writer. A write or a
/// flush that fails counts a fault, and the next call writes again; where it was the flush, the writer may hold bytes of
/// that piece. A write or a flush that a signal interrupts is made again at once, and no fault. A write that takes no
/// byte of a piece says that the sink is full, after which nothing is written.
#[derive(Drop)]
pub struct StdSink<W: Write> {
    writer: W,
    full: bool,
    faults: u64,
}

impl<W: Write> Model for StdSink<W> {
    ghost use Rattle.std.specs.Prelude.{◌<◌, ◌^◌};
    ghost use Rattle.tee_ports.specs.StdStreams.{StreamState};

    ghost Value = { StreamState W };

    ghost view = { λ s. record { stream = s.writer; at_end = s.full; faults = s.faults } };

    ghost invariant = { λ s. s.faults < 2 ^ 64 };
}

impl<W: Write + Drop> StdSink<W> {
    /// A sink whose bytes this writer takes.
    pub fn new(writer: W) -> StdSink<W>
        ensures { result ≡ record { stream = writer; at_end = false; faults = 0 } }
    {
        StdSink {
            writer,
            full: false,
            faults: 0,
        }
    }
}

impl<W: Write + Drop> Sink for StdSink<W> {
    ghost held = { λ _. None };

    ghost is_full = { λ s. IsTrue s.at_end };

    ghost faults = { λ s. s.faults };

    fn put(&mut self, from: &[u8]) -> Result<usize, Failed>
        // The bytes reach the writer, and nothing is written once it is full.
        ensures written { IfOk result (λ n. Appends
            (W.contents self.old.stream) (W.contents self.new.stream) (take n from.now)) }
        ensures after_full { IsTrue self.old.at_end → (result ≡ Ok 0) × (self.new ≡ self.old) }
        ensures fills { IsTrue self.new.at_end → result ≡ Ok 0 }
        ensures counts { self.new.faults ≡
            (if is_ok result then self.old.faults else next_count self.old.faults) }

        // As every sink.
        ensures within { IfOk result (λ n. n ≤ length from.now) }
        ensures full_only { IfOk result (λ n. n ≡ 0 → 0 < length from.now → IsTrue self.new.at_end) }
        ensures carried { IfErr result (λ e. e.count ≡ self.new.faults) }
        ensures counted { self.old.faults ≤ self.new.faults }
        ensures fits { self.new.faults < 2 ^ 64 }
    {
        if self.full || from.is_empty() {
            return Ok(0);
        }
        match write_some(&mut self.writer, from) {
            Ok(count) => {
                self.full = count == 0;
                Ok(count)
            }
            Err(_) => Err(count_fault(&mut self.faults)),
        }
    }
}

// One write, and a flush.
fn write_some<W: Write>(writer: &mut W, from: &[u8]) -> io::Result<usize>
    ensures bound { WritesAtMost result from.now }
    ensures bytes { IfOk result
        (λ n. Appends (W.contents writer.old) (W.contents writer.new) (take n from.now)) }
{
    let count = write_once(writer, from)?;
    flush(writer)?;
    Ok(count)
}

// One write, made again where a signal interrupts it.
fn write_once<W: Write>(writer: &mut W, from: &[u8]) -> io::Result<usize>
    ensures bound { WritesAtMost result from.now }
    ensures bytes { WriteAppends (W.contents writer.old) (W.contents writer.new) result from.now }
{
    for _ in 0..u64::MAX {
        match writer.write(from) {
            Err(e) if e.kind() == ErrorKind::Interrupted => {}
            answer => return answer,
        }
    }
    Err(io::Error::from(ErrorKind::Interrupted))
}

// A flush, made again where a signal interrupts it.
fn flush<W: Write>(writer: &mut W) -> io::Result<()>
    ensures { Keeps (W.contents writer.old) (W.contents writer.new) }
{
    for _ in 0..u64::MAX {
        match writer.flush() {
            Err(e) if e.kind() == ErrorKind::Interrupted => {}
            answer => return answer,
        }
    }
    Err(io::Error::from(ErrorKind::Interrupted))
}
