// A source over a reader, as standard input.
ghost use Rattle.std.specs.Prelude.{◌≡◌, ◌<◌, ◌≤◌, ◌^◌, length, None, IfOk, IfErr, IsTrue, is_ok, if◌then◌else◌, false};
ghost use Rattle.std.proofs.Common.{rules};
ghost use Rattle.std.specs.Io.{ReadsAtMost};
ghost use Rattle.std.specs.Io.KnownBytes.{ReadConsumes};
ghost use Rattle.tee_ports.specs.Faults.{next_count};

use crate::failed::count_fault;
use crate::{Failed, Source};
use std::io;
use std::io::{ErrorKind, Read};
use std::marker::Model;

/// The bytes of a reader, as they come: `StdSource::new(rt.reader())` is standard input.
///
/// A read that fails counts a fault, and the next call reads again. One that a signal interrupts is made again at once,
/// and no fault. A read that gives no byte is the end, after which nothing is read. Bytes go straight from the reader
/// into the lent buffer, so a caller with large buffers makes few reads.
#[derive(Drop)]
pub struct StdSource<R: Read> {
    reader: R,
    ended: bool,
    faults: u64,
}

impl<R: Read> Model for StdSource<R> {
    ghost use Rattle.std.specs.Prelude.{◌<◌, ◌^◌, IsTrue};
    ghost use Rattle.std.specs.Io.KnownBytes.{IsAtEnd};
    ghost use Rattle.tee_ports.specs.StdStreams.{StreamState};

    ghost Value = { StreamState R };

    ghost view = { λ s. record { stream = s.reader; at_end = s.ended; faults = s.faults } };

    ghost invariant = { λ s. (s.faults < 2 ^ 64) × (IsTrue s.ended → IsAtEnd (R.remaining s.reader)) };
}

impl<R: Read + Drop> StdSource<R> {
    /// A source of what this reader gives.
    pub fn new(reader: R) -> StdSource<R>
        ensures { result ≡ record { stream = reader; at_end = false; faults = 0 } }
    {
        StdSource {
            reader,
            ended: false,
            faults: 0,
        }
    }
}

impl<R: Read + Drop> Source for StdSource<R> {
    ghost left = { λ _. None };

    ghost has_ended = { λ s. IsTrue s.at_end };

    ghost faults = { λ s. s.faults };

    fn next(&mut self, into: &mut [u8]) -> Result<usize, Failed>
        // The bytes are the reader's, and nothing is read past its end.
        ensures read { ReadConsumes (R.remaining self.old.stream) (R.remaining self.new.stream)
            result into.new }
        ensures after_end { IsTrue self.old.at_end → (result ≡ Ok 0) × (self.new ≡ self.old) }
        ensures ends { IsTrue self.new.at_end → result ≡ Ok 0 }
        ensures counts { self.new.faults ≡
            (if is_ok result then self.old.faults else next_count self.old.faults) }

        // As every source.
        ensures within { IfOk result (λ n. n ≤ length into.old) }
        ensures end { IfOk result (λ n. n ≡ 0 → 0 < length into.old → IsTrue self.new.at_end) }
        ensures carried { IfErr result (λ e. e.count ≡ self.new.faults) }
        ensures counted { self.old.faults ≤ self.new.faults }
        ensures fits { self.new.faults < 2 ^ 64 }
    {
        if self.ended || into.is_empty() {
            return Ok(0);
        }
        match read_some(&mut self.reader, into) {
            Ok(count) => {
                self.ended = count == 0;
                Ok(count)
            }
            Err(_) => Err(count_fault(&mut self.faults)),
        }
    }

    ghost told_end = { λ s bytes told. Prim.search rules };
}

// One read, made again where a signal interrupts it.
fn read_some<R: Read>(reader: &mut R, into: &mut [u8]) -> io::Result<usize>
    ensures bound { ReadsAtMost result into.new }
    ensures bytes { ReadConsumes (R.remaining reader.old) (R.remaining reader.new) result into.new }
{
    for _ in 0..u64::MAX {
        match reader.read(into) {
            Err(e) if e.kind() == ErrorKind::Interrupted => {}
            answer => return answer,
        }
    }
    Err(io::Error::from(ErrorKind::Interrupted))
}
