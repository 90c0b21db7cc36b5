// A sink in memory.
ghost use Rattle.std.specs.Prelude.{◌≡◌, ◌↔◌, [], ◌-◌, ◌<◌, ◌≤◌, ◌^◌, length, min, Some, IsErr, IfOk, IfErr, Contains};
ghost use Rattle.tee_ports.specs.Faults.{next_count};
ghost use Rattle.tee_ports.specs.MemSink.{sink_after};

use crate::failed::count_fault;
use crate::{Failed, NoMemory, Sink};
use std::alloc::Global;
use std::marker::Model;

/// Room in memory for a number of bytes, with chosen calls that fail.
///
/// All its memory is taken by `new`. Calls of `put` are counted from 1, up to `u64::MAX`, where the count stands still.
#[derive(Drop)]
pub struct MemSink {
    bytes: Vec<u8>,
    room: usize,
    failing: Vec<u64>,
    calls: u64,
    faults: u64,
}

impl Model for MemSink {
    ghost use Rattle.std.specs.Prelude.{◌≤◌, vec_len, vec_capacity};
    ghost use Rattle.tee_ports.specs.MemSink.{SinkState};

    ghost Value = { SinkState };

    ghost view = { λ s. record {
      held = s.bytes.items;
      room = s.room;
      failing = s.failing.items;
      calls = s.calls;
      faults = s.faults;
    } };

    ghost invariant = { λ s. (vec_len s.bytes ≤ s.room) × (s.room ≤ vec_capacity s.bytes) };
}

impl MemSink {
    /// A sink with room for this many bytes. The calls of `put` whose numbers `failing` lists fail, and no others.
    pub fn new(alloc: Global, room: usize, failing: &[u64]) -> Result<MemSink, NoMemory>
        ensures { IfOk result
            (λ s. s ≡ record { held = []; room = room; failing = failing.now; calls = 0; faults = 0 }) }
    {
        Ok(MemSink {
            bytes: Vec::with_capacity(alloc, room)?,
            room,
            failing: Vec::from_slice(alloc, failing)?,
            calls: 0,
            faults: 0,
        })
    }

    /// The bytes that were put so far.
    pub fn bytes(&self) -> &[u8]
        ensures { result.now ≡ self.now.held }
    {
        self.bytes.as_slice()
    }
}

impl Sink for MemSink {
    ghost held = { λ s. Some s.held };

    ghost is_full = { λ s. length s.held ≡ s.room };

    ghost faults = { λ s. s.faults };

    fn put(&mut self, from: &[u8]) -> Result<usize, Failed>
        // Which calls fail, how many bytes the others take, and what each leaves.
        ensures fails { IsErr result ↔ Contains self.old.failing (next_count self.old.calls) }
        ensures taken { IfOk result
            (λ n. n ≡ min (length from.now) (self.old.room - length self.old.held)) }
        ensures after { self.new ≡ sink_after self.old from.now result }
        ensures has_room { length self.new.held ≤ self.new.room }
        ensures carried { IfErr result (λ e. e.count ≡ self.new.faults) }
        ensures counted { self.old.faults ≤ self.new.faults }
        ensures fits { self.new.faults < 2 ^ 64 }
    {
        self.calls = self.calls.saturating_add(1);
        if self.failing.contains(&self.calls) {
            return Err(count_fault(&mut self.faults));
        }
        let count = from.len().min(self.room - self.bytes.len());
        self.bytes.extend_from_slice(&from[..count]).unwrap();
        Ok(count)
    }
}
