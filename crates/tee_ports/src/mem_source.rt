// A source in memory.
ghost use Rattle.std.specs.Prelude.{◌≡◌, ◌↔◌, [], ◌++◌, ◌<◌, ◌≤◌, ◌^◌, length, take, drop, min, Some, IsErr, IfOk, IfErr, MatchResult, Contains};
ghost use Rattle.std.proofs.Common.{rules};
ghost use Rattle.tee_ports.specs.Faults.{next_count};
ghost use Rattle.tee_ports.specs.MemSource.{source_after};

use crate::failed::count_fault;
use crate::{Failed, NoMemory, Source};
use std::alloc::Global;
use std::marker::Model;

/// Bytes in memory, given front to back, with chosen calls that fail.
///
/// Calls of `next` are counted from 1, up to `u64::MAX`, where the count stands still.
#[derive(Drop)]
pub struct MemSource {
    bytes: Vec<u8>,
    given: usize,
    failing: Vec<u64>,
    calls: u64,
    faults: u64,
}

impl Model for MemSource {
    ghost use Rattle.std.specs.Prelude.{◌≤◌, drop, vec_len};
    ghost use Rattle.tee_ports.specs.MemSource.{SourceState};

    ghost Value = { SourceState };

    ghost view = { λ s. record {
      left = drop s.given s.bytes.items;
      failing = s.failing.items;
      calls = s.calls;
      faults = s.faults;
    } };

    ghost invariant = { λ s. s.given ≤ vec_len s.bytes };
}

impl MemSource {
    /// A source of these bytes. The calls of `next` whose numbers `failing` lists fail, and no others.
    pub fn new(alloc: Global, bytes: &[u8], failing: &[u64]) -> Result<MemSource, NoMemory>
        ensures { IfOk result
            (λ s. s ≡ record { left = bytes.now; failing = failing.now; calls = 0; faults = 0 }) }
    {
        Ok(MemSource {
            bytes: Vec::from_slice(alloc, bytes)?,
            given: 0,
            failing: Vec::from_slice(alloc, failing)?,
            calls: 0,
            faults: 0,
        })
    }
}

impl Source for MemSource {
    ghost left = { λ s. Some s.left };

    ghost has_ended = { λ s. s.left ≡ [] };

    ghost faults = { λ s. s.faults };

    fn next(&mut self, into: &mut [u8]) -> Result<usize, Failed>
        // Which calls fail, how many bytes the others give, and what each leaves.
        ensures fails { IsErr result ↔ Contains self.old.failing (next_count self.old.calls) }
        ensures given { IfOk result (λ n. n ≡ min (length into.old) (length self.old.left)) }
        ensures buffer { MatchResult result
            (λ n. into.new ≡ take n self.old.left ++ drop n into.old)
            (λ _. into.new ≡ into.old) }
        ensures after { self.new ≡ source_after self.old result }
        ensures carried { IfErr result (λ e. e.count ≡ self.new.faults) }
        ensures counted { self.old.faults ≤ self.new.faults }
        ensures fits { self.new.faults < 2 ^ 64 }
    {
        self.calls = self.calls.saturating_add(1);
        if self.failing.contains(&self.calls) {
            return Err(count_fault(&mut self.faults));
        }
        let rest = &self.bytes[self.given..];
        let count = into.len().min(rest.len());
        into[..count].copy_from_slice(&rest[..count]);
        self.given += count;
        Ok(count)
    }

    ghost told_end = { λ s bytes told. Prim.search rules };
}
