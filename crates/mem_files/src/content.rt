// What a file in memory holds: the bytes that a read gives, those that are settled, and where the two may differ.
ghost use Rattle.std.specs.Prelude.{◌≡◌, ◌+◌, ◌-◌, ◌<◌, ◌≤◌, ◌^◌, ◌++◌, [], ◌∷◌, length, drop, min, max, true, IsSome, IfOk, OnOk, OnErr, ◌==◌, if◌then◌else◌};
ghost use Rattle.std.proofs.Props.{props};
ghost use Rattle.disk_model.specs.Bytes.{AreBytes, after_mask, after_write, after_resize};
ghost use Rattle.disk_model.specs.State.{BytesAgree, spans_of};
ghost use Rattle.tee_ports.specs.Files.{ReadsAt};
ghost use Rattle.mem_files.specs.Crash.{crash_of};
ghost use Rattle.mem_files.specs.Held.{settled_bytes, change_of, held_as, held_anew};

use crate::bytes::{
    copy_from, has_bits, lay_over, lay_over_settled, resize, settle_changes, write_over,
};
use crate::crash::leave_image;
use crate::taint::Taint;
use disk_model::{Change, Span};
use std::alloc::Global;
use tee_ports::NoMemory;

/// The bytes of a file in memory.
#[derive(Drop)]
pub struct Content {
    bytes: Vec<u8>,
    // The settled bytes, where they may differ from `bytes`. A sync brings them up to date in place.
    settled: Option<Vec<u8>>,
    trail: Vec<Change>,
    pending_from: u64,
    honest: bool,
    ghost are_bytes: { AreBytes bytes.items } by { Prim.hlevel props },
    ghost agree: { BytesAgree (settled_bytes settled bytes.items) bytes.items trail.items pending_from true } by { Prim.hlevel props },
}

impl Content {
    ghost use Rattle.mem_files.specs.Contents.{held, stored_in, Rest};
    ghost use Rattle.mem_files.specs.Taints.{taint_of, struck_by};
    ghost use Rattle.disk_model.specs.Controls.{strike};

    /// No bytes, all of them settled.
    pub fn new(alloc: Global) -> Content
        ensures { held result ≡ record { settled = []; reads = []; trail = []; pending_from = 0; honest = true } }
    {
        Content {
            bytes: Vec::new(alloc),
            settled: None,
            trail: Vec::new(alloc),
            pending_from: 0,
            honest: true,
        }
    }

    /// How many bytes a read gives.
    pub fn len(&self) -> usize
        ensures { result ≡ length (held self.now).reads }
    {
        self.bytes.len()
    }

    /// The bytes that a read gives.
    pub fn copy(&self, alloc: Global) -> Result<Vec<u8>, NoMemory>
        ensures { IfOk result (λ copy. copy.items ≡ (held self.now).reads) }
    {
        self.bytes.to_vec(alloc)
    }

    /// Copies the bytes from the place `at` on into the front of `into`, and says how many there were.
    pub fn read(&self, at: usize, into: &mut [u8]) -> usize
        ensures { ReadsAt (held self.now).reads at into.old result into.new }
    {
        copy_from(&self.bytes, at, into)
    }

    /// Writes the bytes from the place `at` on, with zero between the old end and that place.
    pub fn write(&mut self, alloc: Global, at: usize, from: &[u8]) -> Result<(), NoMemory>
        requires { at + length from.now < 2 ^ 32 }
        ensures ok { OnOk result (held self.new ≡ record (held self.old) {
          reads = after_write (held self.old).reads at from.now;
          trail = (held self.old).trail ++ change_of (held self.old).pending_from
              (min at (length (held self.old).reads)) (at + length from.now) ∷ [];
        }) }
        ensures err { OnErr result (held self.new ≡ held self.old) }
    {
        self.keep_settled(alloc)?;
        self.trail.reserve(1)?;
        let begin = at.min(self.bytes.len());
        write_over(&mut self.bytes, at, from)?;
        self.trail
            .push_reserved(change(self.pending_from, begin, at + from.len()));
        Ok(())
    }

    /// Sets the number of bytes, with zero behind the old end.
    pub fn resize(&mut self, alloc: Global, size: usize) -> Result<(), NoMemory>
        requires { size < 2 ^ 32 }
        ensures ok { OnOk result (held self.new ≡ record (held self.old) {
          reads = after_resize (held self.old).reads size;
          trail = (held self.old).trail ++ change_of (held self.old).pending_from
              (min size (length (held self.old).reads)) (max size (length (held self.old).reads)) ∷ [];
        }) }
        ensures err { OnErr result (held self.new ≡ held self.old) }
    {
        self.keep_settled(alloc)?;
        self.trail.reserve(1)?;
        let end = self.bytes.len();
        resize(&mut self.bytes, size)?;
        self.trail
            .push_reserved(change(self.pending_from, size.min(end), size.max(end)));
        Ok(())
    }

    // Keeps the settled bytes apart, before the others change.
    fn keep_settled(&mut self, alloc: Global) -> Result<(), NoMemory>
        ensures same { held self.new ≡ held self.old }
        ensures apart { OnOk result (IsSome self.new.settled) }
    {
        if self.settled.is_none() {
            self.settled = Some(self.bytes.to_vec(alloc)?);
        }
        Ok(())
    }

    /// Settles the bytes that a read gives. In the trail a sync is an entry without a place.
    pub fn sync(&mut self) -> Result<(), NoMemory>
        ensures ok { OnOk result (held self.new ≡ record (held self.old) {
          settled = (held self.old).reads;
          trail = (held self.old).trail ++ change_of (held self.old).pending_from 0 0 ∷ [];
          pending_from = length (held self.old).trail + 1;
        }) }
        ensures err { OnErr result (held self.new ≡ held self.old) }
    {
        self.trail.reserve(1)?;
        settle_changes(
            &mut self.settled,
            &self.bytes,
            &self.trail[self.pending_from as usize..],
        )?;
        self.trail.push_reserved(change(self.pending_from, 0, 0));
        self.pending_from = self.trail.len() as u64;
        Ok(())
    }

    // The settled bytes.
    fn settled(&self) -> &[u8]
        ensures { result.now ≡ (held self.now).settled }
    {
        match &self.settled {
            Some(settled) => settled.as_slice(),
            None => self.bytes.as_slice(),
        }
    }

    /// Lays each mask for this call over the settled bytes and over those that a read gives. Where that changes one, the
    /// file is not honest from then on.
    pub fn strike_all(&mut self, taints: &[Taint], call: u64)
        ensures struck { stored_in self.new ≡ struck_by (stored_in self.old) taints.now call }
        ensures rest { Rest self.old self.new }
    {
        for taint in taints {
            self.strike_at(taint, call);
        }
    }

    fn strike_at(&mut self, taint: &Taint, call: u64)
        ensures struck { stored_in self.new ≡ (if taint.now.call == call
            then strike (stored_in self.old) (taint_of taint.now) else stored_in self.old) }
        ensures rest { Rest self.old self.new }
    {
        if taint.call == call {
            self.strike(taint);
        }
    }

    fn strike(&mut self, taint: &Taint)
        ensures struck { stored_in self.new ≡ strike (stored_in self.old) (taint_of taint.now) }
        ensures rest { Rest self.old self.new }
    {
        let end = self.bytes.len().max(self.settled().len());
        let room = (end as u64).saturating_sub(taint.at);
        if has_bits(&taint.mask, room as usize) {
            self.honest = false;
            lay_over_settled(&mut self.settled, taint.at, &taint.mask);
            lay_over(&mut self.bytes, taint.at, &taint.mask);
        }
    }

    /// Lays the mask over the bytes that a read gives, from the place `at` on, and settles them.
    pub fn flip(&mut self, at: u64, mask: &[u8])
        ensures { held self.new ≡ held_as (held self.old) (after_mask (held self.old).reads at mask.now) }
    {
        lay_over(&mut self.bytes, at, mask);
        self.settled = None;
        self.trail.clear();
        self.pending_from = 0;
    }

    /// Makes these the settled bytes of an honest file.
    pub fn restore(&mut self, alloc: Global, image: &[u8]) -> Result<(), NoMemory>
        ensures ok { OnOk result (held self.new ≡ held_anew image.now) }
        ensures err { OnErr result (held self.new ≡ held self.old) }
    {
        let bytes = image.to_vec(alloc)?;
        self.take_over(bytes);
        Ok(())
    }

    /// Makes the image that a crash leaves the settled bytes of an honest file.
    pub fn crash(&mut self, seed: u64, file: u16) -> Result<(), NoMemory>
        ensures ok { OnOk result (held self.new ≡
            held_anew (crash_of (held self.old).settled (held self.old).reads
            (spans_of (drop (held self.old).pending_from (held self.old).trail)) seed file)) }
        ensures err { OnErr result (held self.new ≡ held self.old) }
    {
        leave_image(
            &mut self.settled,
            &mut self.bytes,
            &self.trail[self.pending_from as usize..],
            seed,
            file,
        )?;
        self.trail.clear();
        self.pending_from = 0;
        self.honest = true;
        Ok(())
    }

    // Makes these the settled bytes of an honest file, without a copy.
    fn take_over(&mut self, bytes: Vec<u8>)
        ensures { held self.new ≡ held_anew bytes.items }
    {
        self.bytes = bytes;
        self.settled = None;
        self.trail.clear();
        self.pending_from = 0;
        self.honest = true;
    }
}

// The entry of the trail for a change of the places from one up to another.
fn change(base: u64, from: usize, upto: usize) -> Change
    requires { from ≤ upto }
    ensures { result ≡ change_of base from upto }
{
    Change {
        span: Span {
            at: from as u64,
            length: (upto - from) as u64,
        },
        base,
    }
}
