// A file in memory, whose device can be set to fail and to crash.
ghost use Rattle.std.specs.Prelude.{◌≡◌, ◌+◌, ◌-◌, ◌<◌, ◌≤◌, ◌^◌, ◌↔◌, length, None, IsTrue, IfErr, OnOk, OnErr, IsSomeAnd, Contains, refl};
ghost use Rattle.disk_model.specs.Faults.{next_count};
ghost use Rattle.disk_model.specs.Arms.{NamesNext, StopsNext};
ghost use Rattle.mem_files.specs.Machine.{begun, wrote, resized, synced};

use crate::content::Content;
use crate::taint::Taint;
use std::alloc::Global;
use tee_ports::{Failed, FileRig, Image, NoMemory, StoreFile};

/// A file in memory.
///
/// Counts stand still at `u64::MAX`.
#[derive(Drop)]
pub struct MemFile {
    alloc: Global,
    content: Content,
    // Calls since the last arming.
    calls: u64,
    stop_after: Option<u64>,
    failing: Vec<u64>,
    taints: Vec<Taint>,
    faults: u64,
    starved: u64,
    written: u64,
}

impl MemFile {
    ghost use Rattle.mem_files.specs.Memory.{file_state};
    ghost use Rattle.mem_files.specs.Machine.{FailsBegun, StopsWithin, fresh, IsNamed};

    /// An empty file, honest and settled, with no arms.
    pub fn new(alloc: Global) -> MemFile
        ensures { file_state result ≡ fresh }
    {
        MemFile {
            alloc,
            content: Content::new(alloc),
            calls: 0,
            stop_after: None,
            failing: Vec::new(alloc),
            taints: Vec::new(alloc),
            faults: 0,
            starved: 0,
            written: 0,
        }
    }

    /// How many calls were made since the last arming.
    pub fn calls(&self) -> u64
        ensures { result ≡ (file_state self.now).arms.calls }
    {
        self.calls
    }

    /// How many bytes were written.
    pub fn written(&self) -> u64
        ensures { result ≡ (file_state self.now).written }
    {
        self.written
    }

    // Counts a call, before which masks strike.
    fn count(&mut self)
        ensures { file_state self.new ≡ begun (file_state self.old) }
    {
        self.calls = self.calls.saturating_add(1);
        self.content.strike_all(&self.taints, self.calls);
    }

    // Begins a call: masks strike, and the call may be set to fail.
    fn begin(&mut self) -> Result<(), Failed>
        ensures passed { OnOk result ((file_state self.new ≡ begun (file_state self.old)) × (NamesNext (file_state self.old).arms → ⊥)) }
        ensures failed { IfErr result (λ e. FailsBegun (file_state self.old) (file_state self.new) e.count) }
    {
        self.count();
        if self.is_named() {
            return Err(self.fail());
        }
        Ok(())
    }

    // The device stops at the next call.
    fn stops_next(&self) -> bool
        ensures { IsTrue result ↔ StopsNext (file_state self.now).arms }
    {
        let next = self.calls.saturating_add(1);
        is_last(self.stop_after, next) && !contains(&self.failing, next)
    }

    // The device stops within a write: what was written may be there, so that a crash tears it. Where memory ran out for
    // it, nothing is.
    fn stop_within(&mut self, at: u64, from: &[u8]) -> Failed
        requires room { at + length from.now < 2 ^ 32 }
        requires stops { StopsNext (file_state self.now).arms }
        ensures { StopsWithin (file_state self.old) (file_state self.new) at from.now result.count }
    {
        self.count();
        let _ = self.try_write(at, from);
        self.fail()
    }

    // The present call is set to fail.
    fn is_named(&self) -> bool
        ensures { IsTrue result ↔ IsNamed (file_state self.now).arms }
    {
        is_stopped(self.stop_after, self.calls) || contains(&self.failing, self.calls)
    }

    fn fail(&mut self) -> Failed
        ensures counted { file_state self.new ≡ record (file_state self.old) { faults = next_count (file_state self.old).faults } }
        ensures rises { (file_state self.old).faults ≤ (file_state self.new).faults }
        ensures carried { result.count ≡ (file_state self.new).faults }
    {
        self.faults = self.faults.saturating_add(1);
        Failed { count: self.faults }
    }

    // Memory ran out.
    fn starve(&mut self) -> Failed
        ensures counted { file_state self.new ≡ record (file_state self.old) {
          faults = next_count (file_state self.old).faults;
          starved = next_count (file_state self.old).starved;
        } }
        ensures rises { ((file_state self.old).faults ≤ (file_state self.new).faults)
            × ((file_state self.old).starved ≤ (file_state self.new).starved) }
        ensures carried { result.count ≡ (file_state self.new).faults }
    {
        self.starved = self.starved.saturating_add(1);
        self.fail()
    }

    fn try_write(&mut self, at: u64, from: &[u8]) -> Result<(), NoMemory>
        requires { at + length from.now < 2 ^ 32 }
        ensures ok { OnOk result (file_state self.new ≡ wrote (file_state self.old) at from.now) }
        ensures counted { (file_state self.old).written ≤ (file_state self.new).written }
        ensures err { OnErr result (file_state self.new ≡ file_state self.old) }
    {
        self.content.write(self.alloc, at as usize, from)?;
        self.written = self.written.saturating_add(from.len() as u64);
        Ok(())
    }

    fn try_resize(&mut self, size: u64) -> Result<(), NoMemory>
        requires { size < 2 ^ 32 }
        ensures ok { OnOk result (file_state self.new ≡ resized (file_state self.old) size) }
        ensures err { OnErr result (file_state self.new ≡ file_state self.old) }
    {
        self.content.resize(self.alloc, size as usize)
    }

    fn try_sync(&mut self) -> Result<(), NoMemory>
        ensures ok { OnOk result (file_state self.new ≡ synced (file_state self.old)) }
        ensures err { OnErr result (file_state self.new ≡ file_state self.old) }
    {
        self.content.sync()
    }
}

impl StoreFile for MemFile {
    ghost use Rattle.mem_files.specs.Memory.{file_state, file_sound};

    ghost state = { file_state };

    ghost sound = { file_sound };

    fn len(&mut self) -> Result<u64, Failed> {
        self.begin()?;
        Ok(self.content.len() as u64)
    }

    fn read_at(&mut self, at: u64, into: &mut [u8]) -> Result<usize, Failed> {
        self.begin()?;
        Ok(self.content.read(at as usize, into))
    }

    fn write_at(&mut self, at: u64, from: &[u8]) -> Result<(), Failed> {
        if self.stops_next() {
            return Err(self.stop_within(at, from));
        }
        self.begin()?;
        match self.try_write(at, from) {
            Ok(()) => Ok(()),
            Err(_) => Err(self.starve()),
        }
    }

    fn set_len(&mut self, size: u64) -> Result<(), Failed> {
        self.begin()?;
        match self.try_resize(size) {
            Ok(()) => Ok(()),
            Err(_) => Err(self.starve()),
        }
    }

    fn sync(&mut self) -> Result<(), Failed> {
        self.begin()?;
        match self.try_sync() {
            Ok(()) => Ok(()),
            Err(_) => Err(self.starve()),
        }
    }
}

impl FileRig for MemFile {
    ghost use Rattle.mem_files.specs.Memory.{file_state, file_sound};
    ghost use Rattle.mem_files.specs.Crash.{crash_of};
    ghost use Rattle.mem_files.specs.CrashLaws.{crash_left};
    ghost use Rattle.disk_model.specs.State.{pending};

    ghost crash_image = { λ s seed file. crash_of s.settled s.reads (pending s) seed file };

    fn stop_after(&mut self, calls: u64) {
        self.calls = 0;
        self.stop_after = Some(calls);
    }

    fn fail_call(&mut self, call: u64) -> Result<(), NoMemory> {
        self.failing.push(call)?;
        self.calls = 0;
        Ok(())
    }

    fn taint_call(&mut self, call: u64, at: u64, mask: &[u8]) -> Result<(), NoMemory> {
        let mask = mask.to_vec(self.alloc)?;
        self.taints.push(Taint { call, at, mask })?;
        self.calls = 0;
        Ok(())
    }

    fn disarm(&mut self) {
        self.calls = 0;
        self.stop_after = None;
        self.failing.clear();
        self.taints.clear();
    }

    fn save(&self) -> Result<Image, NoMemory> {
        Ok(Image::from_vec(self.content.copy(self.alloc)?))
    }

    fn restore(&mut self, image: &Image) -> Result<(), NoMemory> {
        self.content.restore(self.alloc, image.bytes())
    }

    fn flip(&mut self, at: u64, mask: &[u8]) {
        self.content.flip(at, mask);
    }

    fn crash(&mut self, seed: u64, file: u16) -> Result<(), NoMemory> {
        self.content.crash(seed, file)
    }

    fn starved(&self) -> u64 {
        self.starved
    }

    ghost crash_leaves = { λ rig seed file. crash_left (file_state rig) seed file (file_sound rig) };

    ghost oldest = { λ s file. refl };

    ghost newest = { λ s file. refl };
}

fn is_stopped(stop_after: Option<u64>, call: u64) -> bool
    ensures { IsTrue result ↔ IsSomeAnd stop_after (λ calls. calls < call) }
{
    match stop_after {
        Some(calls) => calls < call,
        None => false,
    }
}

// The device stops at this call: it is the first past those that pass.
fn is_last(stop_after: Option<u64>, call: u64) -> bool
    ensures { IsTrue result ↔ IsSomeAnd stop_after (λ calls. calls + 1 ≡ call) }
{
    match stop_after {
        Some(calls) => calls < call && call - calls == 1,
        None => false,
    }
}

fn contains(calls: &[u64], call: u64) -> bool
    ensures { IsTrue result ↔ Contains calls.now call }
{
    calls.contains(&call)
}
