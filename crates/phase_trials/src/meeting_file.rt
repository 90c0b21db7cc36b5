// A file that waits for another one.

use mem_files::MemFile;
use std::alloc::Global;
use std::sync::Arc;
use std::sync::atomic::{AtomicU64, Ordering};
use std::thread::yield_now;
use tee_ports::{Failed, FileRig, Image, NoMemory, StoreFile};

/// How often a file looks for the other one before it goes on alone.
const LOOKS: u32 = 4_000_000;

/// Where two files wait for each other.
#[derive(Drop)]
pub struct Meeting {
    arrived: AtomicU64,
    met: AtomicU64,
}

impl Meeting {
    /// Nobody has come.
    pub fn new() -> Meeting {
        Meeting {
            arrived: AtomicU64::new(0),
            met: AtomicU64::new(0),
        }
    }

    // Waits until two are there, and counts those that saw both. Who has waited long enough leaves.
    fn meet(&self) {
        self.arrived.fetch_add(1, Ordering::SeqCst);
        for _ in 0..LOOKS {
            if self.arrived.load(Ordering::SeqCst) >= 2 {
                self.met.fetch_add(1, Ordering::SeqCst);
                return;
            }
            yield_now();
        }
        // It goes on alone, so one that comes later does not meet it.
        self.arrived.fetch_sub(1, Ordering::SeqCst);
    }

    /// How many saw the other one come.
    pub fn met(&self) -> u64 {
        self.met.load(Ordering::SeqCst)
    }
}

/// A file in memory. Where it has a meeting, its next read waits there until another file's is under way too.
#[derive(Drop)]
pub struct MeetingFile {
    file: MemFile,
    meeting: Option<Arc<Meeting, Global>>,
}

impl MeetingFile {
    /// That file, which waits for nobody.
    pub fn new(file: MemFile) -> MeetingFile {
        MeetingFile {
            file,
            meeting: None,
        }
    }

    /// Has its next read wait at this meeting.
    pub fn wait_at(&mut self, meeting: Arc<Meeting, Global>) {
        self.meeting = Some(meeting);
    }
}

impl StoreFile for MeetingFile {
    ghost use Rattle.mem_files.specs.Memory.{file_state, file_sound};

    ghost state = { λ f. file_state f.file };

    ghost sound = { λ f. file_sound f.file };

    fn len(&mut self) -> Result<u64, Failed> {
        self.file.len()
    }

    fn read_at(&mut self, at: u64, into: &mut [u8]) -> Result<usize, Failed> {
        if let Some(meeting) = self.meeting.take() {
            meeting.meet();
        }
        self.file.read_at(at, into)
    }

    fn write_at(&mut self, at: u64, from: &[u8]) -> Result<(), Failed> {
        self.file.write_at(at, from)
    }

    fn set_len(&mut self, size: u64) -> Result<(), Failed> {
        self.file.set_len(size)
    }

    fn sync(&mut self) -> Result<(), Failed> {
        self.file.sync()
    }
}

impl FileRig for MeetingFile {
    ghost use Rattle.std.specs.Prelude.{refl};
    ghost use Rattle.mem_files.specs.Memory.{file_state, file_sound};
    ghost use Rattle.disk_model.specs.State.{pending};
    ghost use Rattle.mem_files.specs.Crash.{crash_of};
    ghost use Rattle.mem_files.specs.CrashLaws.{crash_left};

    ghost crash_image = { λ s seed file. crash_of s.settled s.reads (pending s) seed file };

    fn stop_after(&mut self, calls: u64) {
        self.file.stop_after(calls);
    }

    fn fail_call(&mut self, call: u64) -> Result<(), NoMemory> {
        self.file.fail_call(call)
    }

    fn taint_call(&mut self, call: u64, at: u64, mask: &[u8]) -> Result<(), NoMemory> {
        self.file.taint_call(call, at, mask)
    }

    fn disarm(&mut self) {
        self.file.disarm();
    }

    fn save(&self) -> Result<Image, NoMemory> {
        self.file.save()
    }

    fn restore(&mut self, image: &Image) -> Result<(), NoMemory> {
        self.file.restore(image)
    }

    fn flip(&mut self, at: u64, mask: &[u8]) {
        self.file.flip(at, mask);
    }

    fn crash(&mut self, seed: u64, file: u16) -> Result<(), NoMemory> {
        self.file.crash(seed, file)
    }

    fn starved(&self) -> u64 {
        self.file.starved()
    }

    ghost crash_leaves = { λ rig seed file. crash_left (file_state rig.file) seed file (file_sound rig.file) };

    ghost oldest = { λ s file. refl };

    ghost newest = { λ s file. refl };
}
