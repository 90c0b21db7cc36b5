// What is set to go wrong.

use mem_files::MemFile;
use tee_ports::{FileRig, NoMemory};

/// What goes wrong with a file. Calls are counted from 1.
#[derive(Clone, Copy)]
pub enum Arm {
    /// This call fails.
    Fails(u64),
    /// The device stops at this call: it and all later ones fail.
    Stops(u64),
}

impl Arm {
    /// Arms the file.
    pub fn set(self, file: &mut MemFile) -> Result<(), NoMemory> {
        match self {
            Arm::Fails(call) => file.fail_call(call),
            Arm::Stops(call) => {
                file.stop_after(call.saturating_sub(1));
                Ok(())
            }
        }
    }
}

/// How a call of a file goes wrong, and what comes of it.
#[derive(Clone, Copy)]
pub enum Way {
    /// It fails, once. The process goes on.
    Fails,
    /// It fails, and so do all later ones. The files keep what was written.
    Stops,
    /// The same, and the power fails.
    Crashes,
}

impl Way {
    /// All ways, in the order of the table.
    pub const ALL: [Way; 3] = [Way::Fails, Way::Stops, Way::Crashes];

    /// The way in words.
    pub fn name(self) -> &'static str {
        match self {
            Way::Fails => "fails once",
            Way::Stops => "stops",
            Way::Crashes => "stops, crash",
        }
    }

    /// What is armed for a call.
    pub fn arm(self, call: u64) -> Arm {
        match self {
            Way::Fails => Arm::Fails(call),
            Way::Stops => Arm::Stops(call),
            Way::Crashes => Arm::Stops(call),
        }
    }

    /// By which seeds a crash leaves what it leaves. 0 leaves what was settled, and 1 all that was written.
    pub fn seeds(self) -> [u64; 3] {
        match self {
            Way::Crashes => [0, 2, 5],
            _ => [1; 3],
        }
    }

    /// How many of these seeds are tried.
    pub fn seed_count(self) -> usize {
        match self {
            Way::Crashes => 3,
            _ => 1,
        }
    }
}
