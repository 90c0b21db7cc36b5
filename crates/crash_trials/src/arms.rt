// What is set to go wrong.

use mem_files::MemFile;
use tee_ports::{FileRig, ListEntropy, NoMemory};

/// What goes wrong in a try. Calls and draws are counted from 1.
#[derive(Clone, Copy)]
pub enum Arm {
    /// This call of the file fails.
    Fails(u64),
    /// This call of the file fails, and the step that it belongs to is taken once more.
    Again(u64),
    /// The device stops at this call: it and all later ones fail.
    Stops(u64),
    /// This draw fails.
    Draws(u64),
}

impl Arm {
    /// Nothing goes wrong.
    pub const NONE: Arm = Arm::Draws(0);

    /// Arms the file.
    pub fn set(self, file: &mut MemFile) -> Result<(), NoMemory> {
        match self {
            Arm::Fails(call) => file.fail_call(call),
            Arm::Again(call) => file.fail_call(call),
            Arm::Stops(call) => {
                file.stop_after(call.saturating_sub(1));
                Ok(())
            }
            Arm::Draws(_) => Ok(()),
        }
    }

    /// The draws of a try.
    pub fn entropy(self) -> ListEntropy {
        let mut failing = [0; 16];
        if let Arm::Draws(draw) = self {
            failing[0] = draw;
        }
        ListEntropy::new(failing)
    }

    /// Whether a step that fails is taken once more.
    pub fn is_again(self) -> bool {
        matches!(self, Arm::Again(_))
    }
}
