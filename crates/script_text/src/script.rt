//! A script that was read.

ghost use Rattle.std.specs.Prelude.{◌≡◌, ◌≤◌, IfOk};
ghost use Rattle.std.specs.Option.{option_map};
ghost use Rattle.indexmap.specs.IndexSet.{spare};
ghost use Rattle.script_text.specs.Script.{is_call, saved_mark, with_mark};

use indexmap::{IndexMap, IndexSet};
use std::alloc::Global;
use std::marker::Model;
use tee_types::{AppId, Bytes, Call, Device, NoMemory};

/// What a device is set to do in the next phase. Its calls are counted from 1 since the phase was mounted.
#[derive(Debug, Drop)]
pub enum Arm {
    /// The device passes so many calls, and fails all later ones.
    Stop {
        /// The device.
        device: Device,
        /// How many calls pass.
        calls: u32,
    },
    /// The device fails that call.
    Fail {
        /// The device.
        device: Device,
        /// The call, from 1.
        call: u32,
    },
    /// The card acts on that call, and its answer is lost.
    Lose {
        /// The call, from 1.
        call: u32,
    },
    /// Before that call a mask is laid over the file: its bytes from that place on are XORed with the mask's.
    Taint {
        /// The file.
        file: Device,
        /// The call, from 1.
        call: u32,
        /// The place in the file.
        at: u32,
        /// The mask.
        mask: Bytes,
    },
}

impl Arm {
    ghost use Rattle.std.specs.Prelude.{◌≡◌, IfOk};

    /// An equal arm.
    pub fn copy(&self, alloc: Global) -> Result<Arm, NoMemory>
        ensures { IfOk result (λ arm. arm ≡ self.now) }
    {
        match self {
            Arm::Stop { device, calls } => Ok(Arm::Stop {
                device: *device,
                calls: *calls,
            }),
            Arm::Fail { device, call } => Ok(Arm::Fail {
                device: *device,
                call: *call,
            }),
            Arm::Lose { call } => Ok(Arm::Lose { call: *call }),
            Arm::Taint {
                file,
                call,
                at,
                mask,
            } => Ok(Arm::Taint {
                file: *file,
                call: *call,
                at: *at,
                mask: mask.copy(alloc)?,
            }),
        }
    }
}

/// How the calls of a phase are made.
#[derive(Clone, Copy, Debug, PartialEq, Eq)]
pub enum Mode {
    /// One after another, in the script's order.
    Serial,
    /// Those of each application in order, each application on a thread of its own.
    Threads,
}

/// A line that is no call: it ends the phase above it.
#[derive(Debug, Drop)]
pub enum Control {
    /// The mode of the phases below.
    Mode(Mode),
    /// The phase above ends, and nothing else is done.
    Phase,
    /// A device is armed for the next phase.
    Arm(Arm),
    /// Each file takes one of the images that a crash may leave. Which one follows from the seed.
    Crash {
        /// The seed.
        seed: u64,
    },
    /// What every file reads as is kept under a mark. A mark again replaces what was kept.
    Save {
        /// The mark.
        mark: Bytes,
    },
    /// The bytes of a file that were kept under a mark are put back.
    Restore {
        /// The file.
        file: Device,
        /// The mark, which was saved above.
        mark: Bytes,
    },
    /// A file's bytes from that place on are XORed with a mask, where there are bytes.
    Flip {
        /// The file.
        file: Device,
        /// The place in the file.
        at: u32,
        /// The mask.
        mask: Bytes,
    },
    /// An application may have so many objects, of so many bytes of data together, in all later phases.
    Quota {
        /// The application.
        app: AppId,
        /// How many objects, at most 256.
        objects: u16,
        /// How many bytes of data together.
        bytes: u32,
    },
    /// The store is mounted and its objects are shown.
    List,
}

/// One step of a script.
#[derive(Debug, Drop)]
pub enum Step {
    /// A call of an application.
    Call {
        /// The application, by its place among those declared.
        app: u32,
        /// The call.
        call: Call,
    },
    /// A control.
    Control(Control),
}

/// Whether a step is a call.
fn is_call(step: &Step) -> bool
    ensures { result ≡ is_call step.now }
{
    matches!(step, Step::Call { .. })
}

/// The mark under which a step saves.
fn mark_of(alloc: Global, step: &Step) -> Result<Option<Vec<u8>>, NoMemory>
    ensures { IfOk result (λ mark. option_map (λ m. m.items) mark ≡ saved_mark step.now) }
{
    match step {
        Step::Control(Control::Save { mark }) => {
            Ok(Some(Vec::from_slice(alloc, mark.as_slice())?))
        }
        _ => Ok(None),
    }
}

/// Notes a mark, for which there is room.
fn note_mark(saved: &mut IndexSet<Vec<u8>>, mark: Option<Vec<u8>>)
    requires { 1 ≤ spare saved.old }
    ensures { saved.new.keys ≡ with_mark saved.old.keys mark }
{
    let Some(mark) = mark else {
        return;
    };
    if saved.insert(mark).is_err() {
        unreachable!();
    }
}

/// A script: its applications in the order of declaration, each with the name by which its lines call it, and
/// its steps.
#[derive(Debug, Drop)]
pub struct Script {
    declared: IndexMap<Vec<u8>, AppId>,
    made: Vec<Step>,
    // whether a call is among the steps
    calling: bool,
    // the marks that a step saves under
    saved: IndexSet<Vec<u8>>,
}

impl Model for Script {
    ghost use Rattle.std.specs.Prelude.{◌≡◌, ◌<◌, ◌^◌, All};
    ghost use Rattle.indexmap.specs.IndexMap.{index_map_len};
    ghost use Rattle.script_text.specs.Script.{ScriptValue, IsPlaced, IsSavedIn, declarations_of, has_call};

    ghost Value = { ScriptValue };

    ghost view = { λ a. record { applications = declarations_of a.declared.entries; steps = a.made.items } };

    ghost invariant = { λ a. (index_map_len a.declared < 2 ^ 32)
        × All (IsPlaced (index_map_len a.declared)) a.made.items
        × (a.calling ≡ has_call a.made.items)
        × IsSavedIn a.made.items a.saved.keys };
}

impl Script {
    ghost use Rattle.std.specs.Prelude.{◌≡◌, ◌+◌, ◌^◌, ◌<◌, None, [], ◌∷◌, ◌++◌, map, length, slice_get, option_copied, All, IfSome, OnOk};
    ghost use Rattle.std.specs.Option.{option_map};
    ghost use Rattle.script_text.specs.Script.{no_script, IsPlaced, has_call, is_saved};
    ghost use Rattle.script_text.specs.Grammar.{may_stand, place_of, with_step};

    /// A script without applications and steps.
    pub(crate) fn new(alloc: Global) -> Script
        ensures { result ≡ no_script }
    {
        Script {
            declared: IndexMap::new(alloc),
            made: Vec::new(alloc),
            calling: false,
            saved: IndexSet::new(alloc),
        }
    }

    /// Declares one more application, under a new name.
    pub(crate) fn declare(&mut self, name: Vec<u8>, app: AppId) -> Result<(), NoMemory>
        requires room { length self.old.applications + 1 < 2 ^ 32 }
        requires new { place_of name.items self.old.applications ≡ None }
        ensures { OnOk result (self.new ≡ record self.old {
          applications = self.old.applications ++ record { name = name.items; app = app } ∷ [];
        }) }
    {
        self.declared.insert(name, app)?;
        Ok(())
    }

    /// Adds a step at the end.
    pub(crate) fn add(&mut self, alloc: Global, step: Step) -> Result<(), NoMemory>
        requires { IsPlaced (length self.old.applications) step }
        ensures { OnOk result (self.new ≡ with_step self.old step) }
    {
        let calls = is_call(&step);
        let mark = mark_of(alloc, &step)?;
        self.saved.reserve(1)?;
        self.made.push(step)?;
        self.calling |= calls;
        note_mark(&mut self.saved, mark);
        Ok(())
    }

    /// The place of the application of that name.
    pub(crate) fn place_of(&self, name: &[u8]) -> Option<u32>
        ensures place { result ≡ place_of name.now self.now.applications }
        ensures within { IfSome result (λ place. place < length self.now.applications) }
    {
        let place = self.declared.get_index_of(name)?;
        Some(place as u32)
    }

    /// Whether a call is among the steps.
    pub(crate) fn has_call(&self) -> bool
        ensures { result ≡ has_call self.now.steps }
    {
        self.calling
    }

    /// Whether a step saves under that mark.
    fn has_saved(&self, mark: &[u8]) -> bool
        ensures { result ≡ is_saved mark.now self.now.steps }
    {
        self.saved.contains(mark)
    }

    /// Whether a control may stand behind the steps: what it puts back was saved.
    pub(crate) fn may_stand(&self, control: &Control) -> bool
        ensures { result ≡ may_stand self.now.steps control.now }
    {
        match control {
            Control::Restore { mark, .. } => self.has_saved(mark.as_slice()),
            _ => true,
        }
    }

    /// How many applications the script declares.
    pub fn apps(&self) -> u32
        ensures { result ≡ length self.now.applications }
    {
        self.declared.len() as u32
    }

    /// The applications, in the order of declaration.
    pub fn applications(&self) -> &[AppId]
        ensures { result.now ≡ map (λ d. d.app) self.now.applications }
    {
        self.declared.values().as_slice()
    }

    /// The name of the application at that place.
    pub fn name(&self, app: u32) -> Option<&[u8]>
        ensures { option_copied result ≡ option_map (λ d. d.name) (slice_get self.now.applications app) }
    {
        let (name, _) = self.declared.get_index(app as usize)?;
        Some(name.as_slice())
    }

    /// The application at that place.
    pub fn app(&self, app: u32) -> Option<AppId>
        ensures { result ≡ option_map (λ d. d.app) (slice_get self.now.applications app) }
    {
        let (_, app) = self.declared.get_index(app as usize)?;
        Some(*app)
    }

    /// How many steps there are.
    pub fn steps(&self) -> u64
        ensures { result ≡ length self.now.steps }
    {
        self.made.len() as u64
    }

    /// The steps, in order.
    pub fn all_steps(&self) -> &[Step]
        ensures steps { result.now ≡ self.now.steps }
        ensures placed { All (IsPlaced (length self.now.applications)) result.now }
    {
        self.made.as_slice()
    }

    /// The step at that place.
    pub fn step(&self, index: u64) -> Option<&Step>
        ensures step { option_copied result ≡ slice_get self.now.steps index }
        ensures placed { IfSome result (λ step. IsPlaced (length self.now.applications) step.now) }
    {
        self.made.get(index as usize)
    }
}
