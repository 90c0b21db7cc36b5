//! What goes wrong with a device.

/// A device that may go wrong.
#[derive(Clone, Copy, PartialEq, Eq)]
pub enum Device {
    /// The directory's file.
    Dir,
    /// The file of an object.
    File(usize),
    /// The card.
    Card,
    /// The draws of the generator.
    Draws,
}

/// What is armed at a device. Calls that fail or are lost are counted from 1.
#[derive(Clone, Copy)]
pub(crate) enum Arm {
    /// So many calls pass, and all later ones fail.
    Stop(u64),
    /// This call fails without reaching the device.
    Fail(u64),
    /// The card acts on this call, and its answer is lost.
    Lose(u64),
}

/// What goes wrong.
#[derive(Clone, Copy, PartialEq, Eq)]
pub enum Mishap {
    /// The device stops.
    Stops,
    /// One call fails.
    Fails,
    /// One call fails, and the run goes on with a call on another object.
    Passes,
    /// Two calls fail.
    FailsTwice,
    /// The answer of one call is lost.
    Loses,
    /// The same, and the next call fails.
    LosesTwo,
}

/// What goes wrong in a trial, from that call on, counted from 0.
#[derive(Clone, Copy)]
pub struct Trouble {
    /// The device that goes wrong.
    pub device: Device,
    /// What goes wrong with it.
    pub mishap: Mishap,
    /// The first call that it concerns.
    pub call: u64,
}

impl Device {
    /// The device as a script names it.
    pub fn name(self) -> &'static str {
        match self {
            Device::Dir => "dir",
            Device::File(1) => "1",
            Device::File(2) => "2",
            Device::File(_) => "3",
            Device::Card => "card",
            Device::Draws => "draws",
        }
    }
}

impl Mishap {
    /// What goes wrong, in words.
    pub fn name(self) -> &'static str {
        match self {
            Mishap::Stops => "stops",
            Mishap::Fails => "fails once",
            Mishap::Passes => "fails, info",
            Mishap::FailsTwice => "fails twice",
            Mishap::Loses => "loses",
            Mishap::LosesTwo => "loses, fails",
        }
    }
}

impl Trouble {
    /// What is armed at its device.
    pub(crate) fn arms(self) -> (Arm, Option<Arm>) {
        let first = self.call.saturating_add(1);
        let second = first.saturating_add(1);
        match self.mishap {
            Mishap::Stops => (Arm::Stop(self.call), None),
            Mishap::Fails | Mishap::Passes => (Arm::Fail(first), None),
            Mishap::FailsTwice => (Arm::Fail(first), Some(Arm::Fail(second))),
            Mishap::Loses => (Arm::Lose(first), None),
            Mishap::LosesTwo => (Arm::Lose(first), Some(Arm::Fail(second))),
        }
    }
}
