// What is tried with which device, and how often.

use trial_runs::{Device, Mishap};

/// The devices, in the order of the table.
pub const DEVICES: [Device; 6] = [
    Device::Dir,
    Device::File(1),
    Device::File(2),
    Device::File(3),
    Device::Card,
    Device::Draws,
];

/// What goes wrong with them, in the order of the table.
pub const MISHAPS: [Mishap; 6] = [
    Mishap::Stops,
    Mishap::Fails,
    Mishap::Passes,
    Mishap::FailsTwice,
    Mishap::Loses,
    Mishap::LosesTwo,
];

/// Whether a mishap is tried with that device.
pub fn is_tried(mishap: Mishap, device: Device) -> bool {
    match device {
        Device::Dir | Device::File(_) => {
            matches!(mishap, Mishap::Stops | Mishap::Fails | Mishap::Passes)
        }
        Device::Card => true,
        Device::Draws => mishap == Mishap::Fails,
    }
}

/// With how many seeds each try is crashed.
pub fn seeds_of(mishap: Mishap) -> u64 {
    if mishap == Mishap::Passes { 1 } else { 8 }
}

/// How many calls are tried at least: as many exchanges with the card as a commit makes, and more.
pub fn least_tries(device: Device) -> u64 {
    if device == Device::Card { 4 } else { 1 }
}
