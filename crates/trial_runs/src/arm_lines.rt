//! The lines of a script that arm a device.

use crate::mishaps::{Arm, Device, Trouble};
use std::alloc::{AllocError, Global};

// The line that arms a device.
fn arm_line(alloc: Global, device: Device, arm: Arm) -> Result<String, AllocError> {
    let name = device.name();
    match arm {
        Arm::Stop(calls) => format!(in alloc; "stop {name} {calls}\n"),
        Arm::Fail(call) => format!(in alloc; "fail {name} {call}\n"),
        Arm::Lose(call) => format!(in alloc; "lose {name} {call}\n"),
    }
}

/// Pushes the lines that arm the device. No line arms the draws.
///
/// # Errors
///
/// Memory ran out.
pub fn push_arms(alloc: Global, script: &mut String, trouble: Trouble) -> Result<(), AllocError> {
    let device = trouble.device;
    if device == Device::Draws {
        return Ok(());
    }
    let (first, second) = trouble.arms();
    script.push_str(arm_line(alloc, device, first)?.as_str())?;
    match second {
        Some(arm) => script.push_str(arm_line(alloc, device, arm)?.as_str()),
        None => Ok(()),
    }
}
