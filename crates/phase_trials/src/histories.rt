// What the lines of a phase's history tell. Each call has a line `PLACE NAME CALL -> REPLY`.

use std::alloc::{AllocError, Global};

// A device kept the call from being done.
const NOT_DONE: &str = " -> STORAGE_NOT_AVAILABLE";

// The same, where the device is the card.
const NOT_CONFIRMED: &str = " -> STORAGE_NOT_AVAILABLE card";

/// The call of a line, with the name of its session, if it has one.
pub fn call_in(line: &str) -> Option<&str> {
    let (front, _) = line.split_once(" -> ")?;
    let (_, call) = front.split_once(" ")?;
    Some(call)
}

/// Pushes a line for each call that no device kept from being done, in the order of the history.
pub fn push_done_calls(script: &mut String, history: &str) -> Result<(), AllocError> {
    for line in history.lines().filter(|line| !line.contains(NOT_DONE)) {
        if let Some(call) = call_in(line) {
            script.push_str(call)?;
            script.push_str("\n")?;
        }
    }
    Ok(())
}

/// The same calls with their replies, a line each, without their places.
pub fn answers_in(alloc: Global, history: &str) -> Result<String, AllocError> {
    let mut answers = String::new(alloc);
    for line in history.lines().filter(|line| !line.contains(NOT_DONE)) {
        if let (Some(_), Some((_, answer))) = (call_in(line), line.split_once(" ")) {
            answers.push_str(answer)?;
            answers.push_str("\n")?;
        }
    }
    Ok(answers)
}

/// The first call that the card did not confirm, if there is one.
pub fn unconfirmed_call(history: &str) -> Option<&str> {
    let line = history.lines().find(|line| line.contains(NOT_CONFIRMED))?;
    call_in(line)
}
