//! How the gate's lock is taken.

use crossbeam_utils::Backoff;
use std::sync::{Mutex, MutexGuard, Wait};

/// How often a lock is looked for before its thread sleeps.
const LOOKS: u32 = 256;

/// Takes a lock that others hold for a short time each. Behind each look the thread waits, at first for a moment, then for longer, and then it lets
/// others run. It sleeps until the lock is given back only where that takes longer than a commit: to be woken takes longer too.
pub fn spin_then_lock<'a, W: Wait, T>(rt: &W, lock: &'a Mutex<T>) -> MutexGuard<'a, T> {
    let backoff = Backoff::new();
    for _ in 0..LOOKS {
        if let Some(guard) = lock.try_lock() {
            return guard;
        }
        backoff.snooze();
    }
    lock.lock(rt)
}
