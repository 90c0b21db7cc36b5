// The faults that a simulated device was told to make.

ghost use Rattle.std.specs.Prelude.{◌≡◌, IfOk, OnOk, OnErr};

use crate::NoMemory;
use std::alloc::Global;
use std::marker::Model;

/// What becomes of a call of a simulated device.
#[derive(Clone, Copy, Debug, PartialEq, Eq)]
pub enum Fate {
    /// The device answers.
    Passes,
    /// The call fails without reaching the device.
    Fails,
    /// The device acts, and its answer is lost.
    Loses,
}

/// Which calls fail. They are counted from 1 since the last arming, up to `u64::MAX`, where the count stands still.
#[derive(Drop)]
pub struct ArmedCalls {
    calls: u64,
    stop_after: Option<u64>,
    failing: Vec<u64>,
    losing: Vec<u64>,
}

impl Model for ArmedCalls {
    ghost use Rattle.rpmb_card.specs.Arms.{Arms};

    ghost Value = { Arms };

    ghost view = { λ a. record {
      calls = a.calls;
      stop_after = a.stop_after;
      failing = a.failing.items;
      losing = a.losing.items;
    } };
}

impl ArmedCalls {
    ghost use Rattle.rpmb_card.specs.Arms.{no_arms, fate_of, count_call, arm_stop, arm_failure, arm_loss};

    /// Nothing is armed.
    pub fn new(alloc: Global) -> ArmedCalls
        ensures { result ≡ no_arms }
    {
        ArmedCalls {
            calls: 0,
            stop_after: None,
            failing: Vec::new(alloc),
            losing: Vec::new(alloc),
        }
    }

    /// Counts a call, and says what becomes of it.
    pub fn next(&mut self) -> Fate
        ensures fate { result ≡ fate_of self.old }
        ensures counted { self.new ≡ count_call self.old }
    {
        self.calls = self.calls.saturating_add(1);
        let call = self.calls;
        if self.stop_after.is_some_and(|calls| calls < call) || self.failing.contains(&call) {
            Fate::Fails
        } else if self.losing.contains(&call) {
            Fate::Loses
        } else {
            Fate::Passes
        }
    }

    /// Lets this many calls pass, and no later one.
    pub fn stop_after(&mut self, calls: u64)
        ensures { self.new ≡ arm_stop self.old calls }
    {
        self.calls = 0;
        self.stop_after = Some(calls);
    }

    /// Lets that call fail.
    pub fn fail_call(&mut self, call: u64) -> Result<(), NoMemory>
        ensures ok { OnOk result (self.new ≡ arm_failure self.old call) }
        ensures err { OnErr result (self.new ≡ self.old) }
    {
        self.failing.push(call)?;
        self.calls = 0;
        Ok(())
    }

    /// Lets that call's answer be lost.
    pub fn lose_call(&mut self, call: u64) -> Result<(), NoMemory>
        ensures ok { OnOk result (self.new ≡ arm_loss self.old call) }
        ensures err { OnErr result (self.new ≡ self.old) }
    {
        self.losing.push(call)?;
        self.calls = 0;
        Ok(())
    }

    /// Removes all of these.
    pub fn disarm(&mut self)
        ensures { self.new ≡ no_arms }
    {
        self.calls = 0;
        self.stop_after = None;
        self.failing.clear();
        self.losing.clear();
    }
}
