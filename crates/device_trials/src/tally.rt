// How often each outcome came.

/// What the store holds behind a try.
#[derive(Clone, Copy, PartialEq, Eq)]
pub enum Outcome {
    /// The objects before the act.
    Before,
    /// The objects that the act leaves.
    After,
    /// Anything else, or one of both where the replies say the other.
    Lost,
}

/// How often each outcome came, over how many calls of the device.
#[derive(Clone, Copy)]
pub struct Tally {
    /// How many calls of the device fail the act where they go wrong.
    pub calls: u64,
    /// How often the act was run.
    pub tries: u64,
    pub before: u64,
    pub after: u64,
    pub lost: u64,
}

impl Tally {
    /// No try yet.
    pub fn new() -> Tally {
        Tally {
            calls: 0,
            tries: 0,
            before: 0,
            after: 0,
            lost: 0,
        }
    }

    /// The numbers, in the order of the table.
    pub fn counts(&self) -> [u64; 5] {
        [self.calls, self.tries, self.before, self.after, self.lost]
    }

    /// Counts a try.
    pub fn add(&mut self, outcome: Outcome) {
        self.tries = self.tries.saturating_add(1);
        let count = match outcome {
            Outcome::Before => &mut self.before,
            Outcome::After => &mut self.after,
            Outcome::Lost => &mut self.lost,
        };
        *count = count.saturating_add(1);
    }
}
