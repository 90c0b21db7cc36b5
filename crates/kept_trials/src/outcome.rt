// What stands after a try, and how often.

/// What stands after a try.
#[derive(Clone, Copy, PartialEq, Eq)]
pub enum Outcome {
    /// What stood before the step, which was told as not done.
    Before,
    /// What the step leaves, and it was told as done.
    After,
    /// One of both, and the step was told as in doubt.
    InDoubt,
    /// No store is opened, with a right cause, and nothing was written for it.
    Refused,
    /// Anything else.
    Lost,
}

/// How often each outcome came.
#[derive(Clone, Copy)]
pub struct Tally {
    pub tries: u64,
    pub before: u64,
    pub after: u64,
    pub in_doubt: u64,
    pub refused: u64,
    pub lost: u64,
}

impl Tally {
    /// No try yet.
    pub fn new() -> Tally {
        Tally {
            tries: 0,
            before: 0,
            after: 0,
            in_doubt: 0,
            refused: 0,
            lost: 0,
        }
    }

    /// Counts a try.
    pub fn add(&mut self, outcome: Outcome) {
        self.tries = self.tries.saturating_add(1);
        let count = match outcome {
            Outcome::Before => &mut self.before,
            Outcome::After => &mut self.after,
            Outcome::InDoubt => &mut self.in_doubt,
            Outcome::Refused => &mut self.refused,
            Outcome::Lost => &mut self.lost,
        };
        *count = count.saturating_add(1);
    }
}
