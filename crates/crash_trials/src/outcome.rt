// What stands after a try, and how often.

/// What stands after a try.
#[derive(Clone, Copy)]
pub enum Outcome {
    /// The bytes before the change.
    Before,
    /// The bytes after the change, under the new reference, and those before it under the old one.
    After,
    /// Bytes of both, at places that the change touched. Only of a file itself may that be.
    InDoubt,
    /// Something was altered, and that was told.
    Refused,
    /// Anything else.
    Lost,
}

/// How often each outcome came, over how many calls, draws and seeds.
#[derive(Clone, Copy)]
pub struct Tally {
    /// How many calls of the file what is tried makes, where none fails.
    pub calls: u64,
    /// How many draws it makes.
    pub draws: u64,
    /// With how many seeds each try is crashed.
    pub seeds: u64,
    pub tries: u64,
    pub before: u64,
    pub after: u64,
    pub in_doubt: u64,
    pub refused: u64,
    pub lost: u64,
}

impl Tally {
    /// No try yet.
    pub fn new() -> Tally {
        Tally {
            calls: 0,
            draws: 0,
            seeds: 0,
            tries: 0,
            before: 0,
            after: 0,
            in_doubt: 0,
            refused: 0,
            lost: 0,
        }
    }

    /// Counts a try.
    pub fn add(&mut self, outcome: Outcome) {
        self.tries = self.tries.saturating_add(1);
        let count = match outcome {
            Outcome::Before => &mut self.before,
            Outcome::After => &mut self.after,
            Outcome::InDoubt => &mut self.in_doubt,
            Outcome::Refused => &mut self.refused,
            Outcome::Lost => &mut self.lost,
        };
        *count = count.saturating_add(1);
    }
}
