// What is told of a store whose files were altered, and how often.

/// What is told.
#[derive(Clone, Copy, PartialEq, Eq)]
pub enum Outcome {
    /// Its objects, as they were.
    Same,
    /// Those of an older store, which was put there.
    Older,
    /// No store is opened, or an object is told as damaged, and nothing was written.
    Refused,
    /// Anything else.
    Lost,
}

/// How often each outcome came.
#[derive(Clone, Copy)]
pub struct Altered {
    pub tries: u64,
    pub same: u64,
    pub older: u64,
    pub refused: u64,
    pub lost: u64,
}

impl Altered {
    /// No try yet.
    pub fn new() -> Altered {
        Altered {
            tries: 0,
            same: 0,
            older: 0,
            refused: 0,
            lost: 0,
        }
    }

    /// Counts a try.
    pub fn add(&mut self, outcome: Outcome) {
        self.tries = self.tries.saturating_add(1);
        let count = match outcome {
            Outcome::Same => &mut self.same,
            Outcome::Older => &mut self.older,
            Outcome::Refused => &mut self.refused,
            Outcome::Lost => &mut self.lost,
        };
        *count = count.saturating_add(1);
    }
}
