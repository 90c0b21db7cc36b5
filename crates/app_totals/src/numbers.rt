//! The numbers of an application.

/// How many objects an application has, and how many bytes of data they have together.
#[derive(Clone, Copy, Debug, PartialEq, Eq)]
pub struct Totals {
    /// The objects.
    pub objects: u16,
    /// The bytes of data.
    pub bytes: u64,
}

/// What a call leaves an application, where it raises one of the two numbers.
pub type Grown = Totals;

/// What a call would find, and what it would leave the application of its session.
#[derive(Clone, Copy, Debug, PartialEq, Eq)]
pub struct Forecast {
    /// How many events stand in the history.
    pub place: u64,
    /// The objects that the application has.
    pub objects: u16,
    /// The bytes of data that it has.
    pub bytes: u64,
    /// What the call leaves, where it raises one of these two numbers.
    pub grown: Option<Grown>,
}
