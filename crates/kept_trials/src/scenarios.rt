// The scenarios, each a step of a store.

use crate::acts::Act;
use crate::bases::Base;
use crate::objects::{Name, Object};
use crate::reopening::Found;
use kept_store::{Asked, OpenFault};

/// What stands.
#[derive(Clone, Copy)]
pub enum State {
    /// No store, or one that is made by the next opening.
    NoStore,
    /// A store with these objects.
    Holds(&'static [Object]),
}

impl State {
    /// Whether this is found.
    pub fn is(self, found: &Found) -> bool {
        match (self, found) {
            (State::NoStore, Found::Made) => true,
            (State::NoStore, Found::Refused(OpenFault::NoStore)) => true,
            (State::Holds(objects), Found::Store(contents)) => contents.are(objects),
            _ => false,
        }
    }
}

/// A scenario: what lies there, what is asked and done, and what stands before and after that.
#[derive(Clone, Copy)]
pub struct Scenario {
    pub name: &'static str,
    pub base: Base,
    pub asked: Asked,
    pub acts: &'static [Act],
    pub before: State,
    pub after: State,
}

/// An object of one block.
pub const A: Object = Object {
    name: Name::A,
    byte: 1,
    size: 3,
};

/// What it is replaced by, of two blocks.
pub const NEW_A: Object = Object {
    name: Name::A,
    byte: 2,
    size: 5000,
};

/// A second object.
pub const B: Object = Object {
    name: Name::B,
    byte: 3,
    size: 100,
};

/// A third one.
pub const C: Object = Object {
    name: Name::C,
    byte: 4,
    size: 1,
};

/// All scenarios, in the order of the table.
pub const ALL: [Scenario; 7] = [
    Scenario {
        name: "a store is made",
        base: Base::Nothing,
        asked: Asked::Create,
        acts: &[],
        before: State::NoStore,
        after: State::Holds(&[]),
    },
    Scenario {
        name: "first object",
        base: Base::Store(&[]),
        asked: Asked::Open,
        acts: &[Act::Put(A)],
        before: State::Holds(&[]),
        after: State::Holds(&[A]),
    },
    Scenario {
        name: "object replaced",
        base: Base::Store(&[Act::Put(A)]),
        asked: Asked::Open,
        acts: &[Act::Put(NEW_A)],
        before: State::Holds(&[A]),
        after: State::Holds(&[NEW_A]),
    },
    Scenario {
        name: "second object",
        base: Base::Store(&[Act::Put(A), Act::Put(NEW_A)]),
        asked: Asked::Open,
        acts: &[Act::Put(B)],
        before: State::Holds(&[NEW_A]),
        after: State::Holds(&[NEW_A, B]),
    },
    Scenario {
        name: "object removed",
        base: Base::Store(&[Act::Put(A), Act::Put(B)]),
        asked: Asked::Open,
        acts: &[Act::Remove(Name::A)],
        before: State::Holds(&[A, B]),
        after: State::Holds(&[B]),
    },
    Scenario {
        name: "exported store taken",
        base: Base::Export(&[Act::Put(A), Act::Put(B)]),
        asked: Asked::Open,
        acts: &[],
        before: State::Holds(&[A, B]),
        after: State::Holds(&[A, B]),
    },
    Scenario {
        name: "object read",
        base: Base::Store(&[Act::Put(A), Act::Put(NEW_A)]),
        asked: Asked::Open,
        acts: &[Act::Get(NEW_A)],
        before: State::Holds(&[NEW_A]),
        after: State::Holds(&[NEW_A]),
    },
];
