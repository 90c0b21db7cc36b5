// What is done with a store that is open, and what is told of it.

use crate::objects::{Name, Object};
use std::alloc::{AllocError, Global};
use store_model::{Event, History, Mark};
use tee_types::{Bytes, Call, Flags, MAX_DATA, OVERWRITE, READ, Reply, WRITE_META};

/// What is done.
#[derive(Clone, Copy)]
pub enum Act {
    /// An object is made, or replaced.
    Put(Object),
    /// An object is removed.
    Remove(Name),
    /// An object that is there is read.
    Get(Object),
}

/// What is told of an act.
#[derive(Clone, Copy, PartialEq, Eq)]
pub enum Told {
    /// It is done.
    Done,
    /// It is not done: a device failed.
    NotDone,
    /// It is not done, and its commit is in doubt.
    InDoubt,
    /// Anything else: nothing of that kind is true here.
    Wrong,
}

// The handle of the first object that a session opens.
const FIRST_HANDLE: u32 = 0;

// An object is opened, with these rights.
fn open_call(name: Name, rights: u32) -> anyhow::Result<Call> {
    Ok(Call::Open {
        id: name.id()?,
        flags: Flags { bits: rights },
    })
}

// An object is made, or replaced.
fn create_call(alloc: Global, object: Object) -> anyhow::Result<Call> {
    Ok(Call::Create {
        id: object.name.id()?,
        flags: Flags { bits: OVERWRITE },
        attributes: Bytes::empty(alloc),
        bytes: object.data(alloc)?,
    })
}

impl Act {
    // Its calls. A session that opens an object makes no other act.
    fn push_calls(self, alloc: Global, calls: &mut Vec<Call>) -> anyhow::Result<()> {
        match self {
            Act::Put(object) => calls.push(create_call(alloc, object)?)?,
            Act::Remove(name) => {
                calls.push(open_call(name, WRITE_META)?)?;
                calls.push(Call::Delete {
                    handle: FIRST_HANDLE,
                })?;
            }
            Act::Get(object) => {
                calls.push(open_call(object.name, READ)?)?;
                calls.push(Call::Read {
                    handle: FIRST_HANDLE,
                    size: MAX_DATA as u32,
                })?;
            }
        }
        Ok(())
    }

    // How many they are.
    fn call_count(self) -> usize {
        match self {
            Act::Put(_) => 1,
            Act::Remove(_) => 2,
            Act::Get(_) => 2,
        }
    }

    // What the reply to the last of them tells, where no commit is in doubt.
    fn told_by(self, reply: &Reply) -> Told {
        match (self, reply) {
            (Act::Put(_), Reply::Handle(_)) => Told::Done,
            (Act::Remove(_), Reply::Done) => Told::Done,
            (Act::Get(object), Reply::Content(bytes)) if object.has(bytes.as_slice()) => Told::Done,
            (_, Reply::NotAvailable(_)) => Told::NotDone,
            // its object was not opened
            (Act::Remove(_) | Act::Get(_), Reply::Misuse(_)) => Told::NotDone,
            _ => Told::Wrong,
        }
    }

    // What the event of the last of them tells.
    fn told_in(self, event: Option<&Event>) -> Told {
        match event {
            Some(
                Event::Call {
                    mark: Mark::Doubtful(_),
                    ..
                },
            ) => Told::InDoubt,
            Some(Event::Call { reply, .. }) => self.told_by(reply),
            _ => Told::Wrong,
        }
    }
}

/// The calls of the acts, in order.
pub fn calls_of(alloc: Global, acts: &[Act]) -> anyhow::Result<Vec<Call>> {
    let mut calls = Vec::new(alloc);
    for act in acts {
        act.push_calls(alloc, &mut calls)?;
    }
    Ok(calls)
}

// The places of the events that are calls.
fn call_places(alloc: Global, history: &History) -> Result<Vec<u64>, AllocError> {
    let mut places = Vec::new(alloc);
    for place in 0..history.len() {
        if let Some(Event::Call { .. }) = history.get(place) {
            places.push(place)?;
        }
    }
    Ok(places)
}

/// What the history tells of each act.
pub fn told_of(alloc: Global, acts: &[Act], history: &History) -> Result<Vec<Told>, AllocError> {
    let places = call_places(alloc, history)?;
    let mut told = Vec::new(alloc);
    let mut made = 0usize;
    for act in acts {
        made = made.saturating_add(act.call_count());
        let event = match places.get(made.saturating_sub(1)) {
            Some(place) => history.get(*place),
            None => None,
        };
        told.push(act.told_in(event))?;
    }
    Ok(told)
}
