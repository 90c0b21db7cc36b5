// Calls while the card stops, at each exchange of theirs.

use crate::devices::{Store, counter_of, holds, name_of, remounted, store_with};
use crate::objects::{Content, Objects};
use anyhow::bail;
use rpmb_files::CardFault;
use std::alloc::{AllocError, Global};

/// More exchanges than a call here makes.
const MOST: u64 = 1000;

/// The object that is put, put again and removed, and one that stands beside it.
const OBJECT: usize = 0;

const OTHER: usize = 5;

/// A change of one object.
#[derive(Clone, Copy)]
pub struct Act {
    pub name: &'static str,
    before: Objects,
    /// What is put, or none where the object is removed.
    content: Option<Content>,
}

/// What a store holds.
#[derive(Clone, Copy, PartialEq, Eq)]
enum Stands {
    Before,
    After,
    Neither,
}

/// A try: the call was done, and what stands is what its answer says.
#[derive(Clone, Copy)]
struct Tried {
    done: bool,
    kept: bool,
    counter: u32,
}

fn content(size: u16, first: u8) -> Option<Content> {
    Some(Content { size, first })
}

/// The acts.
pub fn acts() -> [Act; 4] {
    let other = Objects::NONE.with(OTHER, content(300, 7));
    let both = other.with(OBJECT, content(600, 1));
    [
        Act {
            name: "put",
            before: other,
            content: content(1, 1),
        },
        Act {
            name: "put of 600 bytes",
            before: other,
            content: content(600, 1),
        },
        Act {
            name: "replace",
            before: both,
            content: content(700, 9),
        },
        Act {
            name: "remove",
            before: both,
            content: None,
        },
    ]
}

impl Act {
    fn after(&self) -> Objects {
        self.before.with(OBJECT, self.content)
    }

    // Makes the call.
    fn call(&self, alloc: Global, store: &mut Store) -> anyhow::Result<Result<(), CardFault>> {
        let name = name_of(OBJECT)?;
        match self.content {
            Some(content) => {
                let bytes = content.bytes(alloc)?;
                Ok(store.put(name.app, name.id, &bytes))
            }
            None => Ok(store.remove(name.app, name.id)),
        }
    }

    // What the store holds.
    fn stands(&self, alloc: Global, store: &mut Store) -> anyhow::Result<Stands> {
        if holds(alloc, store, &self.after())? {
            Ok(Stands::After)
        } else if holds(alloc, store, &self.before)? {
            Ok(Stands::Before)
        } else {
            Ok(Stands::Neither)
        }
    }

    // Makes the call while the card stops behind so many exchanges. Then the card goes on, and then it is mounted anew.
    fn try_stop(&self, alloc: Global, exchanges: u64) -> anyhow::Result<Tried> {
        let mut store = store_with(alloc, &self.before)?;
        store.stop_after(exchanges);
        let answer = self.call(alloc, &mut store)?;
        store.stop_after(u64::MAX);
        let resumed = self.stands(alloc, &mut store)?;
        let mut store = remounted(alloc, store)?;
        let mounted = self.stands(alloc, &mut store)?;
        let told = match answer {
            Ok(()) => mounted == Stands::After,
            Err(CardFault::Device(_)) => mounted != Stands::Neither,
            Err(_) => false,
        };
        Ok(Tried {
            done: answer.is_ok(),
            kept: told && resumed == mounted,
            counter: counter_of(store)?,
        })
    }

    /// The line of the stops of an act: at how many exchanges it does not end, how many blocks it writes where it does, and how often something
    /// else stands than the objects before the call or those behind it. And how often that is.
    pub fn line(&self, alloc: Global) -> anyhow::Result<(String, u64)> {
        let before = counter_of(store_with(alloc, &self.before)?)?;
        let mut lost = 0u64;
        for exchanges in 0..MOST {
            let tried = self.try_stop(alloc, exchanges)?;
            if !tried.kept {
                lost = lost.saturating_add(1);
            }
            if tried.done {
                let writes = tried.counter.saturating_sub(before);
                return Ok((self.text(alloc, exchanges, writes, lost)?, lost));
            }
        }
        bail!("each stop fails the call");
    }

    fn text(
        &self,
        alloc: Global,
        exchanges: u64,
        writes: u32,
        lost: u64,
    ) -> Result<String, AllocError> {
        format!(in alloc;
            "{:<18}stops at {exchanges:>2} exchanges, {writes} writes, {lost} lost",
            self.name
        )
    }
}
