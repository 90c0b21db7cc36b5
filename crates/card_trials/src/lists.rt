// Lists of calls that are drawn, beside a finite map.

use crate::choices::{Choices, Step};
use crate::devices::{Store, found, gives, holds, lists, name_of, new_store, remounted};
use crate::objects::{Content, Objects};
use rpmb_files::CardFault;
use std::alloc::Global;

/// How many calls a list has.
const CALLS: u32 = 12;

/// What came of the lists: how many calls there were, how many of them the card did not confirm, how many of these were done, how
/// many were refused, and how many answers differ from those of the map.
#[derive(Clone, Copy)]
pub struct Counts {
    pub calls: u64,
    pub failed: u64,
    pub landed: u64,
    pub refused: u64,
    pub differ: u64,
}

impl Counts {
    /// None yet.
    pub fn new() -> Counts {
        Counts {
            calls: 0,
            failed: 0,
            landed: 0,
            refused: 0,
            differ: 0,
        }
    }
}

/// A store, and the map beside it.
#[derive(Drop)]
struct Pair {
    store: Store,
    objects: Objects,
    /// The card may stop.
    armed: bool,
}

// What a put of these bytes has to be refused with.
fn refusal(objects: &Objects, content: Content) -> Option<CardFault> {
    let (need, free) = (content.blocks(), objects.free_blocks());
    if content.is_too_large() {
        Some(CardFault::TooLarge {
            size: u64::from(content.size),
        })
    } else if free < need {
        Some(CardFault::Full { need, free })
    } else {
        None
    }
}

impl Pair {
    // Where the card did not confirm a change: no other call is answered until it goes on, and the list is that without the change. Then the card
    // says whether it was made.
    fn settle(
        &mut self,
        alloc: Global,
        number: usize,
        content: Option<Content>,
        counts: &mut Counts,
    ) -> anyhow::Result<bool> {
        counts.failed = counts.failed.saturating_add(1);
        let name = name_of(number)?;
        let held = matches!(
            self.store.get(alloc, name.app, name.id),
            Err(CardFault::Device(_))
        );
        let listed = lists(alloc, &self.store, &self.objects)?;
        self.go_on();
        let changed = self.objects.with(number, content);
        let same = gives(alloc, &mut self.store, number, &self.objects)?;
        if same {
            return Ok(held && listed);
        }
        counts.landed = counts.landed.saturating_add(1);
        self.objects = changed;
        Ok(held && listed && gives(alloc, &mut self.store, number, &changed)?)
    }

    // What a change was answered, beside what the map answers.
    fn judge(
        &mut self,
        alloc: Global,
        number: usize,
        content: Option<Content>,
        answers: (Result<(), CardFault>, Option<CardFault>),
        counts: &mut Counts,
    ) -> anyhow::Result<bool> {
        match answers {
            (Ok(()), None) => {
                self.objects = self.objects.with(number, content);
                Ok(true)
            }
            (Err(CardFault::Device(_)), None) if self.armed => {
                self.settle(alloc, number, content, counts)
            }
            (Err(fault), Some(wanted)) => {
                counts.refused = counts.refused.saturating_add(1);
                Ok(fault == wanted)
            }
            _ => Ok(false),
        }
    }

    fn put(
        &mut self,
        alloc: Global,
        number: usize,
        content: Content,
        counts: &mut Counts,
    ) -> anyhow::Result<bool> {
        let name = name_of(number)?;
        let wanted = refusal(&self.objects, content);
        let bytes = content.bytes(alloc)?;
        let answer = self.store.put(name.app, name.id, &bytes);
        self.judge(alloc, number, Some(content), (answer, wanted), counts)
    }

    fn remove(
        &mut self,
        alloc: Global,
        number: usize,
        counts: &mut Counts,
    ) -> anyhow::Result<bool> {
        let name = name_of(number)?;
        let wanted = match self.objects.at(number) {
            Some(_) => None,
            None => Some(CardFault::NotFound),
        };
        let answer = self.store.remove(name.app, name.id);
        self.judge(alloc, number, None, (answer, wanted), counts)
    }

    // A read that the card did not answer is made again once the card goes on.
    fn get(&mut self, alloc: Global, number: usize, counts: &mut Counts) -> anyhow::Result<bool> {
        let name = name_of(number)?;
        let answer = self.store.get(alloc, name.app, name.id);
        if self.armed && matches!(answer, Err(CardFault::Device(_))) {
            counts.failed = counts.failed.saturating_add(1);
            self.go_on();
            return gives(alloc, &mut self.store, number, &self.objects);
        }
        found(alloc, answer, self.objects.at(number))
    }

    // The card stops no more.
    fn go_on(&mut self) {
        self.store.stop_after(u64::MAX);
        self.armed = false;
    }

    fn stop(&mut self, exchanges: u64) {
        self.store.stop_after(exchanges);
        self.armed = true;
    }

    // Makes a call. Tells whether it is answered as the map says.
    fn step(&mut self, alloc: Global, step: Step, counts: &mut Counts) -> anyhow::Result<bool> {
        match step {
            Step::Put(number, content) => self.put(alloc, number, content, counts),
            Step::Get(number) => self.get(alloc, number, counts),
            Step::Remove(number) => self.remove(alloc, number, counts),
            Step::List => lists(alloc, &self.store, &self.objects),
            Step::Stop(exchanges) => {
                self.stop(exchanges);
                Ok(true)
            }
        }
    }
}

// Makes the calls of one list, and mounts the card anew at its end.
fn run_list(alloc: Global, choices: &mut Choices, counts: &mut Counts) -> anyhow::Result<()> {
    let mut pair = Pair {
        store: new_store(alloc, 0)?,
        objects: Objects::NONE,
        armed: false,
    };
    for _ in 0..CALLS {
        let step = choices.step();
        counts.calls = counts.calls.saturating_add(1);
        if !pair.step(alloc, step, counts)? {
            counts.differ = counts.differ.saturating_add(1);
        }
    }
    let Pair { store, objects, .. } = pair;
    let mut store = remounted(alloc, store)?;
    if !holds(alloc, &mut store, &objects)? {
        counts.differ = counts.differ.saturating_add(1);
    }
    Ok(())
}

/// Runs so many lists.
pub fn run_lists(alloc: Global, lists: u32) -> anyhow::Result<Counts> {
    let mut counts = Counts::new();
    let mut choices = Choices::new();
    for _ in 0..lists {
        run_list(alloc, &mut choices, &mut counts)?;
    }
    Ok(counts)
}
