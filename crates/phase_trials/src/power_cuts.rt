// Power cuts behind phases on threads, while calls of the directory's file or of the card go wrong.

use crate::busy::{CutStore, cut_store};
use crate::table::{cut_head_line, cut_line};
use std::alloc::{AllocError, Global};
use std::sync::Wait;
use std::thread::Threads;
use trial_runs::{Device, Mishap, Trouble};

/// The devices that go wrong.
const DEVICES: [Device; 2] = [Device::Dir, Device::Card];

/// What goes wrong with them.
const MISHAPS: [Mishap; 2] = [Mishap::Stops, Mishap::Fails];

/// At which calls of the device, counted from 0.
const CALLS: u64 = 40;

/// With how many seeds the files crash behind each of them.
const SEEDS: u64 = 4;

/// What was listed behind the cuts.
#[derive(Clone, Copy)]
pub struct Cuts {
    /// How often a store was cut off.
    pub cuts: u64,
    /// How often it held the objects that the calls of the history leave.
    pub told: u64,
    /// How often those that these leave with the call that the card did not confirm.
    pub landed: u64,
    /// How often it held neither, and an object of the history was missing.
    pub lost: u64,
    /// How often it held neither, and had an object that the history does not leave.
    pub invented: u64,
    /// How often the calls of the history had other replies, made one after another.
    pub differ: u64,
}

// Whether a line of some objects is missing in others.
fn misses(listed: &str, objects: &str) -> bool {
    objects
        .lines()
        .any(|object| !listed.lines().any(|line| line == object))
}

impl Cuts {
    /// No cut yet.
    pub fn new() -> Cuts {
        Cuts {
            cuts: 0,
            told: 0,
            landed: 0,
            lost: 0,
            invented: 0,
            differ: 0,
        }
    }

    // Counts what a list shows that is neither of those that may be.
    fn add_wrong(&mut self, listed: &str, told: &str) {
        if misses(listed, told) {
            self.lost = self.lost.saturating_add(1);
        }
        if misses(told, listed) {
            self.invented = self.invented.saturating_add(1);
        }
    }

    // Counts a cut.
    fn add(&mut self, store: &CutStore) {
        let (listed, told) = (store.listed.as_str(), store.told.as_str());
        self.cuts = self.cuts.saturating_add(1);
        if !store.agrees {
            self.differ = self.differ.saturating_add(1);
        }
        if listed == told {
            self.told = self.told.saturating_add(1);
        } else if store
            .landed
            .as_ref()
            .is_some_and(|landed| landed.as_str() == listed)
        {
            self.landed = self.landed.saturating_add(1);
        } else {
            self.add_wrong(listed, told);
        }
    }

    // Counts all cuts of others.
    fn add_all(&mut self, others: &Cuts) {
        self.cuts = self.cuts.saturating_add(others.cuts);
        self.told = self.told.saturating_add(others.told);
        self.landed = self.landed.saturating_add(others.landed);
        self.lost = self.lost.saturating_add(others.lost);
        self.invented = self.invented.saturating_add(others.invented);
        self.differ = self.differ.saturating_add(others.differ);
    }
}

// The cuts with one mishap of one device, at each of its first calls.
fn cuts_of<W: Threads + Wait + Sync>(
    rt: &W,
    alloc: Global,
    device: Device,
    mishap: Mishap,
) -> anyhow::Result<Cuts> {
    let mut cuts = Cuts::new();
    for call in 0..CALLS {
        let trouble = Trouble {
            device,
            mishap,
            call,
        };
        for seed in 0..SEEDS {
            cuts.add(&cut_store(rt, alloc, trouble, seed)?);
        }
    }
    Ok(cuts)
}

// Pushes a line.
fn push_line(text: &mut String, line: &str) -> Result<(), AllocError> {
    text.push_str(line)?;
    text.push_str("\n")
}

// The line that says how often something went wrong.
fn last_line(alloc: Global, all: &Cuts) -> Result<String, AllocError> {
    let Cuts {
        cuts,
        lost,
        invented,
        differ,
        ..
    } = *all;
    format!(in alloc;
        "{cuts} cuts, {lost} lost, {invented} invented, {differ} differ from their replay"
    )
}

/// The lines of the cuts, one for each device and mishap, and the line that says how often something went wrong.
pub fn cut_lines<W: Threads + Wait + Sync>(rt: &W, alloc: Global) -> anyhow::Result<String> {
    let mut text = String::new(alloc);
    let mut all = Cuts::new();
    push_line(&mut text, cut_head_line(alloc)?.as_str())?;
    for device in DEVICES {
        for mishap in MISHAPS {
            let cuts = cuts_of(rt, alloc, device, mishap)?;
            push_line(
                &mut text,
                cut_line(alloc, device, mishap, CALLS, &cuts)?.as_str(),
            )?;
            all.add_all(&cuts);
        }
    }
    push_line(&mut text, last_line(alloc, &all)?.as_str())?;
    Ok(text)
}
