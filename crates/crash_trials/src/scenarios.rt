// The scenarios, each a line of the table.

use crate::altered::{self, Kind};
use crate::base::Base;
use crate::change::{Change, old_bytes};
use crate::outcome::Tally;
use crate::trees::Step;
use crate::trials::Trial;
use crate::work::Work;
use crate::{bad_blocks, copies, files, masks, passed_on, ranges, roots, single_calls};
use std::alloc::Global;

/// What a scenario tries.
#[derive(Clone, Copy)]
enum Tries {
    /// A file itself.
    File,
    /// What stands beside a change of a file.
    Beside,
    /// Single calls of a file.
    Calls,
    /// An object of so many bytes is made.
    Make(u16),
    /// An object of so many bytes is loaded and read.
    Read(u16),
    /// A work on an object of so many bytes.
    Change(u16, Work),
    /// Bytes of these parts are altered.
    Altered(Kind),
    /// Files that end too early.
    Cuts,
    /// References that are not the object's.
    Names,
    /// Files that are older than the reference.
    Older,
    /// Bytes that are altered while they are read.
    Masks,
    /// Changes of an object with a bad block.
    BadBlocks,
    /// Writes at the edges of blocks.
    Writes,
    /// Lengths at the edges of blocks.
    Sizes,
    /// References, beside another program's.
    Roots,
    /// Arms that a tree passes on.
    PassedOn,
    /// Copies in another format.
    Copies,
}

/// A scenario.
#[derive(Clone, Copy)]
pub struct Scenario {
    pub name: &'static str,
    tries: Tries,
}

/// All scenarios, in the order of the table.
pub const ALL: [Scenario; 31] = [
    Scenario {
        name: "a file: written, cut, written past its end",
        tries: Tries::File,
    },
    Scenario {
        name: "a file: what stands beside a write",
        tries: Tries::Beside,
    },
    Scenario {
        name: "a file: single calls, stops, masks, older bytes",
        tries: Tries::Calls,
    },
    Scenario {
        name: "an object is made",
        tries: Tries::Make(5000),
    },
    Scenario {
        name: "an object is loaded and read",
        tries: Tries::Read(5000),
    },
    Scenario {
        name: "object: one byte is written",
        tries: Tries::Change(5000, Work::Object(Change::Write { at: 1, count: 1 })),
    },
    Scenario {
        name: "object: bytes over a block's edge",
        tries: Tries::Change(
            5000,
            Work::Object(Change::Write {
                at: 4090,
                count: 12,
            }),
        ),
    },
    Scenario {
        name: "object: a whole block",
        tries: Tries::Change(
            8192,
            Work::Object(Change::Write {
                at: 4096,
                count: 4096,
            }),
        ),
    },
    Scenario {
        name: "object: bytes behind the end, after a gap",
        tries: Tries::Change(
            5000,
            Work::Object(Change::Write {
                at: 13000,
                count: 5,
            }),
        ),
    },
    Scenario {
        name: "object: cut short",
        tries: Tries::Change(5000, Work::Object(Change::Truncate { size: 100 })),
    },
    Scenario {
        name: "object: cut to nothing",
        tries: Tries::Change(5000, Work::Object(Change::Truncate { size: 0 })),
    },
    Scenario {
        name: "object: grown",
        tries: Tries::Change(5000, Work::Object(Change::Truncate { size: 12288 })),
    },
    Scenario {
        name: "bytes of a tree: a write over an edge",
        tries: Tries::Change(
            904,
            Work::Blocks(Change::Write {
                at: 4090,
                count: 12,
            }),
        ),
    },
    Scenario {
        name: "bytes of a tree: cut to nothing",
        tries: Tries::Change(904, Work::Blocks(Change::Truncate { size: 0 })),
    },
    Scenario {
        name: "tree of five blocks: a page",
        tries: Tries::Change(16_384, Work::Tree(Step::Page)),
    },
    Scenario {
        name: "tree of three blocks: grown to five",
        tries: Tries::Change(8192, Work::Tree(Step::Growth)),
    },
    Scenario {
        name: "tree of five blocks: cut to one",
        tries: Tries::Change(16_384, Work::Tree(Step::Cut)),
    },
    Scenario {
        name: "writes at the edges of blocks",
        tries: Tries::Writes,
    },
    Scenario {
        name: "cuts and growths at the edges of blocks",
        tries: Tries::Sizes,
    },
    Scenario {
        name: "references that another program gives",
        tries: Tries::Roots,
    },
    Scenario {
        name: "arms that trees and their bytes pass on",
        tries: Tries::PassedOn,
    },
    Scenario {
        name: "copies of files in another format",
        tries: Tries::Copies,
    },
    Scenario {
        name: "changes of an object with a bad block",
        tries: Tries::BadBlocks,
    },
    Scenario {
        name: "altered: the head",
        tries: Tries::Altered(Kind::Head),
    },
    Scenario {
        name: "altered: the nodes",
        tries: Tries::Altered(Kind::Nodes),
    },
    Scenario {
        name: "altered: the blocks",
        tries: Tries::Altered(Kind::Blocks),
    },
    Scenario {
        name: "altered: what no reference selects",
        tries: Tries::Altered(Kind::Unselected),
    },
    Scenario {
        name: "altered: while it is read",
        tries: Tries::Masks,
    },
    Scenario {
        name: "files that end too early",
        tries: Tries::Cuts,
    },
    Scenario {
        name: "files older than their reference",
        tries: Tries::Older,
    },
    Scenario {
        name: "references and sizes of others",
        tries: Tries::Names,
    },
];

impl Scenario {
    /// Runs the scenario.
    pub fn tally(&self, alloc: Global) -> anyhow::Result<Tally> {
        match self.tries {
            Tries::File => files::tally(alloc),
            Tries::Beside => files::tally_beside(alloc),
            Tries::Calls => single_calls::tally(alloc),
            Tries::Make(size) => {
                let data = old_bytes(alloc, usize::from(size))?;
                Trial::Make { data }.tally(alloc)
            }
            Tries::Read(size) => {
                let base = Base::new(alloc, size)?;
                Trial::Read { base }.tally(alloc)
            }
            Tries::Change(size, work) => Trial::of_work(alloc, size, work)?.tally(alloc),
            Tries::Altered(kind) => altered::tally(alloc, kind),
            Tries::Cuts => altered::tally_cuts(alloc),
            Tries::Names => altered::tally_names(alloc),
            Tries::Older => altered::tally_older(alloc),
            Tries::Masks => masks::tally(alloc),
            Tries::BadBlocks => bad_blocks::tally(alloc),
            Tries::Writes => ranges::tally_writes(alloc),
            Tries::Sizes => ranges::tally_sizes(alloc),
            Tries::Roots => roots::tally(alloc),
            Tries::PassedOn => passed_on::tally(alloc),
            Tries::Copies => copies::tally(alloc),
        }
    }
}
