// The references of trees, beside those that a program in Python gives over the libraries `hashlib` and `cryptography`.

use crate::arms::Arm;
use crate::base::Base;
use crate::change::Change;
use crate::outcome::{Outcome, Tally};
use crate::trees::Step;
use crate::work::Work;
use node_image::RootRef;
use std::alloc::Global;

/// The root's hash once an object of so many bytes was made, and after a work on it.
struct Case {
    size: u16,
    work: Work,
    made: [u128; 2],
    changed: [u128; 2],
}

const CASES: [Case; 3] = [
    Case {
        size: 5000,
        work: Work::Object(Change::Write { at: 1, count: 1 }),
        made: [
            0x2a50c9b7e07c690a681249d650c958fb,
            0x3d1f05994c3bae89bd4848be478fadc7,
        ],
        changed: [
            0xa966124e86bc9332dd068f1e1847ec5d,
            0x24bb275cdc9aa04c250b651699447393,
        ],
    },
    Case {
        size: 16_384,
        work: Work::Tree(Step::Page),
        made: [
            0xa684b0a17aaccc62675b69c7309de78f,
            0xcbbdd0b1f47f1e4476b20ce91cba0cd3,
        ],
        changed: [
            0x0839594949748139ce1d1d94309badb2,
            0xeefb38bee89200907cb8d513dd859727,
        ],
    },
    Case {
        size: 16_384,
        work: Work::Tree(Step::Cut),
        made: [
            0xa684b0a17aaccc62675b69c7309de78f,
            0xcbbdd0b1f47f1e4476b20ce91cba0cd3,
        ],
        changed: [
            0x6a4be8f4802bf74fbb96afcd5dd73ac1,
            0x5bf738230729d78fdde1f570a8f948b0,
        ],
    },
];

fn hash_of(halves: [u128; 2]) -> [u8; 32] {
    let mut hash = [0; 32];
    hash[..16].copy_from_slice(&halves[0].to_be_bytes());
    hash[16..].copy_from_slice(&halves[1].to_be_bytes());
    hash
}

// Whether the reference has that version and that hash.
fn is_root(root: RootRef, version: u8, halves: [u128; 2]) -> bool {
    root.version == version && root.hash == hash_of(halves)
}

/// Makes each object, does the work, and compares both references.
pub fn tally(alloc: Global) -> anyhow::Result<Tally> {
    let mut tally = Tally::new();
    for case in &CASES {
        let base = Base::new(alloc, case.size)?;
        let (_, next) = case
            .work
            .done(alloc, base.file(alloc)?, &base.named, Arm::NONE);
        let is_same = match next {
            Some(next) => {
                is_root(base.named.root, 0, case.made) && is_root(next.root, 1, case.changed)
            }
            None => false,
        };
        tally.add(if is_same {
            Outcome::After
        } else {
            Outcome::Lost
        });
    }
    Ok(tally)
}
