// The calls of a list, as they are drawn.

use crate::objects::{Content, NAMES};
use seed_words::SeedEntropy;
use tee_ports::Entropy;

/// A call of a store, or that its card stops.
#[derive(Clone, Copy)]
pub enum Step {
    Put(usize, Content),
    Get(usize),
    Remove(usize),
    List,
    /// Behind so many exchanges.
    Stop(u64),
}

/// What is drawn.
#[derive(Drop)]
pub struct Choices {
    entropy: SeedEntropy,
}

// How many bytes an object has that is put: mostly few, sometimes as many as it may have, or one more.
fn size_of(kind: u8, low: u8, high: u8) -> u16 {
    match kind % 32 {
        0 => 16384,
        1 => 16385,
        2..=5 => u16::from(high) * 16 + u16::from(low),
        6..=15 => u16::from(low),
        _ => u16::from(low) % 4 * 256 + u16::from(high) % 2,
    }
}

impl Choices {
    pub fn new() -> Choices {
        Choices {
            entropy: SeedEntropy::from_seed(&[0x19; 32]),
        }
    }

    /// The next call.
    pub fn step(&mut self) -> Step {
        let mut drawn = [0; 16];
        let _ = self.entropy.draw(&mut drawn);
        let name = usize::from(drawn[1]) % NAMES;
        let content = Content {
            size: size_of(drawn[2], drawn[3], drawn[4]),
            first: drawn[5],
        };
        match drawn[0] % 16 {
            0..=6 => Step::Put(name, content),
            7..=9 => Step::Get(name),
            10..=12 => Step::Remove(name),
            13 => Step::List,
            _ => Step::Stop(u64::from(drawn[6] % 16)),
        }
    }
}
