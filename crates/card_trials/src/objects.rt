// Names, objects and the finite map that a store is compared with.

ghost use Rattle.std.specs.Prelude.{◌≤◌};

use std::alloc::{AllocError, Global};
use tee_types::{AppId, BadId, ObjectId};
use uuid::Uuid;

/// How many names there are: four objects of each of two applications.
pub const NAMES: usize = 8;

/// The most bytes of an object.
const MOST_BYTES: u16 = 16384;

/// The blocks of a card that objects may have.
const BLOCKS: u16 = 254;

// How many bytes the identifier of that number has.
fn length_of(number: usize) -> usize
    ensures { result ≤ 64 }
{
    match number % 4 {
        0 => 1,
        1 => 2,
        2 => 63,
        _ => 64,
    }
}

/// The name of an object. In the order of the numbers they are sorted.
#[derive(Clone, Copy)]
pub struct Name {
    pub app: AppId,
    pub id: ObjectId,
}

impl Name {
    /// The name of that number.
    pub fn of(number: usize) -> Result<Name, BadId> {
        let mut app = [0; 16];
        app[0] = if number < 4 { 1 } else { 2 };
        let letters = [0x61; 64];
        Ok(Name {
            app: AppId::from_uuid(Uuid::from_bytes(app)),
            id: ObjectId::new(&letters[..length_of(number)])?,
        })
    }
}

/// The bytes of an object: so many, each of them one more than the one before it.
#[derive(Clone, Copy, PartialEq, Eq)]
pub struct Content {
    pub size: u16,
    pub first: u8,
}

impl Content {
    /// The bytes.
    pub fn bytes(self, alloc: Global) -> Result<Vec<u8>, AllocError> {
        let mut bytes = Vec::with_capacity(alloc, usize::from(self.size))?;
        let mut next = self.first;
        for _ in 0..self.size {
            bytes.push(next)?;
            next = next.wrapping_add(1);
        }
        Ok(bytes)
    }

    /// There are more than an object may have.
    pub fn is_too_large(self) -> bool {
        self.size > MOST_BYTES
    }

    /// How many blocks an object has that has these bytes.
    pub fn blocks(self) -> u16 {
        self.size / 256 + u16::from(self.size % 256 > 0) + 1
    }
}

/// A finite map: what stands under each name.
#[derive(Clone, Copy, PartialEq, Eq)]
pub struct Objects {
    held: [Option<Content>; NAMES],
}

impl Objects {
    /// No objects.
    pub const NONE: Objects = Objects {
        held: [None; NAMES],
    };

    /// What stands under the name of that number.
    pub fn at(&self, number: usize) -> Option<Content> {
        self.held.get(number).copied().flatten()
    }

    /// These with another object there, or with none.
    pub fn with(mut self, number: usize, content: Option<Content>) -> Objects {
        if let Some(held) = self.held.get_mut(number) {
            *held = content;
        }
        self
    }

    /// How many blocks of the card are free.
    pub fn free_blocks(&self) -> u16 {
        let mut free = BLOCKS;
        for held in &self.held {
            if let Some(content) = held {
                free = free.saturating_sub(content.blocks());
            }
        }
        free
    }
}
