// What lies in the files of a store that is closed.

use kept_store::{Seen, seen_of};
use std::alloc::{AllocError, Global};
use tee_ports::Image;
use tee_types::{BENCH_FILES, DIRECTORY_FILE};

/// The place of a file.
#[derive(Clone, Copy, PartialEq, Eq)]
pub enum Place {
    /// Among the files of the store, by its number.
    File(u16),
    /// The file that keeps the card.
    Card,
    /// The file of an exported block.
    Block,
}

impl Place {
    /// The directory's file.
    pub const DIRECTORY: Place = Place::File(DIRECTORY_FILE);

    /// The files that anything is written to here.
    pub const USED: [Place; 6] = [
        Place::Card,
        Place::DIRECTORY,
        Place::File(1),
        Place::File(2),
        Place::File(3),
        Place::Block,
    ];

    /// A number of its own, for what a crash leaves.
    pub fn number(self) -> u16 {
        match self {
            Place::File(number) => number,
            Place::Block => 274,
            Place::Card => 275,
        }
    }
}

/// The bytes of the files of a store that is closed.
#[derive(Drop)]
pub struct World {
    /// The files of the store, by their numbers.
    pub files: Vec<Image>,
    pub card: Image,
    pub block: Image,
}

// An image of no bytes.
fn no_bytes(alloc: Global) -> Image {
    Image::from_vec(Vec::new(alloc))
}

impl World {
    /// Files without bytes.
    pub fn blank(alloc: Global) -> Result<World, AllocError> {
        let mut files = Vec::with_capacity(alloc, BENCH_FILES)?;
        for _ in 0..BENCH_FILES {
            files.push(no_bytes(alloc))?;
        }
        Ok(World {
            files,
            card: no_bytes(alloc),
            block: no_bytes(alloc),
        })
    }

    /// The bytes of a file.
    pub fn bytes(&self, place: Place) -> &[u8] {
        match place {
            Place::File(number) => match self.files.get(usize::from(number)) {
                Some(image) => image.bytes(),
                None => &[],
            },
            Place::Card => self.card.bytes(),
            Place::Block => self.block.bytes(),
        }
    }

    // Whether the file has bytes.
    fn has_bytes(&self, place: Place) -> bool {
        !self.bytes(place).is_empty()
    }

    /// What lies there, as one sees it who opens the store.
    pub fn seen(&self) -> Seen {
        seen_of(
            self.has_bytes(Place::Card),
            self.has_bytes(Place::Block),
            self.has_bytes(Place::DIRECTORY),
        )
    }

    /// The same bytes once more.
    pub fn copy(&self, alloc: Global) -> Result<World, AllocError> {
        self.with(alloc, Place::Block, self.block.bytes())
    }

    /// The same, where a file has these bytes.
    pub fn with(&self, alloc: Global, place: Place, bytes: &[u8]) -> Result<World, AllocError> {
        let mut files = Vec::with_capacity(alloc, BENCH_FILES)?;
        for number in 0..BENCH_FILES {
            let file = Place::File(number as u16);
            files.push(self.image_with(alloc, file, place, bytes)?)?;
        }
        Ok(World {
            files,
            card: self.image_with(alloc, Place::Card, place, bytes)?,
            block: self.image_with(alloc, Place::Block, place, bytes)?,
        })
    }

    // A copy of a file, or these bytes where it is that one.
    fn image_with(
        &self,
        alloc: Global,
        file: Place,
        place: Place,
        bytes: &[u8],
    ) -> Result<Image, AllocError> {
        let copied = if file == place {
            bytes
        } else {
            self.bytes(file)
        };
        Ok(Image::from_vec(copied.to_vec(alloc)?))
    }

    /// The same, where a bit of a byte of a file is another.
    pub fn with_bit(&self, alloc: Global, place: Place, at: usize) -> Result<World, AllocError> {
        let mut bytes = self.bytes(place).to_vec(alloc)?;
        if let Some(byte) = bytes.get_mut(at) {
            *byte ^= 1;
        }
        self.with(alloc, place, bytes.as_slice())
    }

    /// Whether each file has the same bytes.
    pub fn is(&self, other: &World) -> bool {
        for number in 0..BENCH_FILES {
            let place = Place::File(number as u16);
            if self.bytes(place) != other.bytes(place) {
                return false;
            }
        }
        self.card.bytes() == other.card.bytes() && self.block.bytes() == other.block.bytes()
    }
}
