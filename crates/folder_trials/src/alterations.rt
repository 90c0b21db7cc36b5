// What becomes of a file of a folder before an audit.

ghost use Rattle.std.specs.Prelude.{◌≡◌, vec_len};

use anyhow::{Context, bail};
use mem_files::MemFile;
use node_image::{FORMAT, block_offset, node_offset};
use tee_ports::{FileRig, Image};

/// What becomes of a file.
#[derive(Clone, Copy)]
pub enum Alteration {
    /// Nothing.
    Kept,
    /// A bit of a block is changed, in both of its versions.
    Block,
    /// A bit of its first node is changed, in both versions.
    Node,
    /// Its second half is cut off.
    Half,
    /// It is a byte longer.
    Longer,
    /// It is empty.
    Missing,
    /// It is that of another store.
    Foreign,
}

/// A file of the folder, and what becomes of it.
#[derive(Clone, Copy)]
pub struct Case {
    pub number: u16,
    pub alteration: Alteration,
}

// The first object's file, the directory's, and that of the card's block.
const OBJECT: u16 = 1;

const DIRECTORY: u16 = 273;

const BLOCK: u16 = 274;

/// What is tried.
pub const CASES: [Case; 16] = [
    Case {
        number: OBJECT,
        alteration: Alteration::Kept,
    },
    Case {
        number: OBJECT,
        alteration: Alteration::Block,
    },
    Case {
        number: OBJECT,
        alteration: Alteration::Node,
    },
    Case {
        number: OBJECT,
        alteration: Alteration::Half,
    },
    Case {
        number: OBJECT,
        alteration: Alteration::Longer,
    },
    Case {
        number: OBJECT,
        alteration: Alteration::Missing,
    },
    Case {
        number: OBJECT,
        alteration: Alteration::Foreign,
    },
    Case {
        number: DIRECTORY,
        alteration: Alteration::Block,
    },
    Case {
        number: DIRECTORY,
        alteration: Alteration::Half,
    },
    Case {
        number: DIRECTORY,
        alteration: Alteration::Longer,
    },
    Case {
        number: DIRECTORY,
        alteration: Alteration::Missing,
    },
    Case {
        number: DIRECTORY,
        alteration: Alteration::Foreign,
    },
    Case {
        number: BLOCK,
        alteration: Alteration::Half,
    },
    Case {
        number: BLOCK,
        alteration: Alteration::Longer,
    },
    Case {
        number: BLOCK,
        alteration: Alteration::Missing,
    },
    Case {
        number: BLOCK,
        alteration: Alteration::Foreign,
    },
];

impl Alteration {
    /// It in words.
    pub fn name(self) -> &'static str {
        match self {
            Alteration::Kept => "as it was exported",
            Alteration::Block => "with a block altered",
            Alteration::Node => "with a node altered",
            Alteration::Half => "cut in half",
            Alteration::Longer => "a byte longer",
            Alteration::Missing => "missing",
            Alteration::Foreign => "of another store",
        }
    }

    // What a file of these bytes reads as then.
    fn of(self, image: Image, other: &MemFile) -> anyhow::Result<Image> {
        let mut bytes = image.into_vec();
        match self {
            Alteration::Kept | Alteration::Block | Alteration::Node => {}
            Alteration::Half => bytes.truncate(bytes.len() / 2),
            Alteration::Longer => bytes.push(0)?,
            Alteration::Missing => bytes.clear(),
            Alteration::Foreign => return Ok(other.save()?),
        }
        Ok(Image::from_vec(bytes))
    }

    // Where a bit is changed.
    fn places(self) -> Option<[u64; 2]> {
        match self {
            Alteration::Block => Some([block_offset(FORMAT, 1, 0), block_offset(FORMAT, 1, 1)]),
            Alteration::Node => Some([node_offset(FORMAT, 1, 0), node_offset(FORMAT, 1, 1)]),
            _ => None,
        }
    }

    // Alters a file.
    fn alter(self, file: &mut MemFile, other: &MemFile) -> anyhow::Result<()> {
        file.restore(&self.of(file.save()?, other)?)?;
        if let Some(places) = self.places() {
            for place in places {
                file.flip(place, &[1]);
            }
        }
        Ok(())
    }
}

impl Case {
    /// Alters the file of the folder. Its other files stay.
    pub fn make(self, folder: &mut Vec<MemFile>, other: &[MemFile]) -> anyhow::Result<()>
        ensures { vec_len folder.new ≡ vec_len folder.old }
    {
        let number = usize::from(self.number);
        let other = other.get(number).context("no file")?;
        match folder.get_mut(number) {
            Some(file) => self.alteration.alter(file, other),
            None => bail!("no file"),
        }
    }
}
