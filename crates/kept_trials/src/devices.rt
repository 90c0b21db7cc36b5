// The devices of a store, over files in memory.

ghost use Rattle.std.specs.Prelude.{◌≡◌, vec_len, IfOk};
ghost use Rattle.tee_types.specs.Limits.{file_count};

use crate::arms::Arm;
use crate::world::{Place, World};
use mem_files::MemFile;
use std::alloc::{AllocError, Global};
use tee_ports::{FileRig, Image};
use tee_types::BENCH_FILES;

/// The files of a store, the one that keeps its card, and that of an exported block.
#[derive(Drop)]
pub struct Devices {
    pub files: Vec<MemFile>,
    pub card: MemFile,
    pub block: MemFile,
}

// A file with these bytes.
fn file_of(alloc: Global, image: &Image) -> Result<MemFile, AllocError> {
    let mut file = MemFile::new(alloc);
    file.restore(image)?;
    Ok(file)
}

// The files of a store, with these bytes.
fn files_of(alloc: Global, images: &[Image]) -> Result<Vec<MemFile>, AllocError>
    ensures { IfOk result (λ files. vec_len files ≡ file_count) }
{
    let mut files = Vec::with_capacity(alloc, BENCH_FILES)?;
    for number in 0..BENCH_FILES {
        let file = match images.get(number) {
            Some(image) => file_of(alloc, image)?,
            None => MemFile::new(alloc),
        };
        files.push(file)?;
    }
    Ok(files)
}

impl Devices {
    /// Devices with these bytes, on which nothing is armed.
    pub fn of(alloc: Global, world: &World) -> Result<Devices, AllocError>
        ensures { IfOk result (λ devices. vec_len devices.files ≡ file_count) }
    {
        Ok(Devices {
            files: files_of(alloc, world.files.as_slice())?,
            card: file_of(alloc, &world.card)?,
            block: file_of(alloc, &world.block)?,
        })
    }

    /// Arms a file.
    pub fn arm(&mut self, place: Place, arm: Arm) -> Result<(), AllocError>
        ensures { vec_len self.new.files ≡ vec_len self.old.files }
    {
        match place {
            Place::File(number) => match self.files.get_mut(usize::from(number)) {
                Some(file) => arm.set(file),
                None => Ok(()),
            },
            Place::Card => arm.set(&mut self.card),
            Place::Block => arm.set(&mut self.block),
        }
    }

    /// How many calls of a file were made since it was armed.
    pub fn calls(&self, place: Place) -> u64 {
        match place {
            Place::File(number) => match self.files.get(usize::from(number)) {
                Some(file) => file.calls(),
                None => 0,
            },
            Place::Card => self.card.calls(),
            Place::Block => self.block.calls(),
        }
    }

    /// How many bytes were written to the directory's file.
    pub fn directory_written(&self) -> u64 {
        match self.files.get(usize::from(Place::DIRECTORY.number())) {
            Some(file) => file.written(),
            None => 0,
        }
    }

    /// The power fails.
    pub fn crash(&mut self, seed: u64) -> Result<(), AllocError> {
        for number in 0..self.files.len() {
            if let Some(file) = self.files.get_mut(number) {
                file.crash(seed, (number % BENCH_FILES) as u16)?;
            }
        }
        self.card.crash(seed, Place::Card.number())?;
        self.block.crash(seed, Place::Block.number())
    }

    /// The bytes of the files, as a read gives them.
    pub fn world(&self, alloc: Global) -> Result<World, AllocError> {
        let mut files = Vec::with_capacity(alloc, BENCH_FILES)?;
        for file in self.files.iter() {
            files.push(file.save()?)?;
        }
        Ok(World {
            files,
            card: self.card.save()?,
            block: self.block.save()?,
        })
    }
}
