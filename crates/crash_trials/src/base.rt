// An object that stands in a file.

use crate::change::old_bytes;
use crate::named::Named;
use crate::objects::made;
use anyhow::Context;
use mem_files::MemFile;
use std::alloc::{AllocError, Global};
use tee_ports::{FileRig, Image, ListEntropy};

/// The attributes of each object here.
pub const ATTRIBUTES: [u8; 2] = [0xa0, 0xa1];

/// A file at rest with one object, and what it holds.
#[derive(Drop)]
pub struct Base {
    image: Image,
    pub named: Named,
    /// The data.
    pub data: Vec<u8>,
    /// The bytes of the tree: a block with the attributes, and the data.
    pub whole: Vec<u8>,
}

// The block of the attributes, and the data.
fn whole_of(alloc: Global, data: &[u8]) -> Result<Vec<u8>, AllocError> {
    let mut whole = ATTRIBUTES.to_vec(alloc)?;
    whole.resize(4096, 0)?;
    whole.extend_from_slice(data)?;
    Ok(whole)
}

impl Base {
    /// The file of an object with so many old bytes.
    pub fn new(alloc: Global, size: u16) -> anyhow::Result<Base> {
        let data = old_bytes(alloc, usize::from(size))?;
        let mut entropy = ListEntropy::new([0; 16]);
        let (file, named) = made(alloc, MemFile::new(alloc), &data, &mut entropy);
        Ok(Base {
            image: file.save()?,
            named: named.context("no object was made")?,
            whole: whole_of(alloc, &data)?,
            data,
        })
    }

    /// The file.
    pub fn file(&self, alloc: Global) -> Result<MemFile, AllocError> {
        let mut file = MemFile::new(alloc);
        file.restore(&self.image)?;
        Ok(file)
    }

    /// How many bytes the file has.
    pub fn file_len(&self) -> usize {
        self.image.bytes().len()
    }
}
