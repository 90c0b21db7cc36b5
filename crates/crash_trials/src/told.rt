// What a load and a read tell.

use crate::base::ATTRIBUTES;
use crate::named::Named;
use crate::objects::{data_of, load};
use htree_file::TreeFault;
use mem_files::MemFile;
use object_file::ObjectFault;
use std::alloc::Global;

/// What a load of an object and a read of its data tell.
#[derive(Clone, Copy, Debug, PartialEq, Eq)]
pub enum Told {
    /// The right bytes.
    Opens,
    /// Other bytes.
    OtherBytes,
    /// No head stands where it is to.
    BadHead,
    /// A node has not the hash that is wanted of it.
    Damaged,
    /// The file ends too early.
    Short,
    /// This block has not the tag of its node.
    BadTag(u32),
    /// The head's length is not what the object's size wants.
    WrongSize,
    /// A call failed.
    Failed,
}

fn told_of(fault: &TreeFault) -> Told {
    match fault {
        TreeFault::BadHead { .. } => Told::BadHead,
        TreeFault::Damaged { want, found, .. } if want != found => Told::Damaged,
        TreeFault::Short { end, need } if end < need => Told::Short,
        TreeFault::BadTag { block, .. } => Told::BadTag(*block),
        TreeFault::Failed { .. } => Told::Failed,
        _ => Told::OtherBytes,
    }
}

fn told_of_load(fault: &ObjectFault) -> Told {
    match fault {
        ObjectFault::Tree(fault) => told_of(fault),
        ObjectFault::WrongSize { .. } => Told::WrongSize,
    }
}

/// What a load and a read of all data tell, where these are the data.
pub fn answer_of(alloc: Global, file: MemFile, named: &Named, data: &[u8]) -> Told {
    let mut object = match load(alloc, file, named) {
        Ok(object) => object,
        Err(broken) => return told_of_load(&broken.fault),
    };
    match data_of(alloc, &mut object) {
        Ok(bytes) => {
            if bytes.as_slice() == data && object.attributes() == ATTRIBUTES.as_slice() {
                Told::Opens
            } else {
                Told::OtherBytes
            }
        }
        Err(fault) => told_of(&fault),
    }
}
