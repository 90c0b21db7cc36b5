//! Objects as they are shown.

use tee_types::{AppId, Bytes, ObjectId};
use tree_paths::NodeSet;

/// An object as its file has it.
#[derive(Drop)]
pub enum ShownObject {
    /// It is damaged as a whole: its hashes, its sizes or its attributes fail.
    Damaged,
    /// It is sound, but for its bad blocks.
    Sound {
        /// Its attributes.
        attributes: Bytes,
        /// Its data. The bytes of a bad block are zero.
        bytes: Bytes,
        /// The numbers of the bad blocks, from 1 on. Block k has the bytes from 4,096 * (k - 1) on.
        bad: NodeSet,
    },
}

/// An object of a store, with its name.
#[derive(Drop)]
pub struct Shown {
    /// The application that it belongs to.
    pub app: AppId,
    /// Its identifier there.
    pub id: ObjectId,
    /// How many bytes of data it has, as the directory says.
    pub size: u32,
    /// What its file has.
    pub object: ShownObject,
}
