//! What is decided of a call.

use dir_index::Held;
use store_model::Handle;
use tee_types::Reply;

/// What is decided of a call.
#[derive(Debug, Drop)]
pub enum Decision<T> {
    /// It is answered so. It is no commit, and no object's file has a part in the answer.
    Answered(Reply),
    /// Nothing refuses it so far; what is needed to do it.
    Needs(T),
}

/// The entry that a new object takes.
#[derive(Clone, Copy, Debug)]
pub enum NewPlace {
    /// That of the object that it replaces, on which no handle is open.
    Replaces(Held),
    /// The free one of this index, below 256.
    Adds(u16),
}

/// A live handle, and the entry of its object.
#[derive(Clone, Copy, Debug)]
pub struct OpenObject {
    /// The handle.
    pub handle: Handle,
    /// The entry of its object.
    pub held: Held,
}
