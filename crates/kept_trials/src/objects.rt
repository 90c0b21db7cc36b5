// Objects that are put into a store, and those that are found in it.

use anyhow::bail;
use object_calls::{ObjectName, Opening, Shown, ShownObject};
use rpmb_card::RpmbPort;
use std::alloc::{AllocError, Global};
use tee_ports::StoreFile;
use tee_types::{Bytes, MAX_OBJECTS, ObjectId};

/// The names that objects have here, in their order.
#[derive(Clone, Copy, PartialEq, Eq)]
pub enum Name {
    A,
    B,
    C,
}

impl Name {
    fn text(self) -> &'static str {
        match self {
            Name::A => "a",
            Name::B => "b",
            Name::C => "c",
        }
    }

    /// The identifier.
    pub fn id(self) -> anyhow::Result<ObjectId> {
        match ObjectId::new(self.text().as_bytes()) {
            Ok(id) => Ok(id),
            Err(_) => bail!("no identifier"),
        }
    }
}

/// An object that is put: so many bytes, all of them equal.
#[derive(Clone, Copy)]
pub struct Object {
    pub name: Name,
    pub byte: u8,
    pub size: u16,
}

impl Object {
    /// Its data.
    pub fn data(self, alloc: Global) -> Result<Bytes, AllocError> {
        Ok(Bytes::from_vec(vec![in alloc; self.byte; usize::from(self.size)]?))
    }

    /// Whether these are its data.
    pub fn has(self, data: &[u8]) -> bool {
        data.len() == usize::from(self.size) && data.iter().all(|byte| *byte == self.byte)
    }
}

/// How what is found stands beside what is to be there.
#[derive(Clone, Copy, PartialEq, Eq)]
pub enum Standing {
    /// It is the same.
    Same,
    /// It is told as damaged, or is the same.
    Damaged,
    /// It is something else.
    Other,
}

// How an object that was found stands beside one that was put.
fn standing_of(found: &Shown, object: Object) -> Standing {
    if found.id.bytes() != object.name.text().as_bytes() {
        return Standing::Other;
    }
    match &found.object {
        ShownObject::Damaged => Standing::Damaged,
        ShownObject::Sound { bad, .. } if bad.count() > 0 => Standing::Damaged,
        ShownObject::Sound { bytes, .. } if object.has(bytes.as_slice()) => Standing::Same,
        ShownObject::Sound { .. } => Standing::Other,
    }
}

/// All objects of a store, in the order of their names.
#[derive(Drop)]
pub struct Contents {
    found: Vec<Shown>,
}

impl Contents {
    /// How they stand beside those that are to be there.
    pub fn standing(&self, objects: &[Object]) -> Standing {
        if self.found.len() != objects.len() {
            return Standing::Other;
        }
        let mut all = Standing::Same;
        for (found, object) in self.found.iter().zip(objects.iter()) {
            match standing_of(found, *object) {
                Standing::Same => {}
                Standing::Damaged => all = Standing::Damaged,
                Standing::Other => return Standing::Other,
            }
        }
        all
    }

    /// Whether they are these.
    pub fn are(&self, objects: &[Object]) -> bool {
        self.standing(objects) == Standing::Same
    }
}

/// Reads all objects of a store.
pub fn read_contents<F: StoreFile + Drop, R: RpmbPort + Drop>(
    alloc: Global,
    opening: &mut Opening<F, R>,
) -> anyhow::Result<Contents> {
    let mut found = Vec::new(alloc);
    let mut last = None;
    for _ in 0..MAX_OBJECTS + 1 {
        match opening.next_object(last) {
            Ok(Some(shown)) => {
                last = Some(ObjectName {
                    app: shown.app,
                    id: shown.id,
                });
                found.push(shown)?;
            }
            Ok(None) => return Ok(Contents { found }),
            Err(fault) => bail!("an object is not read: {fault:?}"),
        }
    }
    bail!("more objects than a store has")
}
