// What names an object.

ghost use Rattle.std.specs.Prelude.{◌≡◌, ◌<◌, ◌≤◌};
ghost use Rattle.dir_records.specs.Form.{HasForm};

use dir_records::DirEntry;
use node_image::{FORMAT, RootRef};
use tee_types::{AppId, ObjectId};
use uuid::Uuid;

/// The reference and the sizes of an object.
#[derive(Clone, Copy)]
pub struct Named {
    pub root: RootRef,
    /// How many bytes of data.
    pub size: u32,
    /// How many bytes of attributes.
    pub attributes: u16,
    ghost formed: { (root.version < 2) × (root.format ≡ 2) × (size ≤ 1044480) × (attributes ≤ 2048) },
}

impl Named {
    /// None where the numbers are no object's.
    pub fn new(root: RootRef, size: u32, attributes: u16) -> Option<Named> {
        if root.version > 1 || root.format != FORMAT || size > 1_044_480 || attributes > 2048 {
            return None;
        }
        Some(Named {
            root,
            size,
            attributes,
        })
    }

    /// The entry of the directory that names it.
    pub fn entry(&self) -> DirEntry
        ensures form { HasForm result }
        ensures format { result.format ≡ 2 }
    {
        let named = *self;
        let hash = named.root.hash;
        DirEntry {
            app: AppId::from_uuid(Uuid::from_bytes([0xab; 16])),
            id: ObjectId::new(b"key").unwrap(),
            version: named.root.version,
            file: 1,
            hash,
            size: named.size,
            attributes: named.attributes,
            format: FORMAT,
            generation: 0,
        }
    }
}
