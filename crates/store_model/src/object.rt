//! Objects as the machine keeps them.

ghost use Rattle.std.specs.Prelude.{◌≡◌, ◌≤◌, ◌+◌, ◌++◌, ◌-◌, length, take, drop, replicate, OnOk, OnErr};

use std::marker::Model;
use tee_types::{Bytes, NoMemory};

/// An object of the machine. It is sound, and none of its blocks is bad.
#[derive(Debug, Drop)]
pub struct StoredObject {
    attributes: Bytes,
    content: Vec<u8>,
}

impl Model for StoredObject {
    ghost use Rattle.std.specs.Prelude.{[], ◌≤◌, length, vec_len};
    ghost use Rattle.store_model.specs.Object.{Object, Sound};

    ghost Value = { Object };

    ghost view = { λ a. Sound (record { attributes = a.attributes; bytes = a.content.items; bad = [] }) };

    ghost invariant = { λ a. (length a.attributes ≤ 2048) × (vec_len a.content ≤ 1044480) };
}

impl StoredObject {
    ghost use Rattle.std.specs.Prelude.{◌≡◌, ◌≤◌, ◌+◌, [], length, OnOk, OnErr};
    ghost use Rattle.store_model.specs.Object.{Sound, attributes_of, bytes_of};
    ghost use Rattle.store_model.specs.Data.{written, resized};

    /// A sound object.
    pub fn new(attributes: Bytes, content: Vec<u8>) -> StoredObject
        requires attributes { length attributes ≤ 2048 }
        requires content { length content.items ≤ 1044480 }
        ensures { result ≡ Sound (record { attributes = attributes; bytes = content.items; bad = [] }) }
    {
        StoredObject {
            attributes,
            content,
        }
    }

    /// The object's attributes.
    pub fn attributes(&self) -> &Bytes
        ensures sound { (bytes : _) × (self.now ≡ Sound (record { attributes = result.now; bytes = bytes; bad = [] })) }
        ensures value { result.now ≡ attributes_of self.now }
    {
        &self.attributes
    }

    /// The object's data.
    pub fn content(&self) -> &[u8]
        ensures sound { (attributes : _) × (self.now ≡ Sound (record { attributes = attributes; bytes = result.now; bad = [] })) }
        ensures value { result.now ≡ bytes_of self.now }
        ensures fits { length result.now ≤ 1044480 }
    {
        self.content.as_slice()
    }

    /// Puts these bytes at that position, with zero bytes between the old end and it. A refusal leaves the object.
    pub fn write(&mut self, position: usize, bytes: &[u8]) -> Result<(), NoMemory>
        requires { position + length bytes.now ≤ 1044480 }
        ensures ok { OnOk result (self.new ≡ Sound (record {
          attributes = attributes_of self.old;
          bytes = written (bytes_of self.old) position bytes.now;
          bad = [];
        })) }
        ensures err { OnErr result (self.new ≡ self.old) }
    {
        reach(&mut self.content, position + bytes.len())?;
        overwrite(&mut self.content, position, bytes);
        Ok(())
    }

    /// Sets how many bytes the object has; new ones are zero. A refusal leaves the object.
    pub fn resize(&mut self, size: usize) -> Result<(), NoMemory>
        requires { size ≤ 1044480 }
        ensures ok { OnOk result (self.new ≡ Sound (record {
          attributes = attributes_of self.old;
          bytes = resized (bytes_of self.old) size;
          bad = [];
        })) }
        ensures err { OnErr result (self.new ≡ self.old) }
    {
        self.content.resize(size, 0)
    }
}

/// Appends zero bytes up to that length, where there are fewer bytes.
fn reach(content: &mut Vec<u8>, end: usize) -> Result<(), NoMemory>
    ensures ok { OnOk result (content.new.items ≡ content.old.items ++ replicate (end - length content.old.items) 0) }
    ensures err { OnErr result (content.new.items ≡ content.old.items) }
{
    if content.len() < end {
        content.resize(end, 0)?;
    }
    Ok(())
}

/// Puts these bytes at that position, in place of those that are there.
fn overwrite(content: &mut Vec<u8>, position: usize, bytes: &[u8])
    requires { position + length bytes.now ≤ length content.old.items }
    ensures { content.new.items ≡ take position content.old.items ++ (bytes.now ++ drop (position + length bytes.now) content.old.items) }
{
    content[position..position + bytes.len()].copy_from_slice(bytes);
}
