//! An entry and its bytes.

ghost use Rattle.std.specs.Prelude.{◌≡◌, ◌≤◌, take, Some, Ok, IfOk, IfSome};
ghost use Rattle.byte_fields.specs.Field.{field};
ghost use Rattle.tee_types.specs.Identifier.{padded};
ghost use Rattle.dir_records.specs.Layout.{entry_bytes, entry_of, id_length};
ghost use Rattle.dir_records.specs.Form.{HasForm, record_of};

use crate::form::{first_fault, is_free};
use byte_fields::{field, put};
use tee_types::{AppId, ObjectId};
use uuid::Uuid;

/// The entry of an object in the directory.
#[derive(Clone, Copy, PartialEq, Eq, Debug)]
pub struct DirEntry {
    /// Bytes 0 to 15: the application.
    pub app: AppId,
    /// Bytes 16 to 79, with zero bytes behind it, and its length in byte 80: the object's identifier.
    pub id: ObjectId,
    /// Byte 81: the version of the root of the object's tree, 0 or 1.
    pub version: u8,
    /// Bytes 82 and 83: the number of the file that holds the object, 1 to 272.
    pub file: u16,
    /// Bytes 84 to 115: the hash of the root of the object's tree.
    pub hash: [u8; 32],
    /// Bytes 116 to 119: how many bytes of data the object has, at most 1,044,480.
    pub size: u32,
    /// Bytes 120 and 121: how many bytes of attributes the object has, at most 2,048.
    pub attributes: u16,
    /// Byte 122: the format of the object's file, 1 or 2.
    pub format: u8,
    /// Bytes 123 to 126: the card's write counter after the commit that made the object.
    pub generation: u32,
}

/// These bytes are neither free nor an entry: a field is outside its form.
#[derive(Clone, Copy, PartialEq, Eq, Debug)]
pub struct BadRecord {
    /// Where the first such field stands, in the order 80, 16, 81, 82, 116, 120, 122, 127.
    pub offset: u8,
}

/// The identifier that bytes hold whose length for one is 1 to 64.
fn identifier(bytes: &[u8; 128]) -> Option<ObjectId>
    requires { (1 ≤ id_length bytes.now) × (id_length bytes.now ≤ 64) }
    ensures { result ≡ Some (take (id_length bytes.now) (field 16 64 bytes.now)) }
{
    let name: [u8; 64] = field(bytes, 16);
    ObjectId::new(&name[..bytes[80] as usize]).ok()
}

/// The identifier in 64 bytes, with zero bytes behind it.
fn name_of(id: &ObjectId) -> [u8; 64]
    ensures { result ≡ padded id.now }
{
    let mut name = [0; 64];
    put(&mut name, 0, id.bytes());
    name
}

/// The entry of that identifier, and of what the bytes hold besides.
fn entry_with(id: ObjectId, bytes: &[u8; 128]) -> DirEntry
    requires { id ≡ take (id_length bytes.now) (field 16 64 bytes.now) }
    ensures { result ≡ entry_of bytes.now }
{
    DirEntry {
        app: AppId::from_uuid(Uuid::from_bytes(field(bytes, 0))),
        id,
        version: bytes[81],
        file: u16::from_be_bytes(field(bytes, 82)),
        hash: field(bytes, 84),
        size: u32::from_be_bytes(field(bytes, 116)),
        attributes: u16::from_be_bytes(field(bytes, 120)),
        format: bytes[122],
        generation: u32::from_be_bytes(field(bytes, 123)),
    }
}

/// The entry that bytes hold which have the form of one.
fn read(bytes: &[u8; 128]) -> Option<DirEntry>
    requires { (1 ≤ id_length bytes.now) × (id_length bytes.now ≤ 64) }
    ensures { result ≡ Some (entry_of bytes.now) }
{
    let id = identifier(bytes)?;
    Some(entry_with(id, bytes))
}

impl DirEntry {
    /// The 128 bytes of the entry.
    pub fn to_bytes(&self) -> [u8; 128]
        ensures bytes { result ≡ entry_bytes self.now }
        // Read, they are the entry again where it has its form.
        ensures read { HasForm self.now → record_of result ≡ Ok (Some self.now) }
    {
        let (file, size) = (self.file, self.size);
        let (attributes, generation) = (self.attributes, self.generation);
        let mut bytes = [0; 128];
        put(&mut bytes, 0, &self.app.bytes());
        put(&mut bytes, 16, &name_of(&self.id));
        put(&mut bytes, 80, &[self.id.bytes().len() as u8, self.version]);
        put(&mut bytes, 82, &file.to_be_bytes());
        put(&mut bytes, 84, &self.hash);
        put(&mut bytes, 116, &size.to_be_bytes());
        put(&mut bytes, 120, &attributes.to_be_bytes());
        put(&mut bytes, 122, &[self.format]);
        put(&mut bytes, 123, &generation.to_be_bytes());
        put(&mut bytes, 127, &[0]);
        bytes
    }

    /// The entry that 128 bytes hold, none where all of them are zero.
    ///
    /// # Errors
    ///
    /// `BadRecord` where a field is outside its form: the length of the identifier (80) is not 1 to 64, a byte behind the
    /// identifier (16) is not zero, the version (81) is above 1, the file (82) is not 1 to 272, the size (116) is
    /// above 1,044,480, the size of the attributes (120) is above 2,048, the format (122) is neither 1 nor 2, or the last
    /// byte (127) is not zero. It names the first of these, in this order.
    pub fn from_bytes(bytes: &[u8; 128]) -> Result<Option<DirEntry>, BadRecord>
        ensures record { result ≡ record_of bytes.now }
        // What is read has its form, and written it is the bytes again.
        ensures written { IfOk result (λ entry. IfSome entry (λ e. HasForm e × (entry_bytes e ≡ bytes.now))) }
    {
        if is_free(bytes) {
            return Ok(None);
        }
        match first_fault(bytes) {
            Some(offset) => Err(BadRecord { offset }),
            None => Ok(read(bytes)),
        }
    }
}
