//! The block of a live entry.

ghost use Rattle.std.specs.Prelude.{◌≡◌, ◌≤◌, length, take, Some, None};
ghost use Rattle.byte_fields.specs.Field.{field};
ghost use Rattle.store_model.specs.Name.{name_eq};
ghost use Rattle.card_maps.specs.Form.{data_blocks, front_fault, id_length, name_in, numbers_in, size_in};
ghost use Rattle.card_maps.specs.Puts.{entry_block};
ghost use Rattle.card_maps.specs.Tables.{entry_name, named};
ghost use Rattle.card_maps.specs.Plans.{IsFit};

use crate::CardName;
use crate::form::size_in;
use byte_fields::{field, put};
use std::marker::Model;
use tee_types::{AppId, ObjectId};
use uuid::Uuid;

/// How many bytes a block has.
pub const BLOCK: usize = 256;

/// How many blocks hold the data of so many bytes.
pub fn data_blocks(size: u16) -> usize
    ensures { result ≡ data_blocks size }
{
    (usize::from(size) + 255) / BLOCK
}

/// The block of a live entry: it names an object and the blocks of its data. A contract sees its bytes.
#[derive(Clone, Copy)]
pub struct CardEntry {
    block: [u8; 256],
}

impl Model for CardEntry {
    ghost use Rattle.std.specs.Prelude.{◌≡◌, ℕ, List, None};
    ghost use Rattle.card_maps.specs.Form.{front_fault};

    ghost Value = { List ℕ };

    ghost view = { λ e. e.block };

    ghost invariant = { λ e. front_fault e.block ≡ None };

    ghost inverse = { λ block. record { block = block } };
}

impl CardEntry {
    /// The entry of a block whose front has its form.
    pub fn of_block(block: &[u8; 256]) -> CardEntry
        requires { front_fault block.now ≡ None }
        ensures { result ≡ block.now }
    {
        CardEntry { block: *block }
    }

    /// A new entry: the object's name and size, and the blocks of its data.
    pub fn new(app: AppId, id: ObjectId, size: u16, numbers: &[u8]) -> CardEntry
        requires small { size ≤ 16384 }
        requires whole { length numbers.now ≡ data_blocks size }
        ensures block { result ≡ entry_block (named app id) size numbers.now }
        ensures fit { IsFit (named app id) }
    {
        let mut block = [0; 256];
        put(&mut block, 0, &app.bytes());
        put(&mut block, 16, id.bytes());
        put(&mut block, 80, &[id.bytes().len() as u8, 0]);
        put(&mut block, 82, &size.to_be_bytes());
        put(&mut block, 84, numbers);
        CardEntry { block }
    }

    /// Its bytes.
    pub fn block(&self) -> [u8; 256]
        ensures { result ≡ self.now }
    {
        self.block
    }

    /// How many bytes the object has.
    pub fn size(&self) -> u16
        ensures value { result ≡ size_in self.now }
        ensures small { result ≤ 16384 }
    {
        size_in(&self.block)
    }

    /// The numbers of the blocks of its data.
    pub fn numbers(&self) -> &[u8]
        ensures value { result.now ≡ numbers_in self.now }
        ensures count { length result.now ≡ data_blocks (size_in self.now) }
        ensures few { length result.now ≤ 64 }
    {
        &self.block[84..84 + data_blocks(self.size())]
    }

    /// The object's name, with its size.
    pub fn name(&self) -> CardName
        ensures { result ≡ entry_name self.now }
    {
        CardName {
            app: AppId::from_uuid(Uuid::from_bytes(field(&self.block, 0))),
            id: identifier(&self.block).unwrap(),
            size: self.size(),
        }
    }
}

// The identifier in a block whose length for one is 1 to 64.
fn identifier(block: &[u8; 256]) -> Option<ObjectId>
    requires { (1 ≤ id_length block.now) × (id_length block.now ≤ 64) }
    ensures { result ≡ Some (take (id_length block.now) (field 16 64 block.now)) }
{
    let id: [u8; 64] = field(block, 16);
    ObjectId::new(&id[..usize::from(block[80])]).ok()
}
