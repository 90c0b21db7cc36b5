//! What a create asks for.

ghost use Rattle.std.specs.Prelude.{◌≡◌};
ghost use Rattle.serial_calls.specs.Rules.{IsCreate, new_object};

use tee_types::{Bytes, Call, Flags, ObjectId};

/// The parts of a create: TEE_CreatePersistentObject.
#[derive(Clone, Copy, Drop)]
pub struct NewObject<'a> {
    /// The new object's identifier.
    pub id: ObjectId,
    /// The rights of its handle, and whether an object of that name may be replaced.
    pub flags: Flags,
    /// Attributes, one opaque string.
    pub attributes: &'a Bytes,
    /// The object's data.
    pub bytes: &'a Bytes,
}

impl<'a> NewObject<'a> {
    /// The parts of that call, which is a create.
    pub fn of_call(call: &'a Call) -> NewObject<'a>
        requires create { IsCreate call.now }
        ensures { record { id = result.id; flags = result.flags; attributes = result.attributes.now; bytes = result.bytes.now } ≡ new_object call.now }
    {
        match call {
            Call::Create {
                id,
                flags,
                attributes,
                bytes,
            } => NewObject {
                id: *id,
                flags: *flags,
                attributes,
                bytes,
            },
            _ => unreachable!(),
        }
    }
}
