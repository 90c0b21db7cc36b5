// Masks that wait for a call.
ghost use Rattle.std.proofs.Props.{props};
ghost use Rattle.disk_model.specs.Bytes.{AreBytes};

/// A mask that is laid over the bytes of a file from the place `at` on, before a call.
#[derive(Drop)]
pub struct Taint {
    pub call: u64,
    pub at: u64,
    pub mask: Vec<u8>,
    ghost are_bytes: { AreBytes mask.items } by { Prim.hlevel props },
}
