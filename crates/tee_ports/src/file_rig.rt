// What a simulator of a file can be told to do.
ghost use Rattle.std.specs.Prelude.{◌≡◌, ℕ, ◌<◌, List, IfOk, OnOk, OnErr};
ghost use Rattle.disk_model.specs.Bytes.{after_mask};
ghost use Rattle.disk_model.specs.State.{FileState, LeftNow};
ghost use Rattle.disk_model.specs.Controls.{settled_as, renamed_as, stop_armed, failure_armed, taint_armed, disarmed};

use crate::{Image, NoMemory, StoreFile};

/// A file in a simulator, which can be set to fail, and whose bytes can be changed behind its user's back.
///
/// Arms wait for a call, and calls are counted from 1 since the last arming. An arm stays until `disarm`, but a later
/// `stop_after` stands in place of an earlier one. Arms change nothing of what the file reads as, may leave or counts.
///
/// A call that finds no memory answers `NoMemory` and leaves the file as it was.
pub trait FileRig: StoreFile {
    // What a crash leaves, for a seed and the file's number.
    ghost crash_image: { FileState → ℕ → ℕ → List ℕ };

    /// Arms the file to pass this many calls, and to fail all later ones.
    ///
    /// The first of these is the call at which the device stops. Where that is a write, it may be torn: each place of its
    /// range may hold anything. No later one reaches the device.
    fn stop_after(&mut self, calls: u64)
        ensures { Self.state self.new ≡ stop_armed (Self.state self.old) calls };

    /// Arms the file to fail this call, without reaching the device.
    fn fail_call(&mut self, call: u64) -> Result<(), NoMemory>
        ensures armed { OnOk result (Self.state self.new ≡ failure_armed (Self.state self.old) call) }
        ensures refused { OnErr result (Self.state self.new ≡ Self.state self.old) };

    /// Arms the file to have the mask laid over its bytes from the place `at` on, before this call.
    ///
    /// A mask is laid over by exclusive or, over the settled bytes and over those that the file reads as. It changes
    /// nothing past the end. Where it changes a byte, the file is not honest from then on.
    fn taint_call(&mut self, call: u64, at: u64, mask: &[u8]) -> Result<(), NoMemory>
        ensures armed { OnOk result (Self.state self.new ≡
            taint_armed (Self.state self.old) (record { call = call; at = at; mask = mask.now })) }
        ensures refused { OnErr result (Self.state self.new ≡ Self.state self.old) };

    /// Removes all arms.
    fn disarm(&mut self)
        ensures { Self.state self.new ≡ disarmed (Self.state self.old) };

    /// The bytes that the file reads as.
    fn save(&self) -> Result<Image, NoMemory>
        ensures { IfOk result (λ image. image ≡ (Self.state self.now).reads) };

    /// Makes the image the settled bytes, with nothing pending. The file is honest from then on.
    fn restore(&mut self, image: &Image) -> Result<(), NoMemory>
        ensures restored { OnOk result (Self.state self.new ≡ renamed_as (Self.state self.old) image.now) }
        ensures refused { OnErr result (Self.state self.new ≡ Self.state self.old) };

    /// Lays the mask by exclusive or over the bytes from the place `at` on, where there are bytes, and settles them.
    fn flip(&mut self, at: u64, mask: &[u8])
        ensures { Self.state self.new ≡
            settled_as (Self.state self.old) (after_mask (Self.state self.old).reads at mask.now) };

    /// Makes one of the images that a crash may leave now the settled bytes, with nothing pending. The file is honest from
    /// then on.
    ///
    /// Which image it is follows from the seed, the number `file` and the state of the file alone. Zero leaves the settled
    /// bytes, and one all that was written.
    fn crash(&mut self, seed: u64, file: u16) -> Result<(), NoMemory>
        ensures crashed { OnOk result (Self.state self.new ≡
            renamed_as (Self.state self.old) (crash_image (Self.state self.old) seed file)) }
        ensures refused { OnErr result (Self.state self.new ≡ Self.state self.old) };

    /// In how many calls memory ran out.
    fn starved(&self) -> u64
        ensures { result ≡ (Self.state self.now).starved };

    // What a crash leaves is an image: for zero the settled bytes, and for one what the file reads as.
    ghost crash_leaves: { (rig : Self) (seed file : ℕ) → LeftNow (Self.state rig) (crash_image (Self.state rig) seed file) };

    ghost oldest: { (s : FileState) (file : ℕ) → crash_image s 0 file ≡ s.settled };

    ghost newest: { (s : FileState) (file : ℕ) → crash_image s 1 file ≡ s.reads };
}
