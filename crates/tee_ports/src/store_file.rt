// A file on a disk that may crash.
ghost use Rattle.std.specs.Prelude.{◌≡◌, ℕ, ◌+◌, ◌-◌, ◌<◌, ◌≤◌, ◌^◌, length, min, IsTrue, IfOk, OnOk, OnErr, is_err};
ghost use Rattle.disk_model.specs.Images.{Has};
ghost use Rattle.disk_model.specs.Bytes.{after_write, after_resize};
ghost use Rattle.disk_model.specs.State.{FileState, Sound};
ghost use Rattle.disk_model.specs.Calls.{Known, Changes, Rests, Syncs};
ghost use Rattle.disk_model.specs.Keeps.{Outside};
ghost use Rattle.disk_model.specs.Controls.{struck};
ghost use Rattle.tee_ports.specs.Files.{HasCause, ActsByArms, StaysByArms, ReadsAt};

use crate::Failed;

/// A file that can be read and written at any place, on a device that may fail and may crash.
///
/// A crash leaves what the last successful `sync` settled, except in the sectors that a change since then met: there it may
/// leave anything. The file counts its faults, and a call answers `Failed` only where it counted one.
///
/// An honest file reads as its user's calls left it. A steady one reads at the end of a call as at its start, unless the
/// call writes. One that tells its arms reads at the end of a call as the masks that are armed for the call left it, but for
/// the places that the call writes, whether it succeeds or fails. Of any other file a caller knows what a read gave, and no
/// more.
///
/// Places and lengths are in bytes, and below 2^32.
pub trait StoreFile {
    // What is known of the file.
    ghost state: { Self → FileState };

    /// The number of bytes.
    fn len(&mut self) -> Result<u64, Failed>
        ensures rests { Rests (state self.old) (state self.new) }
        ensures told { IfOk result (λ n. IsTrue (state self.new).tells → n ≡ length (state self.new).reads) }
        ensures cause { HasCause (state self.old) (state self.new) result }
        ensures armed { IsTrue (state self.old).tells_arms →
            StaysByArms (state self.old) (state self.new) (is_err result) };

    /// Reads the bytes from the place `at` on into the front of `into`, and returns how many there were: fewer than `into`
    /// has room for where the file ends.
    fn read_at(&mut self, at: u64, into: &mut [u8]) -> Result<usize, Failed>
        requires { at < 2 ^ 32 }
        ensures rests { Rests (state self.old) (state self.new) }
        ensures within { IfOk result (λ n. n ≤ length into.old) }
        ensures told { IfOk result (λ n. IsTrue (state self.new).tells →
            ReadsAt (state self.new).reads at into.old n into.new) }
        ensures cause { HasCause (state self.old) (state self.new) result }
        ensures armed { IsTrue (state self.old).tells_arms →
            StaysByArms (state self.old) (state self.new) (is_err result) };

    /// Writes the bytes over what stands from the place `at` on, and past the end, with zero between.
    ///
    /// After a failure each place of the range may hold anything.
    fn write_at(&mut self, at: u64, from: &[u8]) -> Result<(), Failed>
        requires { at + length from.now < 2 ^ 32 }
        ensures changes { Changes at (at + length from.now) (state self.old) (state self.new) }
        ensures written { OnOk result (Known (state self.old) (state self.new) →
            (state self.new).reads ≡ after_write (state self.old).reads at from.now) }
        ensures others { Known (state self.old) (state self.new) → (place byte : ℕ) →
            Outside at (at + length from.now) place →
            Has (state self.old).reads place byte → Has (state self.new).reads place byte }
        ensures others_struck { IsTrue (state self.old).tells_arms → (place byte : ℕ) →
            Outside at (at + length from.now) place →
            Has (struck (state self.old)).reads place byte → Has (state self.new).reads place byte }

        // The bytes that were written are counted.
        ensures at_most { (state self.new).written ≤ (state self.old).written + length from.now }
        ensures counted { OnOk result ((state self.new).written ≡
            min ((state self.old).written + length from.now) (2 ^ 64 - 1)) }

        ensures cause { HasCause (state self.old) (state self.new) result }
        ensures armed { IsTrue (state self.old).tells_arms →
            ActsByArms (state self.old) (state self.new) (is_err result) }
        ensures struck { OnOk result (IsTrue (state self.old).tells_arms →
            ((state self.new).settled ≡ (struck (state self.old)).settled)
            × ((state self.new).reads ≡ after_write (struck (state self.old)).reads at from.now)) };

    /// Sets the number of bytes, with zero behind the old end.
    ///
    /// After a failure each place between the old end and the new one may hold anything, or nothing.
    fn set_len(&mut self, size: u64) -> Result<(), Failed>
        requires { size < 2 ^ 32 }
        ensures changes { Changes size (length (state self.old).reads) (state self.old) (state self.new) }
        ensures resized { OnOk result (Known (state self.old) (state self.new) →
            (state self.new).reads ≡ after_resize (state self.old).reads size) }
        ensures others { Known (state self.old) (state self.new) → (place byte : ℕ) →
            Outside size (length (state self.old).reads) place →
            Has (state self.old).reads place byte → Has (state self.new).reads place byte }
        ensures others_struck { IsTrue (state self.old).tells_arms → (place byte : ℕ) →
            Outside size (length (state self.old).reads) place →
            Has (struck (state self.old)).reads place byte → Has (state self.new).reads place byte }
        ensures counted { (state self.new).written ≡ (state self.old).written }

        ensures cause { HasCause (state self.old) (state self.new) result }
        ensures armed { IsTrue (state self.old).tells_arms →
            ActsByArms (state self.old) (state self.new) (is_err result) }
        ensures struck { OnOk result (IsTrue (state self.old).tells_arms →
            ((state self.new).settled ≡ (struck (state self.old)).settled)
            × ((state self.new).reads ≡ after_resize (struck (state self.old)).reads size)) };

    /// Settles all bytes: after a success a crash leaves exactly what a read gives.
    ///
    /// After a failure what was pending is pending still.
    fn sync(&mut self) -> Result<(), Failed>
        ensures synced { OnOk result (Syncs (state self.old) (state self.new)) }
        ensures unsettled { OnErr result (Rests (state self.old) (state self.new)) }
        ensures cause { HasCause (state self.old) (state self.new) result }
        ensures armed { IsTrue (state self.old).tells_arms →
            ActsByArms (state self.old) (state self.new) (is_err result) }
        ensures struck { OnOk result (IsTrue (state self.old).tells_arms →
            ((state self.new).settled ≡ (struck (state self.old)).reads)
            × ((state self.new).reads ≡ (struck (state self.old)).reads)) };

    // What holds of every file.
    ghost sound: { (file : Self) → Sound (state file) };
}
