// Calls of the file.
ghost use Rattle.std.specs.Prelude.{◌≡◌, ◌+◌, ◌-◌, ◌<◌, ◌≤◌, ◌^◌, ◌++◌, length, take, replicate, IfErr, OnOk, IsTrue};
ghost use Rattle.disk_model.specs.Bytes.{AreBytes};
ghost use Rattle.disk_model.specs.Arms.{count_call};
ghost use Rattle.disk_model.specs.Calls.{Known, Rests};
ghost use Rattle.disk_model.specs.Keeps.{Outside};
ghost use Rattle.node_image.specs.Selection.{bytes_at};
ghost use Rattle.htree_file.specs.Answers.{HasCause, IsFailed};
ghost use Rattle.htree_file.specs.Staging.{WritesAtMost};

use crate::fault::TreeFault;
use tee_ports::StoreFile;

// Zero from a place on.
fn clear_from(bytes: &mut [u8], from: usize)
    requires { from ≤ length bytes.old }
    ensures { bytes.new ≡ take from bytes.old ++ replicate (length bytes.old - from) 0 }
{
    bytes[from..].fill(0);
}

/// Reads the bytes from a place on, with zero past the file's end.
pub(crate) fn read_padded<F: StoreFile>(
    file: &mut F,
    at: u64,
    into: &mut [u8],
) -> Result<(), TreeFault>
    requires { at + length into.old < 2 ^ 32 }
    ensures rests { Rests (F.state file.old) (F.state file.new) }
    ensures bytes { OnOk result (IsTrue (F.state file.new).tells →
        into.new ≡ bytes_at (F.state file.new).reads at (length into.old)) }
    ensures once { IsTrue (F.state file.old).tells_arms → (F.state file.new).arms ≡ count_call (F.state file.old).arms }
    ensures cause { HasCause (F.state file.old) (F.state file.new) result }
    ensures failed { IfErr result IsFailed }
{
    let count = file.read_at(at, into)?;
    clear_from(into, count);
    Ok(())
}

/// Writes bytes at a place, by one call of the file.
pub(crate) fn put<F: StoreFile>(file: &mut F, at: u64, bytes: &[u8]) -> Result<(), TreeFault>
    requires { at + length bytes.now < 2 ^ 32 }
    ensures writes { WritesAtMost (Outside at (at + length bytes.now)) (length bytes.now) (F.state file.old) (F.state file.new) }
    ensures fits { OnOk result (Known (F.state file.old) (F.state file.new) →
        at + length bytes.now ≤ length (F.state file.new).reads) }
    ensures stands { OnOk result (Known (F.state file.old) (F.state file.new) →
        bytes_at (F.state file.new).reads at (length bytes.now) ≡ bytes.now) }
    ensures bytes { AreBytes bytes.now }
    ensures cause { HasCause (F.state file.old) (F.state file.new) result }
    ensures failed { IfErr result IsFailed }
{
    file.write_at(at, bytes)?;
    Ok(())
}
