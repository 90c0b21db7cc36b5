//! A commit.

ghost use Rattle.std.specs.Prelude.{◌≡◌, ◌↔◌, IsOk, IsTrue};
ghost use Rattle.rpmb_card.specs.Protocol.{last_counter};
ghost use Rattle.store_commit.specs.Changes.{FitsIn};
ghost use Rattle.store_commit.specs.Sides.{IsSettled, sides};
ghost use Rattle.store_commit.specs.Ends.{Leaves, Throughout};
ghost use Rattle.store_commit.specs.Steps.{Steps};
ghost use Rattle.store_commit.specs.Causes.{DoubtIsByCard, EndCause, EndIsDrawn, EndNotDrawn, EndNotOfCard, KeepsPortArms, StaysCalm, counts};
ghost use Rattle.store_commit.specs.Counts.{EndCounts};
ghost use Rattle.store_commit.specs.Heard.{EndHeard};
ghost use Rattle.store_commit.specs.Prepared.{DrawnCause};
ghost use Rattle.store_commit.specs.declared.change.CommitEnd.TheVariants.{Spent};

use crate::card::write_root;
use crate::change::{CardEnd, CommitEnd};
use crate::staging::prepare;
use crash_core::EntryChange;
use dir_file::DirFile;
use rpmb_card::RpmbPort;
use rpmb_host::Host;
use tee_ports::{Entropy, StoreFile};
use tee_types::{Cause, Device};

/// Draws a nonce.
///
/// # Errors
///
/// The draw failed.
pub fn draw_nonce<E: Entropy>(entropy: &mut E) -> Result<[u8; 16], Cause>
    ensures reliable { E.is_reliable entropy.old → IsOk result × E.is_reliable entropy.new }
    ensures cause { DrawnCause (E.faults entropy.old) (E.faults entropy.new) result }
{
    let mut nonce = [0; 16];
    match entropy.draw(&mut nonce) {
        Ok(()) => Ok(nonce),
        Err(failed) => Err(Cause::Fault {
            device: Device::Entropy,
            count: failed.count,
        }),
    }
}

/// Commits one change of the directory. It takes no memory, and draws nothing from its first call of the directory's file on.
///
/// A counter at its end is told first, and nothing is done. Else a nonce is drawn; the directory is staged and settled; the card's
/// block 0 is written and the write's result read, and where that is not confirmed, or a verified result refuses the write, the
/// counter is read. The stage is adopted where the counter or the result tells that the block stands, given up where the counter
/// stands still, and kept where neither is told.
pub fn commit_parts<F: StoreFile, R: RpmbPort, E: Entropy>(
    dir: &mut DirFile<F>,
    host: &mut Host<R>,
    counter: &mut u32,
    change: &EntryChange,
    entropy: &mut E,
) -> CommitEnd
    requires settled { IsSettled (sides (F.state dir.old.file) dir.old.dir (R.state host.old.port) host.old.key counter.old) }
    requires format { dir.old.dir.root.format ≡ 2 }
    requires fits { FitsIn dir.old.dir.entries change.now }
    ensures leaves { Leaves
        (sides (F.state dir.old.file) dir.old.dir (R.state host.old.port) host.old.key counter.old)
        (sides (F.state dir.new.file) dir.new.dir (R.state host.new.port) host.new.key counter.new) change.now result }
    ensures throughout { Throughout
        (sides (F.state dir.old.file) dir.old.dir (R.state host.old.port) host.old.key counter.old)
        (sides (F.state dir.new.file) dir.new.dir (R.state host.new.port) host.new.key counter.new) }
    ensures steps { Steps
        (sides (F.state dir.old.file) dir.old.dir (R.state host.old.port) host.old.key counter.old)
        (sides (F.state dir.new.file) dir.new.dir (R.state host.new.port) host.new.key counter.new) change.now result }
    ensures spent { (result ≡ Spent) ↔ (counter.old ≡ last_counter) }
    ensures reliable { E.is_reliable entropy.old → E.is_reliable entropy.new }
    ensures drawn { E.is_reliable entropy.old → EndNotDrawn result }
    // A draw that fails found no call of a device.
    ensures untouched { EndIsDrawn result → (dir.new ≡ dir.old) × (host.new ≡ host.old) }
    ensures calm { IsTrue (R.state host.old.port).calm → StaysCalm (R.state host.old.port) (R.state host.new.port) × EndNotOfCard result }
    ensures heard { EndHeard host.old.key counter.old (R.state host.new.port) result }
    ensures counts { EndCounts
        (counts (F.state dir.old.file) (R.state host.old.port) (E.faults entropy.old))
        (counts (F.state dir.new.file) (R.state host.new.port) (E.faults entropy.new)) result }
    ensures cause { EndCause host.old.key counter.old
        (counts (F.state dir.old.file) (R.state host.old.port) (E.faults entropy.old))
        (counts (F.state dir.new.file) (R.state host.new.port) (E.faults entropy.new)) result }
    ensures doubtful { DoubtIsByCard result }
    ensures arms { KeepsPortArms (R.state host.old.port) (R.state host.new.port) }
{
    let at = *counter;
    if at == u32::MAX {
        return CommitEnd::Spent;
    }
    let nonce = match draw_nonce(entropy) {
        Ok(nonce) => nonce,
        Err(cause) => return CommitEnd::Dropped(cause),
    };
    let root = match prepare(dir, change, entropy) {
        Ok(root) => root,
        Err(failed) => return CommitEnd::Dropped(failed),
    };
    match write_root(host, at, &nonce, &root) {
        CardEnd::Landed => {
            dir.adopt();
            *counter = at + 1;
            CommitEnd::Made(at + 1)
        }
        CardEnd::Lost(cause) => {
            dir.drop_stage();
            CommitEnd::Dropped(cause)
        }
        CardEnd::Unknown(cause) => CommitEnd::Doubtful(at + 1, cause),
    }
}
