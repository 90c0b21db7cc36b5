//! The card's part of a commit.

ghost use Rattle.std.specs.Prelude.{◌≡◌, ◌≢◌, ◌≤◌, IsTrue};
ghost use Rattle.rpmb_card.specs.Card.{CardState};
ghost use Rattle.rpmb_card.specs.Protocol.{last_counter};
ghost use Rattle.rpmb_host.specs.Honest.{HadCard, HasCard};
ghost use Rattle.rpmb_host.specs.declared.fault.HostFault.TheVariants.{Spent};
ghost use Rattle.crash_core.specs.CardBlock.{root_block};
ghost use Rattle.store_commit.specs.Causes.{KeepsPortArms, StaysCalm};
ghost use Rattle.store_commit.specs.CardEnds.{AskLeft, CardLeft};
ghost use Rattle.store_commit.specs.CardCauses.{AskCalm, AskCause, CardCalm, CardCounts, FaultIs, IsCardFault};
ghost use Rattle.store_commit.specs.Heard.{AskHeard, CardHeard, LastStays};

use crate::block::directory_at;
use crate::change::CardEnd;
use byte_fields::put;
use node_image::RootRef;
use rpmb_card::RpmbPort;
use rpmb_host::{Host, HostFault};
use tee_types::{Cause, Device, FrameFault};

/// The card's block 0 that names a directory.
pub fn root_block(root: &RootRef) -> [u8; 256]
    ensures { result ≡ root_block root.now }
{
    let mut block = [0; 256];
    put(&mut block, 0, &[root.format, root.version]);
    put(&mut block, 2, &directory_at(root.format).to_be_bytes());
    put(&mut block, 4, &root.hash);
    block
}

// What a fault of the host means, which is not that the counter is spent.
pub(crate) fn cause_of(fault: HostFault) -> Cause
    requires { fault ≢ Spent }
    ensures { FaultIs fault result }
{
    match fault {
        HostFault::Failed { count } => Cause::Fault {
            device: Device::Card,
            count,
        },
        HostFault::BadFrame(fault) => Cause::Frame(fault),
        HostFault::CardResult(result) => Cause::CardResult(result),
        HostFault::Spent => unreachable!(),
    }
}

// Reads the counter after a write that was not confirmed.
fn ask<R: RpmbPort>(host: &mut Host<R>, counter: u32, nonce: &[u8; 16], cause: Cause) -> CardEnd
    requires { counter ≢ last_counter }
    ensures key { host.new.key ≡ host.old.key }
    ensures card { (R.state host.new.port).card ≡ (R.state host.old.port).card }
    ensures counter { (card : CardState) → HasCard (R.state host.old.port) host.old.key card → AskLeft card.counter counter cause result }
    // What was heard, whatever the card is.
    ensures heard { AskHeard host.old.key counter (R.state host.new.port) cause result }
    ensures calm { IsTrue (R.state host.old.port).calm → StaysCalm (R.state host.old.port) (R.state host.new.port) × AskCalm cause result }
    ensures stays { LastStays (R.state host.old.port) (R.state host.new.port) }
    ensures counted { (R.state host.old.port).faults ≤ (R.state host.new.port).faults }
    ensures cause { AskCause host.old.key counter (R.state host.old.port) (R.state host.new.port) cause result }
    ensures arms { KeepsPortArms (R.state host.old.port) (R.state host.new.port) }
{
    match host.read_counter(nonce) {
        Ok(now) => {
            if now == counter {
                CardEnd::Lost(cause)
            } else if now == counter + 1 {
                CardEnd::Landed
            } else {
                CardEnd::Unknown(Cause::Frame(FrameFault::Counter {
                    want: counter + 1,
                    found: now,
                }))
            }
        }
        Err(fault) => CardEnd::Unknown(cause_of(fault)),
    }
}

/// Writes the card's block 0 that names a directory, and finds out whether it stands: reads the write's result, and where that is
/// not confirmed the counter, with that nonce.
pub fn write_root<R: RpmbPort>(
    host: &mut Host<R>,
    counter: u32,
    nonce: &[u8; 16],
    root: &RootRef,
) -> CardEnd
    requires { counter ≢ last_counter }
    ensures key { host.new.key ≡ host.old.key }
    ensures card { (card : CardState) → HasCard (R.state host.old.port) host.old.key card → card.counter ≡ counter →
        CardLeft (R.state host.new.port) host.new.key card root.now result }
    // A card that has the key after the call had it before.
    ensures was { (card : CardState) → HasCard (R.state host.new.port) host.new.key card →
        HadCard (R.state host.old.port) host.old.key }
    ensures calm { IsTrue (R.state host.old.port).calm → StaysCalm (R.state host.old.port) (R.state host.new.port) × CardCalm result }
    ensures heard { CardHeard host.old.key counter (R.state host.new.port) result }
    ensures counts { CardCounts (R.state host.old.port) (R.state host.new.port) result }
    ensures cause { IsCardFault host.old.key counter (R.state host.old.port) (R.state host.new.port) result }
    ensures arms { KeepsPortArms (R.state host.old.port) (R.state host.new.port) }
{
    let block = root_block(root);
    match host.write_block(0, counter, &block) {
        Ok(_) => CardEnd::Landed,
        Err(fault) => {
            let cause = cause_of(fault);
            ask(host, counter, nonce, cause)
        }
    }
}
