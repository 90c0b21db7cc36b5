//! Calls that move the session, and that the rules answer.

ghost use Rattle.std.specs.Prelude.{◌≡◌, ◌≤◌, None, IfOk, OnErr};
ghost use Rattle.tee_types.specs.declared.call.Call.TheVariants.{Close as CloseCall, Seek as SeekCall, EnumNew as EnumNewCall, EnumStart as EnumStartCall, EnumNext as EnumNextCall, EnumReset as EnumResetCall, EnumFree as EnumFreeCall};
ghost use Rattle.call_rules.specs.Plain.{IsPlain};
ghost use Rattle.commit_gate.specs.Commits.{IsCalm};
ghost use Rattle.call_steps.specs.GateServed.{IsServed};

use crate::rule_answers::tell;
use commit_gate::{GuardedGate, PlacedReply, Session};
use core_laws::StoreName;
use rpmb_card::RpmbPort;
use tee_ports::{Entropy, StoreFile};
use tee_types::{Call, NoMemory, Reply, Whence};

// Closes a handle.
pub(crate) fn close<F: StoreFile + Drop, R: RpmbPort + Drop, L: StoreName, E: Entropy>(
    gate: &mut GuardedGate<F, R, L>,
    session: &mut Session<E>,
    handle: u32,
) -> PlacedReply
    requires room { 1 ≤ gate.old.journal.spare }
    requires idle { gate.old.gate.doubt ≡ None }
    requires calm { IsCalm L.store gate.old.journal.knows session.old }
    ensures served { IsServed L.store (CloseCall handle) result gate.old gate.new session.old session.new }
    ensures plain { IsPlain result.reply }
    ensures entropy { session.new.entropy ≡ session.old.entropy }
{
    let reply = call_rules::close(session.state_mut(), handle);
    if let Reply::Done = reply {
        gate.reveal_invariant();
        let place = gate.close_handle(session, handle);
        return PlacedReply {
            place,
            reply: Reply::Done,
        };
    }
    tell(gate, session, Call::Close { handle }, reply)
}

// Moves the position of a handle.
pub(crate) fn seek<F: StoreFile + Drop, R: RpmbPort + Drop, L: StoreName, E: Entropy>(
    gate: &mut GuardedGate<F, R, L>,
    session: &mut Session<E>,
    handle: u32,
    offset: i64,
    whence: Whence,
) -> PlacedReply
    requires room { 1 ≤ gate.old.journal.spare }
    requires idle { gate.old.gate.doubt ≡ None }
    requires calm { IsCalm L.store gate.old.journal.knows session.old }
    ensures served { IsServed L.store (SeekCall handle offset whence) result gate.old gate.new session.old session.new }
    ensures plain { IsPlain result.reply }
    ensures entropy { session.new.entropy ≡ session.old.entropy }
{
    let reply = call_rules::seek(&*gate, session.state_mut(), handle, offset, whence);
    tell(
        gate,
        session,
        Call::Seek {
            handle,
            offset,
            whence,
        },
        reply,
    )
}

// Makes an enumerator.
pub(crate) fn enum_new<F: StoreFile + Drop, R: RpmbPort + Drop, L: StoreName, E: Entropy>(
    gate: &mut GuardedGate<F, R, L>,
    session: &mut Session<E>,
) -> Result<PlacedReply, NoMemory>
    requires room { 1 ≤ gate.old.journal.spare }
    requires idle { gate.old.gate.doubt ≡ None }
    requires calm { IsCalm L.store gate.old.journal.knows session.old }
    ensures served { IfOk result (λ answer. IsServed L.store EnumNewCall answer gate.old gate.new session.old session.new) }
    ensures plain { IfOk result (λ answer. IsPlain answer.reply) }
    ensures err { OnErr result ((gate.new ≡ gate.old) × (session.new ≡ session.old)) }
    ensures entropy { session.new.entropy ≡ session.old.entropy }
{
    let reply = call_rules::enum_new(session.state_mut())?;
    Ok(tell(gate, session, Call::EnumNew, reply))
}

// Begins an enumeration.
pub(crate) fn enum_start<F: StoreFile + Drop, R: RpmbPort + Drop, L: StoreName, E: Entropy>(
    gate: &mut GuardedGate<F, R, L>,
    session: &mut Session<E>,
    number: u32,
) -> PlacedReply
    requires room { 1 ≤ gate.old.journal.spare }
    requires idle { gate.old.gate.doubt ≡ None }
    requires calm { IsCalm L.store gate.old.journal.knows session.old }
    ensures served { IsServed L.store (EnumStartCall number) result gate.old gate.new session.old session.new }
    ensures plain { IsPlain result.reply }
    ensures entropy { session.new.entropy ≡ session.old.entropy }
{
    let reply = call_rules::enum_start(&*gate, session.state_mut(), number);
    tell(gate, session, Call::EnumStart { number }, reply)
}

// Tells the next object.
pub(crate) fn enum_next<F: StoreFile + Drop, R: RpmbPort + Drop, L: StoreName, E: Entropy>(
    gate: &mut GuardedGate<F, R, L>,
    session: &mut Session<E>,
    number: u32,
) -> PlacedReply
    requires room { 1 ≤ gate.old.journal.spare }
    requires idle { gate.old.gate.doubt ≡ None }
    requires calm { IsCalm L.store gate.old.journal.knows session.old }
    ensures served { IsServed L.store (EnumNextCall number) result gate.old gate.new session.old session.new }
    ensures plain { IsPlain result.reply }
    ensures entropy { session.new.entropy ≡ session.old.entropy }
{
    let reply = call_rules::enum_next(&*gate, session.state_mut(), number);
    tell(gate, session, Call::EnumNext { number }, reply)
}

// Ends an enumeration.
pub(crate) fn enum_reset<F: StoreFile + Drop, R: RpmbPort + Drop, L: StoreName, E: Entropy>(
    gate: &mut GuardedGate<F, R, L>,
    session: &mut Session<E>,
    number: u32,
) -> PlacedReply
    requires room { 1 ≤ gate.old.journal.spare }
    requires idle { gate.old.gate.doubt ≡ None }
    requires calm { IsCalm L.store gate.old.journal.knows session.old }
    ensures served { IsServed L.store (EnumResetCall number) result gate.old gate.new session.old session.new }
    ensures plain { IsPlain result.reply }
    ensures entropy { session.new.entropy ≡ session.old.entropy }
{
    let reply = call_rules::enum_reset(session.state_mut(), number);
    tell(gate, session, Call::EnumReset { number }, reply)
}

// Takes an enumerator away.
pub(crate) fn enum_free<F: StoreFile + Drop, R: RpmbPort + Drop, L: StoreName, E: Entropy>(
    gate: &mut GuardedGate<F, R, L>,
    session: &mut Session<E>,
    number: u32,
) -> PlacedReply
    requires room { 1 ≤ gate.old.journal.spare }
    requires idle { gate.old.gate.doubt ≡ None }
    requires calm { IsCalm L.store gate.old.journal.knows session.old }
    ensures served { IsServed L.store (EnumFreeCall number) result gate.old gate.new session.old session.new }
    ensures plain { IsPlain result.reply }
    ensures entropy { session.new.entropy ≡ session.old.entropy }
{
    let reply = call_rules::enum_free(session.state_mut(), number);
    tell(gate, session, Call::EnumFree { number }, reply)
}
