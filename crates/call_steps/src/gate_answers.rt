//! The calls, and the answers, that the gate gives alone.

ghost use Rattle.std.specs.Prelude.{◌≡◌, ◌≤◌, ℕ, true, false, None, IfOk, IfSome, IsNone, IsSome};
ghost use Rattle.store_model.specs.Calls.{reply_of};
ghost use Rattle.store_model.specs.Files.{is_misuse};
ghost use Rattle.store_model.specs.Machine.{MachineState};
ghost use Rattle.commit_gate.specs.CallerSessions.{IsCallerOf};
ghost use Rattle.commit_gate.specs.SessionViews.{shown};
ghost use Rattle.call_rules.specs.Matches.{Matches};
ghost use Rattle.call_rules.specs.Told.{IsTold};
ghost use Rattle.commit_gate.specs.Commits.{IsCalm};
ghost use Rattle.call_steps.specs.Devices.{DrawsOn};
ghost use Rattle.call_steps.specs.Rulings.{is_on_object};
ghost use Rattle.call_steps.specs.Seen.{HasSeen};
ghost use Rattle.call_steps.specs.Foreseen.{IsEarly};
ghost use Rattle.call_steps.specs.GateServed.{IsLeft, IsMisused, IsServed, IsServedAlone, ServesAlone, ServesAtOnce, ServesByRules};

use crate::call_rulings::misuse;
use crate::doubt_settling::settle;
use crate::doubt_waits::held_up;
use crate::rule_answers::tell;
use crate::session_calls::{close, enum_free, enum_new, enum_next, enum_reset, enum_start, seek};
use commit_gate::{GuardedGate, PlacedReply, Session};
use core_laws::StoreName;
use rpmb_card::RpmbPort;
use std::alloc::Global;
use tee_ports::{Entropy, StoreFile};
use tee_types::{Call, NoMemory, Reason, Reply};

// Answers a call that is on no object by the rules, while no commit is in doubt.
fn answer_by_rules<F: StoreFile + Drop, R: RpmbPort + Drop, L: StoreName, E: Entropy>(
    gate: &mut GuardedGate<F, R, L>,
    session: &mut Session<E>,
    call: &Call,
) -> Result<Option<PlacedReply>, NoMemory>
    requires room { 1 ≤ gate.old.journal.spare }
    requires idle { gate.old.gate.doubt ≡ None }
    requires calm { IsCalm L.store gate.old.journal.knows session.old }
    ensures serves { ServesByRules L.store call.now gate.old gate.new session.old session.new result }
    ensures left { IfOk result (λ answer. IsNone answer → is_on_object call.now ≡ true) }
    ensures entropy { session.new.entropy ≡ session.old.entropy }
{
    match call {
        Call::Close { handle } => Ok(Some(close(gate, session, *handle))),
        Call::Seek {
            handle,
            offset,
            whence,
        } => Ok(Some(seek(gate, session, *handle, *offset, *whence))),
        Call::EnumNew => Ok(Some(enum_new(gate, session)?)),
        Call::EnumStart { number } => Ok(Some(enum_start(gate, session, *number))),
        Call::EnumNext { number } => Ok(Some(enum_next(gate, session, *number))),
        Call::EnumReset { number } => Ok(Some(enum_reset(gate, session, *number))),
        Call::EnumFree { number } => Ok(Some(enum_free(gate, session, *number))),
        _ => Ok(None),
    }
}

// Answers a misuse, whatever is in doubt.
fn answer_misuse<F: StoreFile + Drop, R: RpmbPort + Drop, L: StoreName, E: Entropy>(
    gate: &mut GuardedGate<F, R, L>,
    session: &mut Session<E>,
    call: Call,
    reason: Reason,
) -> PlacedReply
    requires room { 1 ≤ gate.old.journal.spare }
    requires seen { HasSeen L.store gate.old.journal.knows session.old }
    requires told { (s : MachineState) (i : ℕ) → Matches gate.old.gate.dir.dir.entries gate.old.gate.open_handles session.old.state s i
        → IsTold s i call (Reply.Misuse reason) session.old.state }
    ensures served { IsServed L.store call result gate.old gate.new session.old session.new }
    ensures reply { result.reply ≡ Reply.Misuse reason }
    ensures entropy { session.new.entropy ≡ session.old.entropy }
{
    tell(gate, session, call, Reply::Misuse(reason))
}

// Settles the commit in doubt before a call that is no misuse. Where that fails, the answer says why.
fn settle_for<F: StoreFile + Drop, R: RpmbPort + Drop, L: StoreName, E: Entropy>(
    gate: &mut GuardedGate<F, R, L>,
    session: &mut Session<E>,
    call: Call,
) -> Option<PlacedReply>
    requires room { 2 ≤ gate.old.journal.spare }
    requires seen { HasSeen L.store gate.old.journal.knows session.old }
    requires doubt { IsSome gate.old.gate.doubt }
    requires proper { (s : MachineState) (i : ℕ) → Matches gate.old.gate.dir.dir.entries gate.old.gate.open_handles session.old.state s i
        → is_misuse (reply_of s i call) ≡ false }
    ensures left { IsNone result → IsLeft F.state R.state L.store gate.old gate.new session.old session.new }
    ensures room { IsNone result → 1 ≤ gate.new.journal.spare }
    ensures served { IfSome result (λ answer. IsServedAlone F.state R.state (E.is_reliable session.old.entropy) (E.faults session.old.entropy) (E.faults session.new.entropy)
        L.store call answer gate.old gate.new session.old session.new) }
    ensures draws { DrawsOn E.is_reliable E.faults session.old.entropy session.new.entropy }
    ensures undrawn { IsNone result → E.faults session.new.entropy ≡ E.faults session.old.entropy }
    ensures early { IfSome result (λ answer. IsEarly answer.reply) }
{
    match settle(gate, session) {
        Ok(()) => None,
        Err(cause) => Some(held_up(gate, session, call, cause)),
    }
}

/// What comes before all else: a misuse is answered, and else a commit in doubt is resolved.
///
/// # Errors
///
/// Memory ran out. Gate and session are as they were.
pub(crate) fn answer_first<F: StoreFile + Drop, R: RpmbPort + Drop, L: StoreName, E: Entropy>(
    alloc: Global,
    gate: &mut GuardedGate<F, R, L>,
    session: &mut Session<E>,
    call: &Call,
) -> Result<Option<PlacedReply>, NoMemory>
    requires room { 2 ≤ gate.old.journal.spare }
    requires seen { HasSeen L.store gate.old.journal.knows session.old }
    ensures serves { ServesAlone F.state R.state (E.is_reliable session.old.entropy) (E.faults session.old.entropy) (E.faults session.new.entropy)
        L.store call.now gate.old gate.new session.old session.new result }
    ensures room { IfOk result (λ answer. IsNone answer → 1 ≤ gate.new.journal.spare) }
    ensures draws { DrawsOn E.is_reliable E.faults session.old.entropy session.new.entropy }
    ensures undrawn { IfOk result (λ answer. IsNone answer → E.faults session.new.entropy ≡ E.faults session.old.entropy) }
    ensures let_be { gate.old.gate.doubt ≡ None → session.new.entropy ≡ session.old.entropy }
    ensures at_once { IsMisused gate.old session.old.state call.now → ServesAtOnce L.store call.now gate.old gate.new session.old session.new result }
    ensures early { IfOk result (λ found. IfSome found (λ answer. IsEarly answer.reply)) }
{
    if let Some(reason) = misuse(&*gate, session.state(), call) {
        let kept = call.copy(alloc)?;
        return Ok(Some(answer_misuse(gate, session, kept, reason)));
    }
    if gate.doubt().is_none() {
        let Ok(()) = settle(gate, session) else {
            unreachable!()
        };
        return Ok(None);
    }
    let waiting = call.copy(alloc)?;
    Ok(settle_for(gate, session, waiting))
}

// The same, where no misuse is looked for unless a commit is in doubt: else the rules find it.
fn answer_early<F: StoreFile + Drop, R: RpmbPort + Drop, L: StoreName, E: Entropy>(
    alloc: Global,
    gate: &mut GuardedGate<F, R, L>,
    session: &mut Session<E>,
    call: &Call,
) -> Result<Option<PlacedReply>, NoMemory>
    requires room { 2 ≤ gate.old.journal.spare }
    requires seen { HasSeen L.store gate.old.journal.knows session.old }
    ensures serves { ServesAlone F.state R.state (E.is_reliable session.old.entropy) (E.faults session.old.entropy) (E.faults session.new.entropy)
        L.store call.now gate.old gate.new session.old session.new result }
    ensures room { IfOk result (λ answer. IsNone answer → 1 ≤ gate.new.journal.spare) }
    ensures draws { DrawsOn E.is_reliable E.faults session.old.entropy session.new.entropy }
    ensures undrawn { IfOk result (λ answer. IsNone answer → E.faults session.new.entropy ≡ E.faults session.old.entropy) }
    ensures let_be { gate.old.gate.doubt ≡ None → session.new.entropy ≡ session.old.entropy }
    ensures at_once { IsMisused gate.old session.old.state call.now → ServesAtOnce L.store call.now gate.old gate.new session.old session.new result }
{
    if gate.doubt().is_some() {
        return answer_first(alloc, gate, session, call);
    }
    let Ok(()) = settle(gate, session) else {
        unreachable!()
    };
    Ok(None)
}

/// Serves a call as far as the gate does alone: the answer, or none where the call is on an object and no misuse was found before. Then no
/// commit is in doubt any more, the session was shown the history, and its entropy counted no fault.
///
/// # Errors
///
/// Memory ran out. The session is as it was but that it may have been shown the history.
pub fn answer_alone<F: StoreFile + Drop, R: RpmbPort + Drop, L: StoreName, E: Entropy>(
    alloc: Global,
    gate: &mut GuardedGate<F, R, L>,
    session: &mut Session<E>,
    call: &Call,
) -> Result<Option<PlacedReply>, NoMemory>
    requires room { 2 ≤ gate.old.journal.spare }
    requires caller { IsCallerOf L.store session.old }
    ensures serves { ServesAlone F.state R.state (E.is_reliable session.old.entropy) (E.faults session.old.entropy) (E.faults session.new.entropy)
        L.store call.now gate.old gate.new session.old session.new result }
    ensures room { IfOk result (λ answer. IsNone answer → 1 ≤ gate.new.journal.spare) }
    ensures left { IfOk result (λ answer. IsNone answer → is_on_object call.now ≡ true) }
    ensures draws { DrawsOn E.is_reliable E.faults session.old.entropy session.new.entropy }
    ensures undrawn { IfOk result (λ answer. IsNone answer → E.faults session.new.entropy ≡ E.faults session.old.entropy) }
    // Nothing is drawn where no commit is in doubt.
    ensures let_be { gate.old.gate.doubt ≡ None → session.new.entropy ≡ session.old.entropy }
    // A misuse waits for no commit in doubt.
    ensures at_once { IsMisused gate.old (shown gate.old.journal.knows session.old).state call.now → ServesAtOnce L.store call.now gate.old gate.new session.old session.new result }
{
    gate.catch_up(None, session);
    if let Some(answer) = answer_early(alloc, gate, session, call)? {
        return Ok(Some(answer));
    }
    answer_by_rules(gate, session, call)
}
