//! How a served store answers a call.

ghost use Rattle.std.specs.Prelude.{◌≡◌, IsNone, None, OnErr};
ghost use Rattle.core_laws.specs.Shown.{IsPartial};
ghost use Rattle.rpmb_card.specs.Protocol.{last_counter};
ghost use Rattle.serial_calls.specs.CallerSessions.{IsCallerOf};
ghost use Rattle.serial_calls.specs.GateServed.{IsMisused};
ghost use Rattle.serial_calls.specs.SessionViews.{shown};
ghost use Rattle.serial_calls.specs.ChangeChecks.{AreOnlyRead};
ghost use Rattle.serial_calls.specs.Devices.{DrawsOn};
ghost use Rattle.serial_calls.specs.Rising.{devices_in};
ghost use Rattle.serial_calls.specs.Unfailed.{NoneFailed};
ghost use Rattle.serial_calls.specs.QuotaCallers.{IfRefused, IsRefusedRightly, KeepsLimits, answer_in};
ghost use Rattle.object_calls.specs.Calling.{AnswersAtOnceAt, AnswersCall, AnswersWithin, serving};

use crate::service::Service;
use app_totals::Totals;
use core_laws::StoreName;
use rpmb_card::RpmbPort;
use serial_calls::{QuotaOutcome, Session, serve, serve_within};
use tee_ports::{Entropy, StoreFile};
use tee_types::{Call, NoMemory, Reply};

/// What a call is answered, and the place of its event in the phase's history. Where memory ran out it has none.
#[derive(Debug, Drop)]
pub struct Answer {
    /// The place.
    pub place: Option<u64>,
    /// The reply.
    pub reply: Reply,
}

impl<F: StoreFile + Drop, R: RpmbPort + Drop, L: StoreName> Service<F, R, L> {
    /// Answers a session's call by the Trusted Storage chapter, and appends it to the phase's history with its reply. A commit that is in
    /// doubt is resolved before, unless the call is a misuse.
    ///
    /// The reply `NoMemory` has no place and no event. Then nothing changed but that a commit in doubt may have landed, and no device
    /// failed.
    pub fn call<E: Entropy>(&mut self, session: &mut Session<E>, call: &Call) -> Answer
        requires { IsCallerOf L.store session.old }
        ensures answers { AnswersCall F.state R.state E.faults L.store self.old self.new session.old session.new call.now result.place result.reply }
        ensures draws { DrawsOn E.is_reliable E.faults session.old.entropy session.new.entropy }
        // A misuse waits for no commit in doubt, as the session is once it was shown the history.
        ensures at_once { IsMisused self.old.gate (shown self.old.gate.journal.knows session.old).state call.now
            → AnswersAtOnceAt (serving self.old session.old) (serving self.new session.new) call.now result.place result.reply }
        // Where memory ran out, no device counted a fault.
        ensures passed { IsNone result.place → NoneFailed (devices_in F.state R.state E.faults (serving self.old session.old))
            (devices_in F.state R.state E.faults (serving self.new session.new)) }
        // Where no commit can follow a change of data, the object's file is only read. Nothing is drawn, and neither directory nor card is
        // asked.
        ensures spent { IsPartial call.now → self.old.gate.gate.doubt ≡ None → self.old.gate.gate.counter ≡ last_counter
            → AreOnlyRead (serving self.old session.old) (serving self.new session.new) }
    {
        match serve(
            self.alloc,
            &mut self.gate,
            &mut self.slots,
            &self.storage_key,
            session,
            call,
        ) {
            Ok(answer) => Answer {
                place: Some(answer.place),
                reply: answer.reply,
            },
            Err(NoMemory {}) => Answer {
                place: None,
                reply: Reply::NoMemory,
            },
        }
    }

    /// Answers a session's call as `call` does. But where it would leave its application more than `limit`, it is refused and has no event.
    ///
    /// # Errors
    ///
    /// Memory ran out. The call has no event, nothing changed but that a commit in doubt may have landed, and no device failed.
    pub fn call_within<E: Entropy>(
        &mut self,
        session: &mut Session<E>,
        limit: Totals,
        call: &Call,
    ) -> Result<QuotaOutcome, NoMemory>
        requires { IsCallerOf L.store session.old }
        ensures answers { AnswersWithin F.state R.state E.faults L.store self.old self.new session.old session.new call.now (answer_in result) }
        ensures limits { KeepsLimits L.store limit session.old session.new }
        ensures refused { IfRefused result (IsRefusedRightly L.store limit session.old session.new call.now) }
        ensures draws { DrawsOn E.is_reliable E.faults session.old.entropy session.new.entropy }
        // Where it was refused, or memory ran out, no device counted a fault.
        ensures passed { OnErr (answer_in result) (NoneFailed (devices_in F.state R.state E.faults (serving self.old session.old))
            (devices_in F.state R.state E.faults (serving self.new session.new))) }
    {
        serve_within(
            self.alloc,
            &mut self.gate,
            &mut self.slots,
            &self.storage_key,
            session,
            limit,
            call,
        )
    }
}
