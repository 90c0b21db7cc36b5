//! Laws of journals and sessions. Each function does nothing: its contract is the law.

ghost use Rattle.commit_gate.specs.Beginnings.{FreshSessionsAreCallers};
ghost use Rattle.commit_gate.specs.JournalCalls.{DoubtfulCallsMove, MadeCallsMove, UnchangedCallsMove};
ghost use Rattle.commit_gate.specs.Openings.{OpeningsAreJournals};
ghost use Rattle.commit_gate.specs.SessionViews.{ShownSessionsExtend};

use tee_ports::Entropy;

/// A phase opens with a journal.
pub fn openings_are_journals()
    ensures { OpeningsAreJournals }
{}

/// A session as it begins is the store's.
pub fn fresh_sessions_are_callers<E: Entropy>()
    ensures { FreshSessionsAreCallers E }
{}

/// What extends the view of a session that was shown the whole history extends the view before it.
pub fn shown_sessions_extend()
    ensures { ShownSessionsExtend }
{}

/// A call that commits nothing moves its session as the machine's.
pub fn unchanged_calls_move<E: Entropy>()
    ensures { UnchangedCallsMove E }
{}

/// So does one whose commit is made.
pub fn made_calls_move<E: Entropy>()
    ensures { MadeCallsMove E }
{}

/// One whose commit is in doubt leaves its session as it was, with that doubt.
pub fn doubtful_calls_move<E: Entropy>()
    ensures { DoubtfulCallsMove E }
{}
