//! Laws of the machine. Each function does nothing: its contract is the law.

ghost use Rattle.store_model.specs.Refusal.{RefusalsChangeNothing, RepliesNameNoDevice};
ghost use Rattle.store_model.specs.Makes.{CommitsMakeChanges};
ghost use Rattle.store_model.specs.Laws.{PrefixesAreLegal, CallsKeepMaps, OthersKeepMaps, UnchangedMapsStay, OtherSessionsStay, SessionsStay, EnumeratorsGiveTheLeast};

/// A refused call changes nothing: no object, handle, position or enumerator, and no number of a next one. A start that finds no object
/// leaves its enumerator not started.
#[tactic(auto, using(crate::proofs::Refusals::refusals_change_nothing))]
pub fn refusals_change_nothing()
    ensures { RefusalsChangeNothing }
{}

/// The machine has no devices, so no reply is one of theirs.
#[tactic(auto, using(crate::proofs::Refusals::replies_name_no_device))]
pub fn replies_name_no_device()
    ensures { RepliesNameNoDevice }
{}

/// A call whose reply is no commit leaves the map of objects.
#[tactic(auto, using(crate::proofs::QuietCalls::others_keep_maps))]
pub fn others_keep_maps()
    ensures { OthersKeepMaps }
{}

/// A legal event that is marked as no commit leaves the map of objects.
pub fn unchanged_maps_stay()
    ensures { UnchangedMapsStay }
{}

/// The commit of a call makes the change of the map that the call names.
#[tactic(auto, using(crate::proofs::MadeChanges::commits_make_changes))]
pub fn commits_make_changes()
    ensures { CommitsMakeChanges }
{}

/// What begins a legal history is a legal history: what the rest names is not needed for it.
#[tactic(auto, using(crate::proofs::Prefixes::prefixes_are_legal))]
pub fn prefixes_are_legal<Root>()
    ensures { PrefixesAreLegal Root }
{}

/// A well formed call leaves a map of objects.
pub fn calls_keep_maps()
    ensures { CallsKeepMaps }
{}

/// A call changes no session but its own.
#[tactic(auto, using(crate::proofs::OtherSessions::other_sessions_stay))]
pub fn other_sessions_stay()
    ensures { OtherSessionsStay }
{}

/// A replay keeps the number of sessions.
#[tactic(auto, using(crate::proofs::Sessions::sessions_stay))]
pub fn sessions_stay<Root>()
    ensures { SessionsStay Root }
{}

/// An enumerator gives the least name above the last one given.
pub fn enumerators_give_the_least()
    ensures { EnumeratorsGiveTheLeast }
{}
