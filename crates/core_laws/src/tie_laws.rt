//! Laws of the ties. Each function does nothing: its contract is the law.

ghost use Rattle.core_laws.specs.TieLaws.{DoubtfulCommitsKeepTies, DropsKeepTies, LandingsKeepTies, MadeCommitsKeepTies, OpeningsAreTied, ReplaysRise, UnchangedEventsKeepTies};
ghost use Rattle.core_laws.specs.MachineChanges.{ApplicationsStay, CommitsMakeEntries};
ghost use Rattle.core_laws.specs.TagLaws.{CommitTagsAreRight, UnchangedTagsAreRight};
ghost use Rattle.core_laws.specs.OwnEntries.{TiedCommitsMakeEntries, TiedEntriesTell};
ghost use Rattle.core_laws.specs.CommitMaps.{CommitsKeepMaps, WholeVersionsStand};
ghost use Rattle.core_laws.specs.CommitAnswers.{CommitsAreLegal};
ghost use Rattle.core_laws.specs.DueChanges.{DueChangesAreCommits};
ghost use Rattle.core_laws.specs.EventAnswers.{LandingsAreLegal, OpenDoubtsAreHeld, UnmadeCommitsAreLegal, UnresolvedCallsAreLegal};
ghost use Rattle.core_laws.specs.EntryFacts.{MatchedEntriesTell};

/// Along every replay the names of the machine's objects rise, if they do where it begins.
#[tactic(auto, using(crate::proofs::Rising::replays_rise))]
pub fn replays_rise()
    ensures { ReplaysRise }
{}

/// The ties hold before the first event.
pub fn openings_are_tied()
    ensures { OpeningsAreTied }
{}

/// An event that commits nothing keeps them, with the same entries, counter and doubt.
pub fn unchanged_events_keep_ties()
    ensures { UnchangedEventsKeepTies }
{}

/// A doubt that is dropped leaves the entries as they were, and none open.
#[tactic(auto, using(crate::proofs::QuietTies::dropped_ties))]
pub fn drops_keep_ties()
    ensures { DropsKeepTies }
{}

/// A commit that is made changes the entries as its call does, and its number is the counter.
pub fn made_commits_keep_ties()
    ensures { MadeCommitsKeepTies }
{}

/// A commit in doubt leaves entries and counter, and the gate's doubt is that commit with its change.
pub fn doubtful_commits_keep_ties()
    ensures { DoubtfulCommitsKeepTies }
{}

/// A landing makes the change of the gate's doubt.
pub fn landings_keep_ties()
    ensures { LandingsKeepTies }
{}

/// Each entry tells of the machine's object, and each object has an entry.
#[tactic(auto, using(crate::proofs::Facts::matched_tell))]
pub fn matched_entries_tell()
    ensures { MatchedEntriesTell }
{}

/// A call that is a commit of the machine changes its map as it changes the entries.
#[tactic(auto, using(crate::proofs::Making::commits_make))]
pub fn commits_make_entries()
    ensures { CommitsMakeEntries }
{}

/// Whatever happens, a session of the machine stays of the application that the mount tells.
#[tactic(auto, using(crate::proofs::Applications::applications_stay))]
pub fn applications_stay()
    ensures { ApplicationsStay }
{}

/// Of an event that commits nothing the tag is right that names what is given.
pub fn unchanged_tags_are_right()
    ensures { UnchangedTagsAreRight }
{}

/// Of a commit that changes the gate's entries the tag is right that names what it leaves.
pub fn commit_tags_are_right()
    ensures { CommitTagsAreRight }
{}

/// The gate's entries tell of the machine's objects: of those that are there, of what is lacked, and of the one for which a live handle
/// stands.
pub fn tied_entries_tell()
    ensures { TiedEntriesTell }
{}

/// A commit of the gate's entries is the machine's, where its call is one.
pub fn tied_commits_make_entries()
    ensures { TiedCommitsMakeEntries }
{}

/// Such a commit keeps the map of objects in step, made or in doubt, where what stands for its version is the machine's object.
pub fn commits_keep_maps()
    ensures { CommitsKeepMaps }
{}

/// Such a commit is legal under the tamper scenario, made or in doubt, and keeps the map in step.
pub fn commits_are_legal()
    ensures { CommitsAreLegal }
{}

/// A version without damage stands under every tamper scenario.
pub fn whole_versions_stand()
    ensures { WholeVersionsStand }
{}

/// A commit of the machine may be answered with why it was not made.
pub fn unmade_commits_are_legal()
    ensures { UnmadeCommitsAreLegal }
{}

/// While the gate has a doubt, a call may be answered with what kept the doubt from being resolved.
pub fn unresolved_calls_are_legal()
    ensures { UnresolvedCallsAreLegal }
{}

/// The gate's doubt may land.
pub fn landings_are_legal()
    ensures { LandingsAreLegal }
{}

/// A doubt that is open in the history is the gate's, and under each tamper scenario the replay has it open.
pub fn open_doubts_are_held()
    ensures { OpenDoubtsAreHeld }
{}

/// A write or a truncate that is the machine's, by what its object's file gave, is such a commit.
pub fn due_changes_are_commits()
    ensures { DueChangesAreCommits }
{}
