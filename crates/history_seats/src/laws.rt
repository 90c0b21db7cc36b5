//! Laws of the views. Each function does nothing: its contract is the law.

ghost use Rattle.history_seats.specs.VersionLaws.{LastTagsDecide, SlotsTellVersions, SlotsTellGiven, SlotsKnowEntries, CalmVersionsStay};
ghost use Rattle.history_seats.specs.DoubtLaws.{DoubtsOpen, DoubtsStayOpen, ReplayedDoubtsAreOpen, DroppedDoubtsStay, DoubtsAreLearned};
ghost use Rattle.history_seats.specs.EntryLaws.{LandingsBringNamed, EntriesHaveVersions, UnchangedEventsLeave};
ghost use Rattle.history_seats.specs.CommitLaws.{MadeCommitsGive, DoubtfulCommitsGive, LandingsGive, CommitsMoveEntries, CreatesNameVersions};
ghost use Rattle.history_seats.specs.SessionLaws.{PassesTellCounts, PassesTellSessions, CalmSessionsStay, LegalLandingsAreDue};

/// The last record whose tag names a file's generation decides their version, up to the event that settles its doubt.
pub fn last_tags_decide()
    ensures { LastTagsDecide }
{}

/// A slot's view tells which version of its file stands after the whole history: past what it has seen, only the event that settles its
/// doubt counts, and the gate's place.
pub fn slots_tell_versions()
    ensures { SlotsTellVersions }
{}

/// The whole history gives for a slot's file and generation what its view tells, or nothing; and nothing where the view tells of no entry.
pub fn slots_tell_given()
    ensures { SlotsTellGiven }
{}

/// What the whole history gives for a slot's file, or leaves there by a doubt, its view knows.
pub fn slots_know_entries()
    ensures { SlotsKnowEntries }
{}

/// A version that no doubt touches in a slot's view stands after the whole history.
pub fn calm_versions_stay()
    ensures { CalmVersionsStay }
{}

/// A doubtful event opens its doubt.
pub fn doubts_open()
    ensures { DoubtsOpen }
{}

/// An event with mark Unchanged leaves the open doubt as it is.
pub fn doubts_stay_open()
    ensures { DoubtsStayOpen }
{}

/// The doubt that a replay has open at its end is open in the records.
pub fn replayed_doubts_are_open()
    ensures { ReplayedDoubtsAreOpen }
{}

/// A doubt that was dropped never lands.
pub fn dropped_doubts_stay()
    ensures { DroppedDoubtsStay }
{}

/// What became of a doubt: it landed where a landing settles it, and did not where another event does, or where nothing does and it stands
/// below the view's place.
pub fn doubts_are_learned()
    ensures { DoubtsAreLearned }
{}

/// A landing brings no entry of a file's generation that its doubt does not name.
pub fn landings_bring_named()
    ensures { LandingsBringNamed }
{}

/// Each entry of the directory has a version.
pub fn entries_have_versions()
    ensures { EntriesHaveVersions }
{}

/// An event with mark Unchanged leaves the directory, what is given and what is left in doubt.
pub fn unchanged_events_leave()
    ensures { UnchangedEventsLeave }
{}

/// A commit that is made gives the version that its tag names, and leaves the others' where their entry stays.
pub fn made_commits_give()
    ensures { MadeCommitsGive }
{}

/// A commit in doubt leaves what is given, and leaves the version of its tag in doubt.
pub fn doubtful_commits_give()
    ensures { DoubtfulCommitsGive }
{}

/// A landing gives what the doubt left, where the directory then has an entry.
pub fn landings_give()
    ensures { LandingsGive }
{}

/// A commit's tag has an entry after a create, none after a delete, and else where it had one.
pub fn commits_move_entries()
    ensures { CommitsMoveEntries }
{}

/// A create that is made may name its new version.
pub fn creates_name_versions()
    ensures { CreatesNameVersions }
{}

/// A pass's view tells how many events its session has in the whole history.
pub fn passes_tell_counts()
    ensures { PassesTellCounts }
{}

/// A pass's view tells the state of its session after the whole history: past what it has seen, only the event that settles the session's
/// doubt counts, or drops it, and the gate's place.
pub fn passes_tell_sessions()
    ensures { PassesTellSessions }
{}

/// A session that no doubt touches in a pass's view stands after the whole history.
pub fn calm_sessions_stay()
    ensures { CalmSessionsStay }
{}

/// In a legal history each landing stands where a doubt is open.
pub fn legal_landings_are_due()
    ensures { LegalLandingsAreDue }
{}
