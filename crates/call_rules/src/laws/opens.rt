//! Laws of the table of open handles, as calls change it.

ghost use Rattle.call_rules.specs.OpenLaws.{AnsweredCallsKeepOpen, DropsTakeOneRecord, LandedCommitsKeepOpen, MadeCommitsKeepOpen, OpeningsAreOpen, UndoneCallsKeepOpen};

/// A phase opens with no handle in its table.
pub fn openings_are_open()
    ensures { OpeningsAreOpen }
{}

/// A handle that is dropped takes its own record away, and no other.
pub fn drops_take_one_record()
    ensures { DropsTakeOneRecord }
{}

/// A call that is not done changes no handle.
pub fn undone_calls_keep_open()
    ensures { UndoneCallsKeepOpen }
{}

/// A call that is answered as the machine does, and is no commit, leaves the entries, and the table follows.
pub fn answered_calls_keep_open()
    ensures { AnsweredCallsKeepOpen }
{}

/// A commit that is made changes an entry, and the table follows.
pub fn made_commits_keep_open()
    ensures { MadeCommitsKeepOpen }
{}

/// So does a commit in doubt as it lands.
pub fn landed_commits_keep_open()
    ensures { LandedCommitsKeepOpen }
{}
