//! Laws of the table of open handles along a history, under each tamper scenario under which that is answered.

ghost use Rattle.call_rules.specs.EventLaws.{DoubtfulEventsKeepOpen, LandedEventsKeepOpen, MadeEventsKeepOpen, UnchangedEventsKeepOpen};

/// A call that is marked Unchanged leaves the entries, and the table follows.
pub fn unchanged_events_keep_open()
    ensures { UnchangedEventsKeepOpen }
{}

/// One that left its commit in doubt changes no handle.
pub fn doubtful_events_keep_open()
    ensures { DoubtfulEventsKeepOpen }
{}

/// A commit that is made changes one entry, and the table follows.
pub fn made_events_keep_open()
    ensures { MadeEventsKeepOpen }
{}

/// So does one that lands.
pub fn landed_events_keep_open()
    ensures { LandedEventsKeepOpen }
{}
