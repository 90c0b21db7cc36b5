//! What became of a commit in doubt.

ghost use Rattle.std.specs.Prelude.{◌≡◌, ◌<◌, ◌+◌, drop, find, length, option_and_then, option_map, slice_get};
ghost use Rattle.history_seats.specs.Settling.{is_landing, settles};
ghost use Rattle.commit_gate.specs.Outcomes.{landing_in, settled_by_landing};

use store_model::{Event, History, Mark};

/// What became of a commit in doubt.
#[derive(Clone, Copy, Debug, PartialEq, Eq)]
pub enum Settled {
    /// It is still in doubt.
    Open,
    /// It landed.
    Landed,
    /// It did not land, and never will.
    Dropped,
}

// Whether the event is a landing, where it settles the doubt that is open before it.
fn landing(event: &Event) -> Option<bool>
    ensures { result ≡ landing_in event.now }
{
    match event {
        Event::Landed { commit: _ } => Some(true),
        Event::Call {
            session: _,
            number: _,
            call: _,
            reply: _,
            mark,
        } => match mark {
            Mark::Unchanged => None,
            Mark::Made(_) | Mark::Doubtful(_) => Some(false),
        },
    }
}

// The same of the event at that place.
fn landing_at(history: &History, place: u64) -> Option<bool>
    ensures { result ≡ option_and_then landing_in (slice_get history.now.events place) }
{
    let event = history.get(place)?;
    landing(event)
}

// What became of a doubt, by whether the event that settles it is a landing, and whether it stands below the place where each is decided.
pub(crate) fn settled_by(landed: Option<bool>, below: bool) -> Settled
    ensures { result ≡ settled_by_landing landed below }
{
    match landed {
        Some(true) => Settled::Landed,
        Some(false) => Settled::Dropped,
        None if below => Settled::Dropped,
        None => Settled::Open,
    }
}

// Whether the first event behind that place that settles a doubt is a landing.
#[tactic(auto, using(crate::proofs::Landings::find_step, crate::proofs::Landings::find_hit, crate::proofs::Landings::find_end))]
pub(crate) fn first_landing(history: &History, place: u64) -> Option<bool>
    requires { place < length history.now.events }
    ensures { result ≡ option_map is_landing (find settles (drop (place + 1) history.now.events)) }
{
    let length = history.len();
    for next in place + 1..length {
        if let Some(landed) = landing_at(history, next) {
            return Some(landed);
        }
    }
    None
}
