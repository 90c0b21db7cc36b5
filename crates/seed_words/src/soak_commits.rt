//! How many commits a history has.

ghost use Rattle.std.specs.Prelude.{◌≡◌, ◌+◌, ◌<◌, ◌^◌, length};
ghost use Rattle.store_model.specs.Commits.{commits_of};
ghost use Rattle.store_model.specs.ReplayState.{is_of_card, keeps_doubt};
ghost use Rattle.seed_words.specs.CountedCommits.{with_event};

use crate::soak_outcome::event_at;
use store_model::{Event, History, Mark};
use tee_types::{Cause, Device, Reply};

/// How many commits stand among some events, and whether one is in doubt behind them.
#[derive(Clone, Copy, Debug)]
pub(crate) struct Commits {
    /// Those that were made, and those in doubt that landed.
    pub count: u64,
    /// One is in doubt.
    pub doubted: bool,
}

/// Whether the cause may be that an open doubt could not be resolved.
fn is_of_card(cause: Cause) -> bool
    ensures { result ≡ is_of_card cause }
{
    match cause {
        Cause::Fault { device, .. } => match device {
            Device::Card | Device::Entropy => true,
            _ => false,
        },
        Cause::Frame(_) | Cause::CardResult(_) => true,
    }
}

/// Whether a call that was answered so leaves an open doubt open.
fn keeps_doubt(reply: &Reply) -> bool
    ensures { result ≡ keeps_doubt reply.now }
{
    match reply {
        Reply::Misuse(_) => true,
        Reply::NotAvailable(cause) => is_of_card(*cause),
        _ => false,
    }
}

/// The commits with one event more.
fn with_event(commits: Commits, event: &Event) -> Commits
    requires { commits.count + 1 < 2 ^ 64 }
    ensures { result ≡ with_event commits event.now }
{
    let Commits { count, doubted } = commits;
    match event {
        Event::Call { reply, mark, .. } => match mark {
            Mark::Made(_) => Commits {
                count: count + 1,
                doubted: false,
            },
            Mark::Doubtful(_) => Commits {
                count,
                doubted: true,
            },
            Mark::Unchanged => Commits {
                count,
                doubted: doubted && keeps_doubt(reply),
            },
        },
        Event::Landed { .. } => Commits {
            count: count + u64::from(doubted),
            doubted: false,
        },
    }
}

/// How many commits a history has.
pub(crate) fn commit_count(history: &History) -> u64
    ensures { result ≡ length (commits_of history.now.events) }
{
    let mut commits = Commits {
        count: 0,
        doubted: false,
    };
    for place in 0..history.len() {
        commits = with_event(commits, event_at(history, place));
    }
    commits.count
}
