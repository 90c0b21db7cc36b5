//! Tries phases on threads: their histories once more, one call after another and on the machine of the model, applications under quotas,
//! applications that wait for each other, soaks, and power cuts.
//!
//! First come scripts of four sessions on threads, two of each application, which call the same few objects. The calls of each
//! history are run once more as a serial script, in the history's order, and on the machine of the model: the replies and the objects must
//! be the same.
//!
//! The next line is of scripts of two applications under quotas on threads. Each of them must have the answers that it has alone, and leave the same
//! objects.
//!
//! The line behind it is of two applications on threads whose files wait for each other: a call of each has to be under way at once.
//!
//! The next line is of soaks: each is run twice, and its calls are made on the machine of the model, which must leave the same objects.
//!
//! The table is of power cuts behind phases on threads. Four sessions make, write, rename and delete objects, while the directory's file or
//! the card stops or fails at one of its first calls. Then the power fails, and a list must show the objects that the calls of the history leave,
//! run once more as a serial script over new devices, but for those that a device kept from being done; or these with the one call that the
//! card did not confirm. A list that shows neither has lost an object, or invented one.
#![tactic(auto)]

use meetings::meeting_line;
use power_cuts::cut_lines;
use quotas::quota_line;
use replays::replay_line;
use soaks::soak_line;
use trial_runs::print_line;

mod busy;
mod histories;
mod machine;
mod meeting_file;
mod meetings;
mod power_cuts;
mod quotas;
mod replays;
mod soaks;
mod table;

fn main(rt: HostRuntime) -> anyhow::Result<()> {
    print_line(&rt, replay_line(&rt, rt.alloc())?.as_str())?;
    print_line(&rt, quota_line(&rt, rt.alloc())?.as_str())?;
    print_line(&rt, meeting_line(&rt, rt.alloc())?.as_str())?;
    print_line(&rt, soak_line(&rt, rt.alloc())?.as_str())?;
    print_line(&rt, cut_lines(&rt, rt.alloc())?.trim_end())
}
