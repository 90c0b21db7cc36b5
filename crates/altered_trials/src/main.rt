//! Tries files that are altered: the directory's, those of two objects, and the one that a create takes. They are put back as they
//! were at each of five moments, and a byte of each field of their heads, nodes and blocks is changed, before a phase or before one of the first twenty
//! calls in it. Each answer behind that is the one of the file that was not altered, or tells of damage.
#![tactic(auto)]

use altered::altered_lines;
use trial_runs::print_line;

mod altered;
mod table;

fn main(rt: HostRuntime) -> anyhow::Result<()> {
    print_line(&rt, altered_lines(&rt, rt.alloc())?.as_str())
}
