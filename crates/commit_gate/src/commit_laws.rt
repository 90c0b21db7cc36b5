//! Laws of commits at the gate. Each function does nothing: its contract is the law.

ghost use Rattle.commit_gate.specs.GateCommitLaws.{DoubtfulCommitsKeepGates, MadeCommitsKeepGates, ReadyCommitsAreFair};

use rpmb_card::RpmbPort;
use tee_ports::StoreFile;

/// Each end of a ready commit is fair under each tamper scenario, and its tag is right.
pub fn ready_commits_are_fair()
    ensures { ReadyCommitsAreFair }
{}

/// Behind a commit in doubt what always holds of the gate holds.
pub fn doubtful_commits_keep_gates<F: StoreFile, R: RpmbPort>()
    ensures { DoubtfulCommitsKeepGates F R }
{}

/// So it does behind a commit that was made.
pub fn made_commits_keep_gates<F: StoreFile, R: RpmbPort>()
    ensures { MadeCommitsKeepGates F R }
{}
