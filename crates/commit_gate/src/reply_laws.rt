//! Laws of answers that an object's file has a part in. Each function does nothing: its contract is the law.

ghost use Rattle.commit_gate.specs.EntryCalls.{EntryCallsAreOnFiles};
ghost use Rattle.commit_gate.specs.ReplyLaws.{FailedFilesAreLegal, HonestAnswersAreLegal, RefusedFilesAreFair, ToldFilesAreFair};

/// A call that its object's file failed may be answered with that fault.
pub fn failed_files_are_legal()
    ensures { FailedFilesAreLegal }
{}

/// One whose object's file gave what was refused may be answered as corrupt, under each tamper scenario in which the file is not honest.
pub fn refused_files_are_fair()
    ensures { RefusedFilesAreFair }
{}

/// One that is answered with what its object's file gave is answered fairly, whatever the file is.
pub fn told_files_are_fair()
    ensures { ToldFilesAreFair }
{}

/// Of a file that is honest, what the version's object answers to the call is legal: its own bytes, or Corrupt where damage is met.
pub fn honest_answers_are_legal()
    ensures { HonestAnswersAreLegal }
{}

/// A call on the object of one of the gate's entries is one on the entry's file, under each tamper scenario.
pub fn entry_calls_are_on_files<F, R>()
    ensures { EntryCallsAreOnFiles F R }
{}
