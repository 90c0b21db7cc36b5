//! Laws of runs of a script of the card. Each function does nothing: its contract is the law.

ghost use Rattle.tee_ports.specs.Faults.{Rose};
ghost use Rattle.script_runner.specs.CardRunLaws.{CardRunsAreOfAMap, CardRunsCount, QuietCardRunsEnd};

use tee_ports::{Entropy, Sink, Source};

/// Over a card that has the key and the form of objects, the replies of a run are those of a finite map, at whatever status it ends: a reply for a
/// device says that the call was done or not. At every exchange the card has the map before or the map after, and its block 0 is never written.
pub fn card_runs_are_of_a_map<S: Source, K: Sink, E: Entropy>(entropy: &E)
    ensures { (was source : S) (held sink : K) → CardRunsAreOfAMap (E.is_reliable entropy.now) (record {
      source_failed = Rose (S.faults was) (S.faults source);
      source_ended = S.has_ended source;
      sink_failed = Rose (K.faults held) (K.faults sink);
      sink_full = K.is_full sink;
    }) }
{}

/// Over a card that has the key, with a generator that never fails, no more replies are for a device than the port's count of faults rose, until
/// it stands at its end.
pub fn card_runs_count<S: Source, K: Sink, E: Entropy>(entropy: &E)
    ensures { (was source : S) (held sink : K) → CardRunsCount (E.is_reliable entropy.now) (record {
      source_failed = Rose (S.faults was) (S.faults source);
      source_ended = S.has_ended source;
      sink_failed = Rose (K.faults held) (K.faults sink);
      sink_full = K.is_full sink;
    }) }
{}

/// On devices that do not fail, over a card that has the key and the form of objects, a script that arms nothing ends with the status 0, or for
/// want of memory.
pub fn quiet_card_runs_end<S: Source, K: Sink, E: Entropy>(entropy: &E)
    ensures { (was source : S) (held sink : K) → QuietCardRunsEnd (E.is_reliable entropy.now) (record {
      source_failed = Rose (S.faults was) (S.faults source);
      source_ended = S.has_ended source;
      sink_failed = Rose (K.faults held) (K.faults sink);
      sink_full = K.is_full sink;
    }) }
{}
