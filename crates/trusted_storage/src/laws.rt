//! The laws. Each function does nothing: its contract is the law.

ghost use Rattle.std.specs.Prelude.{◌⊎◌};
ghost use Rattle.tee_ports.specs.Faults.{Rose};
ghost use Rattle.trusted_storage.specs.Laws.{AlteredFilesAgree, AlteredPhasesAreLegal, CallsAreServedOnce, CardRunsAreOfAMap, CertificatesHold, CutsAtExit, CutsBetweenActs, CutsInsidePhases, CutsKeep, MigrationsKeepObjects, NextRunsFindLeft, PhasesEndLegal, PhasesKeepQuotas, QuietRunsAreDone, RepliesAccuseRightly, RepliesAreLegal, RunsAreFresh, RunsWithoutQuotasFit, RunsWriteTheirRecords, ServiceCallsStand, SharedCallsStand, StatusesHaveCauses, WhatIsLeftIsFound};
ghost use Rattle.trusted_storage.specs.Runs.{streams_of};

use rpmb_card::RpmbPort;
use tee_ports::{Entropy, FileRig, Sink, Source, StoreFile};

/// What was put begins the text of the script that was taken, with what was recorded of its acts.
pub fn runs_write_their_records<S: Source, K: Sink, F: FileRig, R: RpmbPort, E: Entropy>(
    entropy: &E,
)
    ensures { (was source : S) (held sink : K) → RunsWriteTheirRecords F.state R.state F.crash_image (E.is_reliable entropy.now) (streams_of S.faults S.has_ended K.faults K.is_full was source held sink) }
{}

/// What was recorded is of the script's acts, in order. Each phase that was run has the calls of its act, each once: as events, those of each
/// application in their order, and in a serial phase all of them; or as calls that were refused under quotas.
pub fn calls_are_served_once<S: Source, K: Sink, F: FileRig, R: RpmbPort, E: Entropy>(entropy: &E)
    ensures { (was source : S) (held sink : K) → CallsAreServedOnce F.state R.state F.crash_image (E.is_reliable entropy.now) (streams_of S.faults S.has_ended K.faults K.is_full was source held sink) }
{}

/// Over honest files each reply of a run is one that the specification allows where it stands, in one order for all applications.
pub fn replies_are_legal<S: Source, K: Sink, F: FileRig, R: RpmbPort, E: Entropy>(entropy: &E)
    ensures { (was source : S) (held sink : K) → RepliesAreLegal F.state R.state F.crash_image (E.is_reliable entropy.now) (streams_of S.faults S.has_ended K.faults K.is_full was source held sink) }
{}

/// A phase under quotas keeps them. An event that raises the number of an application's objects, or of their bytes, leaves it within its quota. A call
/// that was refused would have left its application beyond its quota, where it was refused. And each application is answered by its own calls alone,
/// from its own objects, or a device has the blame: no other can fill its store.
pub fn phases_keep_quotas<S: Source, K: Sink, F: FileRig, R: RpmbPort, E: Entropy>(entropy: &E)
    ensures { (was source : S) (held sink : K) → PhasesKeepQuotas F.state R.state F.crash_image (E.is_reliable entropy.now) (streams_of S.faults S.has_ended K.faults K.is_full was source held sink) }
{}

/// A reply that a device is not available carries the number of one of that device's failed calls, whatever the files and the card are: of a call in
/// its phase, and above the number in each such reply before it, until the count stands still at 2^64 - 1.
pub fn replies_accuse_rightly<S: Source, K: Sink, F: FileRig, R: RpmbPort, E: Entropy>(entropy: &E)
    ensures { (was source : S) (held sink : K) → RepliesAccuseRightly F.state R.state F.crash_image (E.is_reliable entropy.now) (streams_of S.faults S.has_ended K.faults K.is_full was source held sink) }
{}

/// Each phase and each list of a run finds what the records before it leave, over power cuts between them. No store is refused.
pub fn what_is_left_is_found<S: Source, K: Sink, F: FileRig, R: RpmbPort, E: Entropy>(entropy: &E)
    ensures { (was source : S) (held sink : K) → WhatIsLeftIsFound F.state R.state F.crash_image (E.is_reliable entropy.now) (streams_of S.faults S.has_ended K.faults K.is_full was source held sink) }
{}

/// Whatever a power cut leaves of the bench, behind any act of a run, mounts to what the records down to there leave.
pub fn cuts_between_acts<S: Source, K: Sink, F: FileRig, R: RpmbPort, E: Entropy>(entropy: &E)
    ensures { (was source : S) (held sink : K) → CutsBetweenActs F.state R.state F.crash_image (E.is_reliable entropy.now) (streams_of S.faults S.has_ended K.faults K.is_full was source held sink) }
{}

/// Behind a phase, wherever each of its devices stopped, the bench holds what the history of that phase leaves. This stands for a power cut inside it.
pub fn cuts_inside_phases<S: Source, K: Sink, F: FileRig, R: RpmbPort, E: Entropy>(entropy: &E)
    ensures { (was source : S) (held sink : K) → CutsInsidePhases F.state R.state F.crash_image (E.is_reliable entropy.now) (streams_of S.faults S.has_ended K.faults K.is_full was source held sink) }
{}

/// So of the bench that a run gives back, at whatever status it ended: the next run may begin with it.
pub fn cuts_at_exit<S: Source, K: Sink, F: FileRig, R: RpmbPort, E: Entropy>(entropy: &E)
    ensures { (was source : S) (held sink : K) → CutsAtExit F.state R.state F.crash_image (E.is_reliable entropy.now) (streams_of S.faults S.has_ended K.faults K.is_full was source held sink) }
{}

/// Whatever a script did to the files: each mount and each list agrees with the bench that was closed last before it, or what was read clashes with it.
pub fn runs_are_fresh<S: Source, K: Sink, F: FileRig, R: RpmbPort, E: Entropy>(entropy: &E)
    ensures { (was source : S) (held sink : K) → RunsAreFresh F.state R.state F.crash_image (E.is_reliable entropy.now) (streams_of S.faults S.has_ended K.faults K.is_full was source held sink) }
{}

/// A status comes only where its cause holds; and where the length or the text of a script decides it, it comes, or memory ran out.
pub fn statuses_have_causes<S: Source, K: Sink, F: FileRig, R: RpmbPort, E: Entropy>(entropy: &E)
    ensures { (was source : S) (held sink : K) → StatusesHaveCauses F.state R.state F.crash_image (E.is_reliable entropy.now) (streams_of S.faults S.has_ended K.faults K.is_full was source held sink) }
{}

/// A script that sets no quotas does not exceed the store.
pub fn runs_without_quotas_fit<S: Source, K: Sink, F: FileRig, R: RpmbPort, E: Entropy>(entropy: &E)
    ensures { (was source : S) (held sink : K) → RunsWithoutQuotasFit F.state R.state F.crash_image (E.is_reliable entropy.now) (streams_of S.faults S.has_ended K.faults K.is_full was source held sink) }
{}

/// Over devices that do not fail a script that arms and alters nothing is done, or memory ran out, unless its quotas exceed the store.
pub fn quiet_runs_are_done<S: Source, K: Sink, F: FileRig, R: RpmbPort, E: Entropy>(entropy: &E)
    ensures { (was source : S) (held sink : K) → QuietRunsAreDone F.state R.state F.crash_image (E.is_reliable entropy.now) (streams_of S.faults S.has_ended K.faults K.is_full was source held sink) }
{}

/// Over a card that has our key and the form of objects, a script of the card alone is answered as a finite map; and at each exchange the card has the
/// map of before the call or that of behind it.
pub fn card_runs_are_of_a_map<S: Source, K: Sink, E: Entropy>(entropy: &E)
    ensures { (was source : S) (held sink : K) → CardRunsAreOfAMap (E.is_reliable entropy.now) (streams_of S.faults S.has_ended K.faults K.is_full was source held sink) }
{}

/// What was answered stands in the next run, whatever a power cut between them left.
pub fn next_runs_find_left<S: Source, K: Sink, F: FileRig, R: RpmbPort, E: Entropy>(
    entropy: &E,
    later: &E,
)
    ensures { (was source before behind : S) (held sink empty full : K) → NextRunsFindLeft F.state R.state F.crash_image (E.is_reliable entropy.now) (E.is_reliable later.now) (streams_of S.faults S.has_ended K.faults K.is_full was source held sink) (streams_of S.faults S.has_ended K.faults K.is_full before behind empty full) }
{}

/// A power cut leaves a bench that holds what it held.
pub fn cuts_keep()
    ensures { CutsKeep }
{}

/// Whatever files stand beside a card: what mounts of them agrees with what the bench under that card's block 0 holds, or they clash.
pub fn altered_files_agree()
    ensures { AlteredFilesAgree }
{}

/// However a migration ended, the bench mounts to the objects that it mounted to before.
pub fn migrations_keep_objects<K: Sink, F: FileRig, R: RpmbPort>()
    ensures { (held sink : K) → MigrationsKeepObjects F.state R.state (Rose (K.faults held) (K.faults sink) ⊎ K.is_full sink) }
{}

/// What `check` of `image_audit` accepts under a card's block 0, holds in every picture with that block that mounts, or they clash.
pub fn certificates_hold()
    ensures { CertificatesHold }
{}

/// Over honest files each phase ends with a legal history, and each picture of its devices mounts to what that leaves: on one thread
/// (`Service::finish`), and on threads that share the store (`close_slots`).
pub fn phases_end_legal()
    ensures { PhasesEndLegal }
{}

/// Over altered files a phase's history is legal too, where nothing in them was damaged as it opened; or at a first event what such a file gave
/// clashes with what was committed.
pub fn altered_phases_are_legal()
    ensures { AlteredPhasesAreLegal }
{}

/// A call of a service on one thread that is given a place (`Service::call`) stands there with its reply, as its session's next event.
pub fn service_calls_stand<F: StoreFile, R: RpmbPort, E: Entropy>()
    ensures { ServiceCallsStand F.state R.state E.faults }
{}

/// So does a call of a store that threads share (`SharedStore::call`).
pub fn shared_calls_stand<E: Entropy, X>()
    ensures { SharedCallsStand E X }
{}
