//! Laws of tamper scenarios. Each function does nothing: its contract is the law.

ghost use Rattle.core_laws.specs.TreeLaws.{OneReferenceNamesOneTree, AlikeTreesAreSame, ImagesHoldRealVersions, ScenariosMend, ScenariosKeepSizes, HonestFilesStand, NothingComesBack, ScenariosAreVerified, ScenariosKeepGood, UnmetPagesStay};
ghost use Rattle.core_laws.specs.EndLaws.{FairHistoriesAreAnswered, AnsweredHistoriesAreLegal, AnsweredLandingsAreDue, UndamagedEndsClash, FairHistoriesAreLegal, LegalEventsAreLegal, AnswersAreByEvent, FairnessIsByEvent, OwnEventsAreByEvent};
ghost use Rattle.core_laws.specs.Undamaged.{LegalHistoriesDamageNone};
ghost use Rattle.core_laws.specs.MaskLaws.{MasksOnBlocksShowNoOther, UnmaskedFilesEndNothing, UnmaskedFilesShowNoClash};
ghost use Rattle.core_laws.specs.MapLaws.{OpeningsAreInStep, EntriesHaveObjects, UnchangedEventsKeepMaps, LandingsKeepMaps, DropsKeepMaps};
ghost use Rattle.core_laws.specs.CommitLaws.{MadeChangesKeepMaps, DoubtfulChangesKeepMaps};
ghost use Rattle.core_laws.specs.Listings.{ListedEntriesAreApart, ListedEntriesAreNamed};
ghost use Rattle.core_laws.specs.ReadLaws.{ToldRepliesAreAnswered};
ghost use Rattle.core_laws.specs.WriteLaws.{TruncationsStandOrStray, WritesStandOrStray};
ghost use Rattle.core_laws.specs.EntryLaws.{CreatesKeepMaps, DeletesKeepMaps, RenamesKeepMaps};
ghost use Rattle.core_laws.specs.CallLaws.{CallsExtendSessions, EntriesTagCalls, FreeFilesTagCreates, SessionsRenew};
ghost use Rattle.core_laws.specs.ChangeLaws.{TruncationsAreDueOrEnd, WritesAreDueOrEnd};
ghost use Rattle.core_laws.specs.SessionLaws.{SessionsAreApplications, ViewsTellSessions, CalmSessionsStand, UnchangedSessionsStand, MadeSessionsStand, DoubtfulSessionsStand};

/// Two trees that are verified under one reference have one head and nodes that hash alike, or two of their nodes clash.
pub fn one_reference_names_one_tree()
    ensures { OneReferenceNamesOneTree }
{}

/// Alike trees whose flags are 16 bits are the same.
#[tactic(auto, using(crate::proofs::SameTrees::same_alike))]
pub fn alike_trees_are_same()
    ensures { AlikeTreesAreSame }
{}

/// The version that a reference names in an image is real, whatever the image is.
#[tactic(auto, using(crate::proofs::Images::image_real))]
pub fn images_hold_real_versions()
    ensures { ImagesHoldRealVersions }
{}

/// A tamper scenario leaves a version's object with less damage, or the same.
#[tactic(auto, using(crate::proofs::Mending::less_under))]
pub fn scenarios_mend()
    ensures { ScenariosMend }
{}

/// A tamper scenario keeps the size of an object.
#[tactic(auto, using(crate::proofs::Mending::size_under))]
pub fn scenarios_keep_sizes()
    ensures { ScenariosKeepSizes }
{}

/// In a file that is honest stands what was committed.
#[tactic(auto, using(crate::proofs::Mending::object_honest))]
pub fn honest_files_stand()
    ensures { HonestFilesStand }
{}

/// For every set of files there is the tamper scenario that nothing comes back, and under it what was committed stands.
#[tactic(auto, using(crate::proofs::Mending::object_nothing))]
pub fn nothing_comes_back()
    ensures { NothingComesBack }
{}

/// What stands for a real version is verified under its reference, with the key that its head wraps.
pub fn scenarios_are_verified()
    ensures { ScenariosAreVerified }
{}

/// What stands for a version whose tree loads has that tree, and its good pages.
#[tactic(auto, using(crate::proofs::ReplayState::keeps_own))]
pub fn scenarios_keep_good()
    ensures { ScenariosKeepGood }
{}

/// A block that a change does not meet has the page in the next version that it had, under each tamper scenario.
#[tactic(auto, using(crate::proofs::ReplayState::unmet_page))]
pub fn unmet_pages_stay()
    ensures { UnmetPagesStay }
{}

/// In a fair history each event is answered, or the promises end at a first one.
#[tactic(auto, using(crate::proofs::Narrowing::all_answered))]
pub fn fair_histories_are_answered()
    ensures { FairHistoriesAreAnswered }
{}

/// Where no event shows a clash, an answered history is legal.
#[tactic(auto, using(crate::proofs::Narrowing::legal_without))]
pub fn answered_histories_are_legal()
    ensures { AnsweredHistoriesAreLegal }
{}

/// In an answered history each landing stands where a doubt is open.
#[tactic(auto, using(crate::proofs::SessionSteps::answered_due))]
pub fn answered_landings_are_due()
    ensures { AnsweredLandingsAreDue }
{}

/// A legal history damages no object of these files.
pub fn legal_histories_damage_none()
    ensures { LegalHistoriesDamageNone }
{}

/// Where nothing of what stands for a version is damaged, the promises end at it only by a clash.
pub fn undamaged_ends_clash()
    ensures { UndamagedEndsClash }
{}

/// Where each event is legal, so is the history.
pub fn legal_events_are_legal()
    ensures { LegalEventsAreLegal }
{}

/// Where no object in a file that is not honest is damaged as the phase opens, each event of a fair history is legal, or there is a first clash.
#[tactic(auto, using(crate::proofs::FirstClashes::legal_or_clashed))]
pub fn fair_histories_are_legal()
    ensures { FairHistoriesAreLegal }
{}

/// Masks behind the heads and the nodes of a tree show no other tree under its reference.
pub fn masks_on_blocks_show_no_other()
    ensures { MasksOnBlocksShowNoOther }
{}

/// What a file gave on which no mask is armed clashes with nothing, where it tells its bytes and its arms.
pub fn unmasked_files_show_no_clash()
    ensures { UnmaskedFilesShowNoClash }
{}

/// And no promise ends at it.
pub fn unmasked_files_end_nothing()
    ensures { UnmaskedFilesEndNothing }
{}

/// A history is answered event by event.
pub fn answers_are_by_event()
    ensures { AnswersAreByEvent }
{}

/// A history is fair event by event.
pub fn fairness_is_by_event()
    ensures { FairnessIsByEvent }
{}

/// A file's own events are legal event by event, and a view that lacks none of them tells of the whole.
pub fn own_events_are_by_event()
    ensures { OwnEventsAreByEvent }
{}

/// A phase opens with a map that is in step, under each tamper scenario.
pub fn openings_are_in_step()
    ensures { OpeningsAreInStep }
{}

/// The object under a name is what stands for the version of its entry.
#[tactic(auto, using(crate::proofs::InStep::entry_object))]
pub fn entries_have_objects()
    ensures { EntriesHaveObjects }
{}

/// An answered event that commits nothing keeps both readings of the map.
pub fn unchanged_events_keep_maps()
    ensures { UnchangedEventsKeepMaps }
{}

/// A landing brings what was the second reading of the map.
pub fn landings_keep_maps()
    ensures { LandingsKeepMaps }
{}

/// A doubt that is dropped leaves nothing to do.
#[tactic(auto, using(crate::proofs::MapSteps::drop_keeps))]
pub fn drops_keep_maps()
    ensures { DropsKeepMaps }
{}

/// A write or a truncation that is made leaves the map in step, where its version has the object that the machine's does.
pub fn made_changes_keep_maps()
    ensures { MadeChangesKeepMaps }
{}

/// So does one in doubt, in both readings.
pub fn doubtful_changes_keep_maps()
    ensures { DoubtfulChangesKeepMaps }
{}

/// A create leaves the map in step, made or in doubt, where its file is new and its version has the object that the machine's does.
pub fn creates_keep_maps()
    ensures { CreatesKeepMaps }
{}

/// So does a rename, where the version stays and no entry has the new name.
pub fn renames_keep_maps()
    ensures { RenamesKeepMaps }
{}

/// So does a delete.
pub fn deletes_keep_maps()
    ensures { DeletesKeepMaps }
{}

/// A phase has a session for each application.
#[tactic(auto, using(crate::proofs::SessionSteps::sessions_at))]
pub fn sessions_are_applications()
    ensures { SessionsAreApplications }
{}

/// A view tells its session after the whole history, settled by what is past the view, or dropped.
#[tactic(auto, using(crate::proofs::SessionSteps::told_session))]
pub fn views_tell_sessions()
    ensures { ViewsTellSessions }
{}

/// A session that no doubt touches stands.
pub fn calm_sessions_stand()
    ensures { CalmSessionsStand }
{}

/// Behind an event that commits nothing, a session that no doubt touches is the machine's.
pub fn unchanged_sessions_stand()
    ensures { UnchangedSessionsStand }
{}

/// Behind a commit that is made each session is the machine's.
#[tactic(auto, using(crate::proofs::SessionSteps::made_stands))]
pub fn made_sessions_stand()
    ensures { MadeSessionsStand }
{}

/// Behind its own commit in doubt a session stands as before, and its doubt leaves what the machine's landing does.
#[tactic(auto, using(crate::proofs::SessionSteps::doubtful_stands))]
pub fn doubtful_sessions_stand()
    ensures { DoubtfulSessionsStand }
{}

/// Entries that a directory lists, no two of one file, have one name each.
pub fn listed_entries_are_apart()
    ensures { ListedEntriesAreApart }
{}

/// Each entry of a directory is found among the history's by its name.
pub fn listed_entries_are_named()
    ensures { ListedEntriesAreNamed }
{}

/// A write that was staged over what its object's file gave, whatever the file is: what stands for the next version is what the machine
/// writes, or what was given strays from what stood.
pub fn writes_stand_or_stray()
    ensures { WritesStandOrStray }
{}

/// So of a truncation.
pub fn truncations_stand_or_stray()
    ensures { TruncationsStandOrStray }
{}

/// A reply to an Open, a Read or an Info that tells what its object's file gave, whatever the file is, is legal, or shows a clash, or the promises end
/// there under the tamper scenario.
pub fn told_replies_are_answered()
    ensures { ToldRepliesAreAnswered }
{}

/// The file of an object's entry is the right tag of a call on it that makes no object.
pub fn entries_tag_calls()
    ensures { EntriesTagCalls }
{}

/// A file that no entry has is the right tag of a call that makes an object.
pub fn free_files_tag_creates()
    ensures { FreeFilesTagCreates }
{}

/// A session that sees the whole history is the store's, as what is past its view settles it.
pub fn sessions_renew()
    ensures { SessionsRenew }
{}

/// Behind a call of its own a session is the store's, and its view extends the one before.
pub fn calls_extend_sessions()
    ensures { CallsExtendSessions }
{}

/// A write that was staged over what its object's file gave is the machine's commit, and its next version is what the machine leaves; or
/// the promises end there under the tamper scenario.
pub fn writes_are_due_or_end()
    ensures { WritesAreDueOrEnd }
{}

/// So is a truncation.
pub fn truncations_are_due_or_end()
    ensures { TruncationsAreDueOrEnd }
{}
