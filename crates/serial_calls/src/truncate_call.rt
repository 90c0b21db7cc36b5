//! TEE_TruncateObjectData: another size of an open object's data.

ghost use Rattle.std.specs.Prelude.{◌==◌, ◌≡◌, ◌≤◌, IfOk, None, OnErr, false};
ghost use Rattle.call_rules.specs.Objects.{IsRightful};
ghost use Rattle.serial_calls.specs.ChangeChecks.{IsOnlyRead};
ghost use Rattle.serial_calls.specs.ChangeReplies.{IsNotDone};
ghost use Rattle.call_steps.specs.AnswerCauses.{HasToldCause};
ghost use Rattle.call_steps.specs.AnswerServed.{IsServedOrNot};
ghost use Rattle.rpmb_card.specs.Protocol.{last_counter};
ghost use Rattle.htree_file.specs.Answers.{FilePassed};
ghost use Rattle.serial_calls.specs.ChangeCauses.{HasStageCause};
ghost use Rattle.serial_calls.specs.Changed.{AnswersStaged, IsChangedOrNot};
ghost use Rattle.serial_calls.specs.ChangeStaging.{StagesChange, StagesEntry, resizing};
ghost use Rattle.hmac_keys.specs.KeyTable.{ssk};
ghost use Rattle.node_image.specs.References.{current_format};
ghost use Rattle.dir_records.specs.Form.{HasForm};
ghost use Rattle.disk_model.specs.Calls.{GoesOn, Rests};
ghost use Rattle.history_seats.specs.Records.{Version};
ghost use Rattle.call_steps.specs.Commits.{IsCalm};
ghost use Rattle.call_steps.specs.Devices.{DrawsOn};
ghost use Rattle.call_steps.specs.Fills.{GivesEntry};
ghost use Rattle.call_steps.specs.Fits.{FitsGate, SeesWhole};
ghost use Rattle.call_steps.specs.GuardedSlots.{SlotInvariant};
ghost use Rattle.call_steps.specs.GuardedReads.{GivesVersion};
ghost use Rattle.call_steps.specs.SlotValues.{IsLive, without_stage};
ghost use Rattle.tee_types.specs.Rights.{write_bit};

use crate::change_check::check_truncate_object;
use crate::early_answers::answer_meant;
use crate::failure_replies::tell_failure;
use crate::stage_commit::commit_stage;
use crate::stage_result::{Staged, staged_by};
use call_rules::{OpenObject, truncate_refusal};
use call_steps::{
    GuardedGate, GuardedSlot, PlacedReply, Session, SessionMove, Slot, catch_up_entry,
    load_or_reply, stage_truncate, tell, twice,
};
use core_laws::StoreName;
use dir_records::DirEntry;
use hmac_keys::SecretKey;
use rpmb_card::RpmbPort;
use std::alloc::Global;
use tee_ports::{Entropy, StoreFile};
use tee_types::{Call, NoMemory, Reply};

// Stages another size of the object that is loaded.
fn truncate_loaded<F: StoreFile + Drop, L: StoreName, E: Entropy>(
    alloc: Global,
    slot: &mut Slot<F>,
    entropy: &mut E,
    size: u32,
) -> Result<Staged, NoMemory>
    requires guarded { SlotInvariant L.store slot.old }
    requires live { IsLive slot.old.holds }
    requires calm { slot.old.doubt ≡ None }
    requires fits { size ≤ 1044480 }
    ensures same { slot.new ≡ record slot.old { file = slot.new.file; holds = slot.new.holds } }
    ensures base { SlotInvariant L.store (record slot.new { holds = without_stage slot.new.holds }) }
    ensures guarded { OnErr result (SlotInvariant L.store slot.new) }
    ensures undrawn { OnErr result (entropy.new ≡ entropy.old) }
    ensures passed { OnErr result (FilePassed slot.old.file slot.new.file) }
    ensures stages { (v : Version) → GivesVersion slot.old v → IfOk result (StagesChange L.store slot.new v (resizing size)) }
    ensures cause { IfOk result (HasStageCause slot.old.file slot.new.file slot.old.number (E.is_reliable entropy.old) (E.faults entropy.old) (E.faults entropy.new)) }
    ensures goes_on { GoesOn slot.old.file slot.new.file }
    ensures draws { DrawsOn E.is_reliable E.faults entropy.old entropy.new }
{
    let given = stage_truncate::<F, E, L>(alloc, slot, size, entropy);
    let Some(staged) = staged_by(slot.number(), given) else {
        return Err(NoMemory {});
    };
    Ok(staged)
}

/// Loads the object of an entry, at which the slot stands, where nothing is loaded, and stages so many bytes of data in its file.
/// `storage_key` is the key that the applications' keys come from. The gate has no part in this.
///
/// # Errors
///
/// Memory ran out. Nothing was staged or drawn.
pub fn truncate_object<F: StoreFile + Drop, L: StoreName, E: Entropy>(
    alloc: Global,
    slot: &mut Slot<F>,
    entropy: &mut E,
    entry: &DirEntry,
    storage_key: &SecretKey,
    size: u32,
) -> Result<Staged, NoMemory>
    requires guarded { SlotInvariant L.store slot.old }
    requires form { HasForm entry.now }
    requires current { entry.now.format ≡ current_format }
    requires given { GivesEntry slot.old entry.now }
    requires keyed { storage_key.now ≡ ssk L.store.keys.huk L.store.keys.chip }
    requires fits { size ≤ 1044480 }
    ensures same { slot.new ≡ record slot.old { file = slot.new.file; holds = slot.new.holds } }
    // Without its stage the slot may stand behind its lock; and it has none where memory ran out.
    ensures base { SlotInvariant L.store (record slot.new { holds = without_stage slot.new.holds }) }
    ensures guarded { OnErr result (SlotInvariant L.store slot.new) }
    ensures undrawn { OnErr result (entropy.new ≡ entropy.old) }
    ensures passed { OnErr result (FilePassed slot.old.file slot.new.file) }
    ensures stages { (v : Version) → GivesVersion slot.old v → IfOk result (StagesChange L.store slot.new v (resizing size)) }
    // The reply accuses the file or the entropy where it failed, and no other.
    ensures cause { IfOk result (HasStageCause slot.old.file slot.new.file slot.old.number (E.is_reliable entropy.old) (E.faults entropy.old) (E.faults entropy.new)) }
    ensures goes_on { GoesOn slot.old.file slot.new.file }
    ensures draws { DrawsOn E.is_reliable E.faults entropy.old entropy.new }
{
    if let Some(reply) = load_or_reply::<F, L>(alloc, slot, entry, storage_key)? {
        return Ok(Staged::Unstaged(reply));
    }
    truncate_loaded::<F, L, E>(alloc, slot, entropy, size)
}

/// Brings another size of an open object's data that was staged in the object's file, or tells why it was not staged. `found` is what the
/// rules found of the handle, whose session was shown the history, and the slot stands at its entry.
pub fn answer_truncate<F: StoreFile + Drop, R: RpmbPort + Drop, L: StoreName, E: Entropy>(
    gate: &mut GuardedGate<F, R, L>,
    slot: &mut Slot<F>,
    session: &mut Session<E>,
    found: &OpenObject,
    handle: u32,
    size: u32,
    staged: Staged,
) -> PlacedReply
    requires names { 1 ≤ gate.old.gate.room }
    requires handles { 1 ≤ gate.old.gate.open_handles.spare }
    requires events { 1 ≤ gate.old.journal.spare }
    requires idle { gate.old.gate.doubt ≡ None }
    requires calm { IsCalm L.store gate.old.journal.knows session.old }
    requires found { IsRightful gate.old.gate.dir.dir.entries session.old.state handle write_bit found.now }
    requires other { (size == found.now.held.entry.size) ≡ false }
    requires fits { size ≤ 1044480 }
    requires stages { StagesEntry L.store gate.old.journal.knows slot.old found.now.held.entry (resizing size) staged }
    ensures answered { AnswersStaged F.state R.state (E.is_reliable session.old.entropy) (E.faults session.old.entropy) (E.faults session.new.entropy)
        L.store gate.old gate.new slot.old.number session.old session.new (Call.Truncate handle size) found.now.held size staged result }
    ensures draws { DrawsOn E.is_reliable E.faults session.old.entropy session.new.entropy }
    ensures number { slot.new.number ≡ slot.old.number }
    ensures file { slot.new.file ≡ slot.old.file }
    ensures guarded { SlotInvariant L.store slot.new }
    ensures whole { SeesWhole gate.new.journal.knows slot.new }
{
    gate.reveal_invariant();
    let call = Call::Truncate { handle, size };
    match staged {
        Staged::Root(root) => {
            let step = SessionMove::Stays;
            commit_stage(gate, slot, session, found.held, root, size, call, step)
        }
        Staged::Unstaged(reply) => tell_failure(gate, slot, session, call, reply),
    }
}

/// Answers another size of an open object's data where no commit can follow: that the counter is spent, or why the object's file does not give
/// what the truncation needs. `found` is what the rules found of the handle, whose session was shown the history. `storage_key` is
/// the key that the applications' keys come from. The slot is shown the history first. Its file is only read, and nothing is drawn.
///
/// # Errors
///
/// Memory ran out. Nothing was answered.
pub fn truncate_spent<F: StoreFile + Drop, R: RpmbPort + Drop, L: StoreName, E: Entropy>(
    alloc: Global,
    gate: &mut GuardedGate<F, R, L>,
    slot: &mut Slot<F>,
    session: &mut Session<E>,
    found: &OpenObject,
    storage_key: &SecretKey,
    handle: u32,
    size: u32,
) -> Result<PlacedReply, NoMemory>
    requires room { 1 ≤ gate.old.journal.spare }
    requires handle { 1 ≤ gate.old.gate.open_handles.spare }
    requires idle { gate.old.gate.doubt ≡ None }
    requires calm { IsCalm L.store gate.old.journal.knows session.old }
    requires spent { gate.old.gate.counter ≡ last_counter }
    requires found { IsRightful gate.old.gate.dir.dir.entries session.old.state handle write_bit found.now }
    requires other { (size == found.now.held.entry.size) ≡ false }
    requires fits { size ≤ 1044480 }
    requires guarded { SlotInvariant L.store slot.old }
    requires file { slot.old.number ≡ found.now.held.entry.file }
    requires keyed { storage_key.now ≡ ssk L.store.keys.huk L.store.keys.chip }
    ensures served { IsServedOrNot L.store gate.old gate.new session.old session.new slot.old.number (Call.Truncate handle size) result }
    ensures kind { IfOk result (λ answer. IsNotDone answer.reply) }
    ensures cause { IfOk result (λ answer. HasToldCause slot.old.file slot.new.file slot.old.number answer.reply) }
    ensures entropy { session.new.entropy ≡ session.old.entropy }
    // What the slot's seat knew agreed with the gate.
    ensures agreed { FitsGate gate.old.journal.knows slot.old }
    ensures rests { Rests slot.old.file slot.new.file }
    ensures passed { OnErr result (FilePassed slot.old.file slot.new.file) }
    ensures number { slot.new.number ≡ slot.old.number }
    ensures guarded { SlotInvariant L.store slot.new }
    ensures whole { SeesWhole gate.new.journal.knows slot.new }
{
    let entry = found.held.entry;
    catch_up_entry(gate, slot, session, &entry);
    let reply = check_truncate_object::<F, L>(alloc, slot, &entry, storage_key, size)?;
    let (kept, told) = twice(reply);
    let call = Call::Truncate { handle, size };
    Ok(tell(gate, slot, session, call, kept, told))
}

/// Sets how many bytes of data the object has. A size that it has already is set at once. `found` is what the rules found of the handle,
/// whose session was shown the history. `storage_key` is the key that the applications' keys come from. Where the card's counter is at its
/// end the block is read that the truncation needs, nothing is drawn or written, and that is told.
///
/// # Errors
///
/// Memory ran out. Nothing was answered.
pub fn truncate<F: StoreFile + Drop, R: RpmbPort + Drop, L: StoreName, E: Entropy>(
    alloc: Global,
    gate: &mut GuardedGate<F, R, L>,
    slot: &mut GuardedSlot<F, L>,
    session: &mut Session<E>,
    found: &OpenObject,
    storage_key: &SecretKey,
    handle: u32,
    size: u32,
) -> Result<PlacedReply, NoMemory>
    requires names { 1 ≤ gate.old.gate.room }
    requires handles { 1 ≤ gate.old.gate.open_handles.spare }
    requires events { 1 ≤ gate.old.journal.spare }
    requires idle { gate.old.gate.doubt ≡ None }
    requires calm { IsCalm L.store gate.old.journal.knows session.old }
    requires found { IsRightful gate.old.gate.dir.dir.entries session.old.state handle write_bit found.now }
    requires file { slot.old.number ≡ found.now.held.entry.file }
    requires keyed { storage_key.now ≡ ssk L.store.keys.huk L.store.keys.chip }
    ensures changed { IsChangedOrNot F.state R.state (E.is_reliable session.old.entropy) (E.faults session.old.entropy) (E.faults session.new.entropy)
        L.store gate.old gate.new slot.old slot.new session.old session.new (Call.Truncate handle size) found.now.held size result }
    // Where no commit can follow the file is only read, and nothing is drawn.
    ensures spent { gate.old.gate.counter ≡ last_counter → IsOnlyRead gate.old gate.new slot.old.file slot.new.file session.old session.new }
    // Where memory ran out, no call of the file failed.
    ensures passed { OnErr result (FilePassed slot.old.file slot.new.file) }
    ensures number { slot.new.number ≡ slot.old.number }
    ensures goes_on { GoesOn slot.old.file slot.new.file }
    ensures draws { DrawsOn E.is_reliable E.faults session.old.entropy session.new.entropy }
{
    let entry = found.held.entry;
    if let Some(reply) = truncate_refusal(size) {
        let call = Call::Truncate { handle, size };
        return Ok(answer_meant(gate, &mut slot.slot, session, &entry, call, reply));
    }
    if size == entry.size {
        let call = Call::Truncate { handle, size };
        return Ok(answer_meant(gate, &mut slot.slot, session, &entry, call, Reply::Done));
    }
    let counter = gate.counter();
    if counter == u32::MAX {
        return truncate_spent(
            alloc,
            gate,
            &mut slot.slot,
            session,
            found,
            storage_key,
            handle,
            size,
        );
    }
    catch_up_entry(gate, &mut slot.slot, session, &entry);
    let entropy = session.entropy_mut();
    let staged = truncate_object::<F, L, E>(
        alloc,
        &mut slot.slot,
        entropy,
        &entry,
        storage_key,
        size,
    )?;
    Ok(answer_truncate(gate, &mut slot.slot, session, found, handle, size, staged))
}
