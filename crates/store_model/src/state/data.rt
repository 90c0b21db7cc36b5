//! Calls on the data of an open object.

ghost use Rattle.std.specs.Prelude.{◌≡◌, ◌≤◌, ◌+◌, ◌<◌, ◌^◌, ℕ, List, [], length, pos, ◌+ℤ◌, int_lt, MatchOption, IsNone, true, false};
ghost use Rattle.store_model.specs.Machine.{first_refusal};
ghost use Rattle.store_model.specs.Data.{bytes_at, seek_base, at_least_zero, write_refusals, truncate_refusals};

use crate::name::ObjectName;
use crate::session::Handle;
use crate::state::State;
use std::alloc::Global;
use tee_types::{
    Bytes, Code, MAX_DATA, MAX_POSITION, NoMemory, READ, Reason, Reply, WRITE, Whence,
};

impl State {
    ghost use Rattle.std.specs.Prelude.{◌≡◌, ◌<◌, ◌≤◌, ◌+◌, ℕ, List, [], length, IfOk, OnOk, OnErr, Some};
    ghost use Rattle.store_model.specs.Object.{Sound, object_at, size_at, changed_object};
    ghost use Rattle.store_model.specs.Answer.{IsOutcome};
    ghost use Rattle.store_model.specs.Data.{read_of, write_of, truncate_of, seek_of, info_of, written, resized};

    /// The size of the object of that name, 0 where there is none.
    pub(super) fn size(&self, name: &ObjectName) -> u32
        ensures { result ≡ size_at self.now.objects name.now }
    {
        match self.object(name) {
            Some(object) => object.content().len() as u32,
            None => 0,
        }
    }

    /// TEE_ReadObjectData
    #[tactic(auto, using(crate::proofs::SoundObjects::data_calls), unfolding(crate::specs::Data::read_of))]
    pub(super) fn read(
        &mut self,
        alloc: Global,
        session: usize,
        number: u32,
        size: u32,
    ) -> Result<Reply, NoMemory>
        requires { session < length self.old.sessions }
        ensures ok { IfOk result (λ reply. IsOutcome (read_of self.old session number size) reply self.new) }
        ensures err { OnErr result (self.new ≡ self.old) }
    {
        let Some(handle) = self.handle(session, number) else {
            return Ok(Reply::Misuse(Reason::BadHandle));
        };
        if !handle.flags.has(READ) {
            return Ok(Reply::Misuse(Reason::NoRight));
        }
        let Some(object) = self.object(&handle.name) else {
            return Ok(Reply::Misuse(Reason::BadHandle));
        };
        let given = Bytes::from_slice(alloc, bytes_at(object.content(), handle.position, size))?;
        let position = handle.position + given.len() as u32;
        self.replace(session, number, Handle { position, ..handle });
        Ok(Reply::Content(given))
    }

    /// Puts bytes into the sound object of that name.
    fn write_object(
        &mut self,
        name: &ObjectName,
        position: usize,
        bytes: &[u8],
    ) -> Result<(), NoMemory>
        requires fits { position + length bytes.now ≤ 1044480 }
        ensures ok { (attributes old : List ℕ)
            → object_at self.old.objects name.now ≡ Some (Sound (record { attributes = attributes; bytes = old; bad = [] }))
            → OnOk result (self.new ≡ record self.old {
              objects = changed_object self.old.objects name.now
                  (Sound (record { attributes = attributes; bytes = written old position bytes.now; bad = [] }));
            }) }
        ensures err { OnErr result (self.new ≡ self.old) }
        ensures sessions { self.new.sessions ≡ self.old.sessions }
    {
        let Some(object) = self.objects.get_mut(name) else {
            return Ok(());
        };
        object.write(position, bytes)
    }

    /// Sets the size of the sound object of that name.
    fn resize_object(&mut self, name: &ObjectName, size: usize) -> Result<(), NoMemory>
        requires fits { size ≤ 1044480 }
        ensures ok { (attributes old : List ℕ)
            → object_at self.old.objects name.now ≡ Some (Sound (record { attributes = attributes; bytes = old; bad = [] }))
            → OnOk result (self.new ≡ record self.old {
              objects = changed_object self.old.objects name.now
                  (Sound (record { attributes = attributes; bytes = resized old size; bad = [] }));
            }) }
        ensures err { OnErr result (self.new ≡ self.old) }
        ensures sessions { self.new.sessions ≡ self.old.sessions }
    {
        let Some(object) = self.objects.get_mut(name) else {
            return Ok(());
        };
        object.resize(size)
    }

    /// TEE_WriteObjectData
    #[tactic(auto, using(crate::proofs::SoundObjects::data_calls), unfolding(crate::specs::Data::write_of))]
    pub(super) fn write(
        &mut self,
        session: usize,
        number: u32,
        bytes: &[u8],
    ) -> Result<Reply, NoMemory>
        requires { session < length self.old.sessions }
        ensures ok { IfOk result (λ reply. IsOutcome (write_of self.old session number bytes.now) reply self.new) }
        ensures err { OnErr result (self.new ≡ self.old) }
    {
        let Some(handle) = self.handle(session, number) else {
            return Ok(Reply::Misuse(Reason::BadHandle));
        };
        if !handle.flags.has(WRITE) {
            return Ok(Reply::Misuse(Reason::NoRight));
        }
        if bytes.is_empty() {
            return Ok(Reply::Done);
        }
        let Some(_sound) = self.object(&handle.name) else {
            return Ok(Reply::Misuse(Reason::BadHandle));
        };
        if let Some(reply) = write_refusal(handle.position, bytes.len()) {
            return Ok(reply);
        }
        self.write_object(&handle.name, handle.position as usize, bytes)?;
        let position = handle.position + bytes.len() as u32;
        self.replace(session, number, Handle { position, ..handle });
        Ok(Reply::Done)
    }

    /// TEE_TruncateObjectData
    #[tactic(auto, using(crate::proofs::SoundObjects::data_calls), unfolding(crate::specs::Data::truncate_of))]
    pub(super) fn truncate(
        &mut self,
        session: usize,
        number: u32,
        size: u32,
    ) -> Result<Reply, NoMemory>
        requires { session < length self.old.sessions }
        ensures ok { IfOk result (λ reply. IsOutcome (truncate_of self.old session number size) reply self.new) }
        ensures err { OnErr result (self.new ≡ self.old) }
    {
        let Some(handle) = self.handle(session, number) else {
            return Ok(Reply::Misuse(Reason::BadHandle));
        };
        if !handle.flags.has(WRITE) {
            return Ok(Reply::Misuse(Reason::NoRight));
        }
        let Some(_sound) = self.object(&handle.name) else {
            return Ok(Reply::Misuse(Reason::BadHandle));
        };
        if let Some(reply) = truncate_refusal(size) {
            return Ok(reply);
        }
        self.resize_object(&handle.name, size as usize)?;
        Ok(Reply::Done)
    }

    /// TEE_SeekObjectData
    #[tactic(auto, unfolding(crate::specs::Data::seek_of))]
    pub(super) fn seek(&mut self, session: usize, number: u32, offset: i64, whence: Whence) -> Reply
        requires { session < length self.old.sessions }
        ensures { IsOutcome (seek_of self.old session number offset whence) result self.new }
    {
        let Some(handle) = self.handle(session, number) else {
            return Reply::Misuse(Reason::BadHandle);
        };
        let base = match whence {
            Whence::Set => 0,
            Whence::Cur => handle.position,
            Whence::End => self.size(&handle.name),
        };
        let Some(position) = sought(base, offset) else {
            return Reply::Refused(Code::Overflow);
        };
        self.replace(session, number, Handle { position, ..handle });
        Reply::Done
    }

    /// TEE_GetObjectInfo1
    #[tactic(auto, using(crate::proofs::SoundObjects::data_calls), unfolding(crate::specs::Data::info_of))]
    pub(super) fn info(&self, alloc: Global, session: usize, number: u32) -> Result<Reply, NoMemory>
        requires { session < length self.now.sessions }
        ensures { IfOk result (λ reply. IsOutcome (info_of self.now session number) reply self.now) }
    {
        let Some(handle) = self.handle(session, number) else {
            return Ok(Reply::Misuse(Reason::BadHandle));
        };
        let Some(object) = self.object(&handle.name) else {
            return Ok(Reply::Misuse(Reason::BadHandle));
        };
        Ok(Reply::Info {
            size: object.content().len() as u32,
            position: handle.position,
            flags: handle.flags,
            attributes: object.attributes().copy(alloc)?,
        })
    }
}

/// At most `size` of the bytes from `position` on, fewer near the end and none past it.
fn bytes_at(bytes: &[u8], position: u32, size: u32) -> &[u8]
    ensures { result.now ≡ bytes_at bytes.now position size }
{
    let start = (position as usize).min(bytes.len());
    let end = start + (size as usize).min(bytes.len() - start);
    &bytes[start..end]
}

/// Why a write of so many bytes at that position is refused, if it is.
fn write_refusal(position: u32, count: usize) -> Option<Reply>
    requires { count < 2 ^ 63 }
    ensures first { (attributes bytes : List ℕ) → result ≡ first_refusal (write_refusals (record { attributes = attributes; bytes = bytes; bad = [] }) position count) }
    ensures fits { IsNone result → position + count ≤ 1044480 }
{
    let end = position as u64 + count as u64;
    if MAX_POSITION < end {
        return Some(Reply::Refused(Code::Overflow));
    }
    if (MAX_DATA as u64) < end {
        return Some(Reply::Refused(Code::NoSpace));
    }
    None
}

/// Why a size is refused, if it is.
fn truncate_refusal(size: u32) -> Option<Reply>
    ensures first { (attributes bytes : List ℕ) → result ≡ first_refusal (truncate_refusals (record { attributes = attributes; bytes = bytes; bad = [] }) size) }
    ensures fits { IsNone result → size ≤ 1044480 }
{
    if MAX_DATA < size as usize {
        return Some(Reply::Refused(Code::NoSpace));
    }
    None
}

/// The position that lies so many bytes from the base, 0 where that is below zero; none where it is past the greatest position.
fn sought(base: u32, offset: i64) -> Option<u32>
    ensures { MatchOption result
        (int_lt (pos 4294967295) (pos base +ℤ offset) ≡ true)
        (λ position. (int_lt (pos 4294967295) (pos base +ℤ offset) ≡ false) × (position ≡ at_least_zero (pos base +ℤ offset))) }
{
    let target = base as i128 + offset as i128;
    if (MAX_POSITION as i128) < target {
        return None;
    }
    Some(target.max(0) as u32)
}
