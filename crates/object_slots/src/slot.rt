// Slots.
ghost use Rattle.std.specs.Prelude.{◌≡◌, ◌⊎◌, ◌↔◌, ◌+◌, ◌≤◌, length, IfSome, IsSome, IsTrue, None, Some};
ghost use Rattle.disk_model.specs.State.{Sound};
ghost use Rattle.node_image.specs.References.{current_format};
ghost use Rattle.htree_file.specs.Opening.{IsVerified};
ghost use Rattle.dir_records.specs.Form.{HasForm};
ghost use Rattle.object_file.specs.Value.{size_in};
ghost use Rattle.object_slots.specs.SlotFaults.{HasCauses};
ghost use Rattle.object_slots.specs.Loads.{LoadsObject};
ghost use Rattle.object_slots.specs.Makes.{MakesObject};
ghost use Rattle.object_slots.specs.SlotReads.{ReadsObject};
ghost use Rattle.object_slots.specs.SlotChecks.{ChecksObject};
ghost use Rattle.object_slots.specs.SlotStages.{StagesObject, resize_change, write_change};
ghost use Rattle.object_slots.specs.SlotValues.{HasNoStage, HasStage, IfLive, IsFree, IsHolding, IsLive, committed, free, with_stage, without_stage};

use crate::checking::{check_resized, check_written};
use crate::content::Content;
use crate::creating::make_object;
use crate::fault::SlotFault;
use crate::loading::load_object;
use crate::reading::read_object;
use crate::staging::{truncate_object, write_object};
use dir_records::DirEntry;
use history_seats::SlotSeat;
use node_image::RootRef;
use std::alloc::Global;
use std::marker::Model;
use tee_ports::{Entropy, StoreFile};

/// The file of one number, with what is loaded from it, and the seat of that file.
///
/// A slot is free, where no tree is loaded, or it has an object. While the commit of its last change is in doubt it keeps both the
/// committed object and the stage.
#[derive(Drop)]
pub struct Slot<F: StoreFile + Drop> {
    number: u16,
    // None while it is lent.
    seat: Option<SlotSeat>,
    // None only within a call.
    content: Option<Content<F>>,
    // The place of the event that left the commit in doubt.
    doubt: Option<u64>,
}

impl<F: StoreFile + Drop> Model for Slot<F> {
    ghost use Rattle.std.specs.Prelude.{◌≡◌, IfSome};
    ghost use Rattle.object_slots.specs.SlotInside.{IsFilled, file_of, holding_of};
    ghost use Rattle.object_slots.specs.SlotValues.{SlotValue};

    ghost Value = { SlotValue };

    ghost view = { λ s. record {
      number = s.number;
      seat = s.seat;
      file = file_of F.state s.content;
      holds = holding_of s.content;
      doubt = s.doubt;
    } };

    ghost invariant = { λ s. IsFilled s.content × IfSome s.seat (λ seat. seat.knows.file ≡ s.number) };
}

/// What a slot was made of: its file, as the calls left it, and its seat.
#[derive(Drop)]
pub struct SlotParts<F: StoreFile + Drop> {
    pub file: F,
    pub seat: SlotSeat,
}

impl<F: StoreFile + Drop> Slot<F> {
    /// A free slot of that number.
    pub fn new(number: u16, file: F, seat: SlotSeat) -> Slot<F>
        requires { seat.knows.file ≡ number }
        ensures { result ≡ record { number = number; seat = Some seat; file = F.state file; holds = free; doubt = None } }
    {
        Slot {
            number,
            seat: Some(seat),
            content: Some(Content::Free(file)),
            doubt: None,
        }
    }

    /// The number of its file.
    pub fn number(&self) -> u16
        ensures number { result ≡ self.now.number }
        // What always holds of a slot.
        ensures own { IfSome self.now.seat (λ seat. seat.knows.file ≡ self.now.number) }
        ensures holding { IsHolding self.now.holds }
        ensures sound { Sound self.now.file }
    {
        self.number
    }

    /// The generation that its seat is of.
    pub fn generation(&self) -> u32
        requires { IsSome self.now.seat }
        ensures { IfSome self.now.seat (λ seat. result ≡ seat.knows.generation) }
    {
        let Some(seat) = &self.seat else {
            unreachable!()
        };
        seat.generation()
    }

    /// Whether no tree is loaded.
    pub fn is_free(&self) -> bool
        ensures { IsTrue result ↔ IsFree self.now.holds }
    {
        match &self.content {
            Some(Content::Free(_)) => true,
            Some(Content::Made(_)) => false,
            Some(Content::Live(_)) => false,
            Some(Content::Staged(_)) => false,
            None => unreachable!(),
        }
    }

    /// Whether its committed object is loaded, and nothing is staged.
    pub fn is_live(&self) -> bool
        ensures { IsTrue result ↔ IsLive self.now.holds }
    {
        match &self.content {
            Some(Content::Live(_)) => true,
            Some(Content::Free(_)) => false,
            Some(Content::Made(_)) => false,
            Some(Content::Staged(_)) => false,
            None => unreachable!(),
        }
    }

    /// The place of the event that left its commit in doubt, if one did.
    pub fn doubt_place(&self) -> Option<u64>
        ensures { result ≡ self.now.doubt }
    {
        self.doubt
    }

    /// The attributes of the committed object, at most 2,048 bytes.
    pub fn attributes(&self) -> &[u8]
        requires { IsSome (committed self.now.holds) }
        ensures attributes { IfSome (committed self.now.holds) (λ o. result.now ≡ o.attributes) }
        ensures few { length result.now ≤ 2048 }
    {
        match &self.content {
            Some(Content::Live(object)) => object.attributes(),
            Some(Content::Staged(object)) => object.attributes(),
            _ => unreachable!(),
        }
    }

    /// How many bytes of data the committed object has, at most 1,044,480.
    pub fn size(&self) -> u32
        requires { IsSome (committed self.now.holds) }
        ensures size { IfSome (committed self.now.holds) (λ o. (result ≡ size_in o) × (o.tree.tree.head.length ≡ 4096 + result)) }
        ensures few { result ≤ 1044480 }
        ensures verified { IfSome (committed self.now.holds) (λ o. IsVerified o.tree.root o.tree.tree) }
    {
        match &self.content {
            Some(Content::Live(object)) => object.size(),
            Some(Content::Staged(object)) => object.size(),
            _ => unreachable!(),
        }
    }

    /// Lends the seat.
    pub fn lend_seat(&mut self) -> SlotSeat
        requires { IsSome self.old.seat }
        ensures slot { self.new ≡ record self.old { seat = None } }
        ensures seat { self.old.seat ≡ Some result }
    {
        let Some(seat) = self.seat.take() else {
            unreachable!()
        };
        seat
    }

    /// Takes the seat back.
    pub fn give_seat(&mut self, seat: SlotSeat)
        requires lent { self.old.seat ≡ None }
        requires own { seat.knows.file ≡ self.old.number }
        ensures { self.new ≡ record self.old { seat = Some seat } }
    {
        self.seat = Some(seat);
    }

    /// Its file, and its seat.
    pub fn into_parts(self) -> SlotParts<F>
        requires { IsSome self.seat }
        ensures file { F.state result.file ≡ self.file }
        ensures seat { self.seat ≡ Some result.seat }
    {
        let Slot {
            number: _,
            seat,
            content,
            doubt: _,
        } = self;
        let Some(seat) = seat else { unreachable!() };
        let Some(content) = content else {
            unreachable!()
        };
        SlotParts {
            file: content.into_file(),
            seat,
        }
    }

    /// Loads the object that an entry of the directory names in the file. `tsk` is the key of the application. It makes three calls of
    /// the file, each a read.
    ///
    /// # Errors
    ///
    /// `Corrupt` where the entry's reference names no tree, where the tree has not 4,096 bytes more than the entry's size, or where its
    /// block 0 is bad. Besides `Failed` and `NoMemory`.
    pub fn fill(&mut self, alloc: Global, entry: &DirEntry, tsk: &[u8; 32]) -> Result<(), SlotFault>
        requires vacant { IsFree self.old.holds }
        requires form { HasForm entry.now }
        requires current { entry.now.format ≡ current_format }
        ensures same { self.new ≡ record self.old { file = self.new.file; holds = self.new.holds } }
        ensures loads { LoadsObject self.old.file self.new.file tsk.now entry.now self.new.holds result }
    {
        let Some(Content::Free(file)) = self.content.take() else {
            unreachable!()
        };
        let (content, answer) = load_object(alloc, file, tsk, entry);
        self.content = Some(content);
        answer
    }

    /// Reads data from the place `at` on into the front of `into`, fewer bytes where the end is nearer, and says how many. It reads each
    /// block that has one of these bytes once, but for those whose pages it kept, and keeps the pages for which it finds memory.
    ///
    /// # Errors
    ///
    /// `Corrupt` where one of these blocks has not the tag of its node, as the file reads when the call ends. Besides `Failed`. The front
    /// of `into` may then hold anything.
    pub fn read(&mut self, at: u32, into: &mut [u8]) -> Result<usize, SlotFault>
        requires { IsLive self.old.holds }
        ensures same { self.new ≡ record self.old { file = self.new.file } }
        ensures reads { IfLive self.old.holds (λ o. ReadsObject self.old.file self.new.file o at into.old into.new result) }
    {
        let Some(Content::Live(mut object)) = self.content.take() else {
            unreachable!()
        };
        let answer = read_object(&mut object, at, into);
        self.content = Some(Content::Live(object));
        answer
    }

    /// Cuts the file to no bytes, and makes an object in it with these attributes and data, which is settled and not committed. `tsk` is
    /// the key of the application. Gives the reference that names it.
    ///
    /// # Errors
    ///
    /// `Failed`, `NoEntropy` and `NoMemory`. The slot is free then, and the file may hold anything.
    pub fn stage_new<E: Entropy>(
        &mut self,
        alloc: Global,
        tsk: &[u8; 32],
        attributes: &[u8],
        bytes: &[u8],
        entropy: &mut E,
    ) -> Result<RootRef, SlotFault>
        requires vacant { IsFree self.old.holds }
        requires calm { self.old.doubt ≡ None }
        requires attributes { length attributes.now ≤ 2048 }
        requires few { length bytes.now ≤ 1044480 }
        ensures same { self.new ≡ record self.old { file = self.new.file; holds = self.new.holds } }
        ensures makes { MakesObject self.old.file self.new.file tsk.now attributes.now bytes.now self.new.holds result }
        ensures causes { HasCauses self.old.file self.new.file (E.faults entropy.old) (E.faults entropy.new)
            (E.is_reliable entropy.old) (E.is_reliable entropy.new) result }
    {
        let Some(Content::Free(file)) = self.content.take() else {
            unreachable!()
        };
        let (content, answer) = make_object(alloc, file, tsk, attributes, bytes, entropy);
        self.content = Some(content);
        answer
    }

    /// Writes data from the place `at` on, with zero between the old end and that place, into the version that the committed object does
    /// not use, and settles it. Gives the reference that names the changed object.
    ///
    /// # Errors
    ///
    /// `Corrupt` where a block that would keep old bytes beside the new ones is bad; nothing was drawn or written then, nor for
    /// `NoMemory`. `NoEntropy` where a draw failed, once the blocks that the change needs were read and before anything was
    /// written. Besides `Failed`. No stage is open then.
    pub fn stage_write<E: Entropy>(
        &mut self,
        alloc: Global,
        at: u32,
        bytes: &[u8],
        entropy: &mut E,
    ) -> Result<RootRef, SlotFault>
        requires live { IsLive self.old.holds }
        requires calm { self.old.doubt ≡ None }
        requires few { at + length bytes.now ≤ 1044480 }
        ensures same { self.new ≡ record self.old { file = self.new.file; holds = self.new.holds } }
        ensures stages { IfLive self.old.holds (λ o. StagesObject self.old.file self.new.file o (write_change o at bytes.now) self.new.holds
            (entropy.new ≡ entropy.old) result) }
        ensures causes { HasCauses self.old.file self.new.file (E.faults entropy.old) (E.faults entropy.new)
            (E.is_reliable entropy.old) (E.is_reliable entropy.new) result }
    {
        let Some(Content::Live(object)) = self.content.take() else {
            unreachable!()
        };
        let (content, answer) = write_object(alloc, object.into_object(), at, bytes, entropy);
        self.content = Some(content);
        answer
    }

    /// Makes the data so many bytes, with zero behind the old end, in the version that the committed object does not use, and settles it.
    /// Gives the reference that names the changed object.
    ///
    /// # Errors
    ///
    /// As for a write.
    pub fn stage_truncate<E: Entropy>(
        &mut self,
        alloc: Global,
        size: u32,
        entropy: &mut E,
    ) -> Result<RootRef, SlotFault>
        requires live { IsLive self.old.holds }
        requires calm { self.old.doubt ≡ None }
        requires few { size ≤ 1044480 }
        ensures same { self.new ≡ record self.old { file = self.new.file; holds = self.new.holds } }
        ensures stages { IfLive self.old.holds (λ o. StagesObject self.old.file self.new.file o (resize_change o size) self.new.holds
            (entropy.new ≡ entropy.old) result) }
        ensures causes { HasCauses self.old.file self.new.file (E.faults entropy.old) (E.faults entropy.new)
            (E.is_reliable entropy.old) (E.is_reliable entropy.new) result }
    {
        let Some(Content::Live(object)) = self.content.take() else {
            unreachable!()
        };
        let (content, answer) = truncate_object(alloc, object.into_object(), size, entropy);
        self.content = Some(content);
        answer
    }

    /// Reads the blocks that a write of these bytes from the place `at` on needs, as `stage_write` does before it draws or writes anything,
    /// and no more.
    ///
    /// # Errors
    ///
    /// `Corrupt` where one of these blocks is bad, and `Failed`.
    pub fn check_write(&mut self, alloc: Global, at: u32, bytes: &[u8]) -> Result<(), SlotFault>
        requires live { IsLive self.old.holds }
        requires few { at + length bytes.now ≤ 1044480 }
        ensures same { self.new ≡ record self.old { file = self.new.file; holds = self.new.holds } }
        ensures checks { IfLive self.old.holds (λ o. ChecksObject self.old.file self.new.file o (write_change o at bytes.now) self.new.holds result) }
    {
        let Some(Content::Live(object)) = self.content.take() else {
            unreachable!()
        };
        let (content, answer) = check_written(alloc, object.into_object(), at, bytes);
        self.content = Some(content);
        answer
    }

    /// Reads the block that a truncation to so many bytes needs, as `stage_truncate` does before it draws or writes anything, and no more.
    ///
    /// # Errors
    ///
    /// As for a write.
    pub fn check_truncate(&mut self, alloc: Global, size: u32) -> Result<(), SlotFault>
        requires live { IsLive self.old.holds }
        requires few { size ≤ 1044480 }
        ensures same { self.new ≡ record self.old { file = self.new.file; holds = self.new.holds } }
        ensures checks { IfLive self.old.holds (λ o. ChecksObject self.old.file self.new.file o (resize_change o size) self.new.holds result) }
    {
        let Some(Content::Live(object)) = self.content.take() else {
            unreachable!()
        };
        let (content, answer) = check_resized(alloc, object.into_object(), size);
        self.content = Some(content);
        answer
    }

    /// Makes the stage, if there is one, the committed object, and ends the doubt. No call of the file is made.
    pub fn adopt(&mut self)
        requires { HasStage self.old.holds ⊎ IsSome self.old.doubt }
        ensures { self.new ≡ record self.old { holds = with_stage self.old.holds; doubt = None } }
    {
        let Some(content) = self.content.take() else {
            unreachable!()
        };
        self.content = Some(content.into_adopted());
        self.doubt = None;
    }

    /// Gives up the stage, if there is one, and ends the doubt. The committed object stays. No call of the file is made.
    pub fn drop_stage(&mut self)
        requires { HasStage self.old.holds ⊎ IsSome self.old.doubt }
        ensures { self.new ≡ record self.old { holds = without_stage self.old.holds; doubt = None } }
    {
        let Some(content) = self.content.take() else {
            unreachable!()
        };
        self.content = Some(content.into_unstaged());
        self.doubt = None;
    }

    /// Keeps what it holds while the commit of the event at that place is in doubt.
    pub fn hold_doubt(&mut self, place: u64)
        requires { self.old.doubt ≡ None }
        ensures { self.new ≡ record self.old { doubt = Some place } }
    {
        self.doubt = Some(place);
    }

    /// Lets the object go, if one is loaded. The file stays.
    pub fn free(&mut self)
        requires idle { HasNoStage self.old.holds }
        requires calm { self.old.doubt ≡ None }
        ensures { self.new ≡ record self.old { holds = free } }
    {
        let Some(content) = self.content.take() else {
            unreachable!()
        };
        self.content = Some(Content::Free(content.into_file()));
    }
}
