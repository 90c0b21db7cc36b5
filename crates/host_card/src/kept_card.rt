// A port to a card that a file keeps.
ghost use Rattle.std.specs.Prelude.{◌≡◌, ◌<◌, ◌≤◌, ◌^◌, ◌++◌, length, box_value, IsFalse, IsTrue, IfOk, IfErr, OnOk, OnErr, None, Some, is_none};
ghost use Rattle.disk_model.specs.Calls.{Known, Rests};
ghost use Rattle.disk_model.specs.Keeps.{Keeps};
ghost use Rattle.disk_model.specs.Faults.{Rose, next_count};
ghost use Rattle.rpmb_frame.specs.Layout.{frame_of};
ghost use Rattle.rpmb_card.specs.Card.{CardState, IsCard, card_after, card_answer, does_write, keyed};
ghost use Rattle.rpmb_card.specs.Port.{Exchanged, heard_after};
ghost use Rattle.host_card.specs.Faults.{HasFault, HasNoRoom};
ghost use Rattle.host_card.specs.Kept.{Holds, HoldsCard, HoldsTwice, IsLeft, Nowhere, Settles, kept_port};
ghost use Rattle.host_card.specs.Places.{HasCopies, Stands, zeros};

use crate::card_file::{Place, make_file, put};
use crate::versions::find_spare;
use crate::{CardFault, read_card};
use hmac_keys::SecretKey;
use rpmb_card::{Heard, RpmbPort, SimCard};
use rpmb_frame::Frame;
use std::alloc::Global;
use tee_ports::{Failed, StoreFile};

/// A file of which no card is served, and why.
#[derive(Drop)]
pub struct CardBroken<F: StoreFile> {
    pub file: F,
    pub fault: CardFault,
}

// A request, twice.
fn twice(request: &[u8; 512]) -> [u8; 1024]
    ensures { result ≡ request.now ++ request.now }
{
    let mut copies = [0; 1024];
    copies[..512].copy_from_slice(request);
    copies[512..].copy_from_slice(request);
    copies
}

// Zero bytes in place of a version.
fn no_request() -> [u8; 1024]
    ensures { result ≡ zeros }
{
    [0; 1024]
}

// Puts a write in the file that the card takes. Where it fails, it may have torn a version.
fn keep<F: StoreFile>(
    file: &mut F,
    key: &SecretKey,
    request: &[u8; 512],
) -> Result<(), Option<Place>>
    requires { (frame_of request.now).address < 256 }
    ensures ran { Keeps Nowhere (F.state file.old) (F.state file.new) }
    ensures cause { OnErr result (Rose (F.state file.old).faults (F.state file.new).faults) }
    ensures kept { OnOk result ((card : CardState) → IsCard card → IsTrue (does_write card request.now) →
        Holds key.now (F.state file.old) card None → Holds key.now (F.state file.new) (card_after card request.now) None) }
    ensures copies { OnOk result (Known (F.state file.old) (F.state file.new) → HasCopies (F.state file.new).reads request.now) }
    ensures torn { IfErr result (λ torn. (card : CardState) →
        Holds key.now (F.state file.old) card None → Holds key.now (F.state file.new) card torn) }
    ensures held { (card : CardState) →
        Holds key.now (F.state file.old) card None → HoldsCard key.now (F.state file.old) (F.state file.new) card }
{
    let address = Frame::parse(request).address as u8;
    let Ok(place) = find_spare(file, key.bytes(), address) else {
        return Err(None);
    };
    match put(file, place, &twice(request)) {
        Ok(()) => Ok(()),
        Err(_) => Err(Some(place)),
    }
}

// Makes a torn version zero, and settles that.
fn mend<F: StoreFile>(file: &mut F, key: &SecretKey, torn: Place) -> Result<(), Failed>
    ensures ran { Keeps Nowhere (F.state file.old) (F.state file.new) }
    ensures cause { OnErr result (Rose (F.state file.old).faults (F.state file.new).faults) }
    ensures kept { OnOk result ((card : CardState) →
        Holds key.now (F.state file.old) card (Some torn) → Holds key.now (F.state file.new) card None) }
    ensures torn { OnErr result ((card : CardState) →
        Holds key.now (F.state file.old) card (Some torn) → Holds key.now (F.state file.new) card (Some torn)) }
    ensures held { (card : CardState) →
        Holds key.now (F.state file.old) card (Some torn) → HoldsCard key.now (F.state file.old) (F.state file.new) card }
{
    put(file, torn, &no_request())
}

// Reads the card of a file, and settles the file.
fn settled_card<F: StoreFile>(
    alloc: Global,
    file: &mut F,
    key: &SecretKey,
) -> Result<Box<SimCard>, CardFault>
    ensures card { IfOk result (λ card. IsTrue (F.state file.old).tells → Known (F.state file.old) (F.state file.new) →
        Stands key.now (F.state file.old).reads None (box_value card)) }
    ensures register { IfOk result (λ card. (box_value card).register ≡ None) }
    ensures sound { IfOk result (λ card. IsCard (box_value card)) }
    ensures settles { OnOk result (Settles (F.state file.old) (F.state file.new)) }
    ensures holds { IfOk result (λ card. Holds key.now (F.state file.new) (box_value card) None) }
    ensures counted { OnOk result ((F.state file.new).faults ≡ (F.state file.old).faults) }
    ensures fault { IfErr result (λ fault. HasFault key.now (F.state file.old) (F.state file.new) fault) }
    ensures rests { OnErr result (Rests (F.state file.old) (F.state file.new)) }
{
    let card = read_card(alloc, file, key)?;
    file.sync()?;
    Ok(card)
}

// The card takes a frame, and its answer is heard.
fn answered(card: &mut SimCard, heard: &mut Heard, frame: &[u8; 512]) -> [u8; 512]
    requires few { length heard.old ≤ 3 }
    ensures answer { result ≡ card_answer card.old frame.now }
    ensures after { card.new ≡ card_after card.old frame.now }
    ensures stays_sound { IsCard card.new }
    ensures heard { heard.new ≡ heard_after heard.old result }
    ensures stays_few { length heard.new ≤ 3 }
{
    let answer = card.answer(frame);
    heard.push(answer);
    answer
}

// Counts one more fault.
fn count_fault(faults: &mut u64) -> Failed
    ensures rose { faults.new ≡ next_count faults.old }
    ensures rises { faults.old ≤ faults.new }
    ensures carried { result.count ≡ faults.new }
{
    *faults = faults.saturating_add(1);
    Failed { count: *faults }
}

/// A port to a simulated card that has a key, and whose content a file keeps: for each block the request that wrote it last.
/// The file has 525,312 bytes at any age, and never the key.
///
/// A write that the card takes is put over the version of its block that is not in use, and settled, before the card acts.
/// Where the file fails, the exchange fails and the card has not acted; whether it acts when the file is opened again is
/// open. So until that version is made zero, and settled, the port answers nothing: each exchange tries that first, and fails
/// where it fails. The card's result register is not kept.
///
/// It protects nothing from who can write the file, and is for trials. Two at once must not be open over one file.
#[derive(Drop)]
pub struct KeptCard<F: StoreFile> {
    file: F,
    card: Box<SimCard>,
    key: SecretKey,
    heard: Heard,
    // The version that a change which failed may have torn.
    torn: Option<Place>,
    faults: u64,
    ghost card_sound: { IsCard (box_value card) },
    ghost heard_few: { length heard ≤ 3 },
    ghost faults_fit: { faults < 2 ^ 64 },
    ghost holds: { Holds key (F.state file) (box_value card) torn },
}

impl<F: StoreFile> KeptCard<F> {
    /// A card that has this key and was never written, in a file that has no bytes.
    ///
    /// # Errors
    ///
    /// The first that holds: no memory for the card; the file failed, or has bytes, and then it is left as it is. One that
    /// failed may have bytes since.
    pub fn create(alloc: Global, file: F, key: SecretKey) -> Result<KeptCard<F>, CardBroken<F>>
        ensures card { IfOk result (λ port. box_value port.card ≡ keyed key) }
        ensures key { IfOk result (λ port. port.key ≡ key) }
        ensures kept { IfOk result (λ port. IsTrue (F.state file).tells → Known (F.state file) (F.state port.file) →
            Stands key (F.state port.file).reads None (keyed key)) }
        ensures empty { IfOk result (λ port. IsTrue (F.state file).tells → Known (F.state file) (F.state port.file) →
            length (F.state file).reads ≡ 0) }
        ensures tidy { IfOk result (λ port. port.torn ≡ None) }
        ensures counted { IfOk result (λ port. (F.state port.file).faults ≡ (F.state file).faults) }
        ensures fault { IfErr result (λ broken. HasNoRoom (F.state file) (F.state broken.file) broken.fault) }
    {
        let mut file = file;
        let Ok(card) = Box::new(alloc, SimCard::with_key(key.bytes())) else {
            return Err(CardBroken {
                file,
                fault: CardFault::NoMemory,
            });
        };
        match make_file(&mut file, key.bytes()) {
            Ok(()) => Ok(KeptCard {
                file,
                card,
                key,
                heard: Heard::new(),
                torn: None,
                faults: 0,
            }),
            Err(fault) => Err(CardBroken { file, fault }),
        }
    }

    /// The card with this key that a file keeps. No byte of the file is changed.
    ///
    /// # Errors
    ///
    /// As `read_card`, and the file failed where it was settled.
    pub fn open(alloc: Global, file: F, key: SecretKey) -> Result<KeptCard<F>, CardBroken<F>>
        ensures card { IfOk result (λ port. IsTrue (F.state file).tells → Known (F.state file) (F.state port.file) →
            Stands key (F.state file).reads None (box_value port.card)) }
        ensures register { IfOk result (λ port. (box_value port.card).register ≡ None) }
        ensures key { IfOk result (λ port. port.key ≡ key) }
        ensures settles { IfOk result (λ port. Settles (F.state file) (F.state port.file)) }
        ensures tidy { IfOk result (λ port. port.torn ≡ None) }
        ensures counted { IfOk result (λ port. (F.state port.file).faults ≡ (F.state file).faults) }
        ensures fault { IfErr result (λ broken. HasFault key (F.state file) (F.state broken.file) broken.fault) }
        ensures rests { IfErr result (λ broken. Rests (F.state file) (F.state broken.file)) }
    {
        let mut file = file;
        match settled_card(alloc, &mut file, &key) {
            Ok(card) => Ok(KeptCard {
                file,
                card,
                key,
                heard: Heard::new(),
                torn: None,
                faults: 0,
            }),
            Err(fault) => Err(CardBroken { file, fault }),
        }
    }

    /// No change has failed, or the version that it may have torn was made zero since. It is not so from a change that failed
    /// to the next exchange that is answered.
    pub fn is_tidy(&self) -> bool
        ensures { result ≡ is_none self.now.torn }
    {
        self.torn.is_none()
    }

    // The card takes a frame, where no version is torn.
    fn pass(&mut self, frame: &[u8; 512]) -> Result<[u8; 512], Failed>
        requires { self.old.torn ≡ None }
        ensures exchanged { Exchanged (kept_port (box_value self.old.card) self.old.heard self.old.faults)
            (kept_port (box_value self.new.card) self.new.heard self.new.faults) frame.now result }
        ensures cause { OnErr result (Rose (F.state self.old.file).faults (F.state self.new.file).faults) }
        ensures key { self.new.key ≡ self.old.key }
        ensures ran { Keeps Nowhere (F.state self.old.file) (F.state self.new.file) }
        ensures held { HoldsCard self.old.key (F.state self.old.file) (F.state self.new.file) (box_value self.old.card) }
        ensures copies { OnOk result (IsTrue (does_write (box_value self.old.card) frame.now) →
            Known (F.state self.old.file) (F.state self.new.file) → HasCopies (F.state self.new.file).reads frame.now) }
        ensures idle { IsFalse (does_write (box_value self.old.card) frame.now) →
            F.state self.new.file ≡ F.state self.old.file }
        ensures tidy { OnOk result (self.new.torn ≡ None) }
    {
        if !self.card.does_write(frame) {
            return Ok(answered(&mut self.card, &mut self.heard, frame));
        }
        match keep(&mut self.file, &self.key, frame) {
            Ok(()) => Ok(answered(&mut self.card, &mut self.heard, frame)),
            Err(torn) => {
                self.torn = torn;
                Err(count_fault(&mut self.faults))
            }
        }
    }

    /// The file.
    pub fn into_file(self) -> F
        ensures file { result ≡ self.file }
        ensures card { self.torn ≡ None → IsTrue (F.state result).tells → Known (F.state result) (F.state result) →
            Stands self.key (F.state result).reads None (box_value self.card) }

        // Each image that a crash may leave has the card.
        ensures left { self.torn ≡ None → IsLeft self.key (F.state result) (box_value self.card) }
    {
        let KeptCard { file, .. } = self;
        file
    }
}

impl<F: StoreFile> RpmbPort for KeptCard<F> {
    ghost use Rattle.std.specs.Prelude.{box_value, refl};
    ghost use Rattle.rpmb_card.specs.Port.{Exchanged};
    ghost use Rattle.host_card.specs.Kept.{HoldsTwice, kept_port};

    ghost state = { λ port. kept_port (box_value port.card) port.heard port.faults };

    ghost sound = { λ port. record {
      card = port.card_sound;
      faults = port.faults_fit;
      starved = refl;
      heard = port.heard_few;
      calm = λ tells unarmed. tells;
    } };

    fn exchange(&mut self, frame: &[u8; 512]) -> Result<[u8; 512], Failed>
        ensures exchanged { Exchanged (kept_port (box_value self.old.card) self.old.heard self.old.faults)
            (kept_port (box_value self.new.card) self.new.heard self.new.faults) frame.now result }
        ensures cause { OnErr result (Rose (F.state self.old.file).faults (F.state self.new.file).faults) }
        ensures key { self.new.key ≡ self.old.key }

        // At each moment of it, what a crash leaves keeps the card from before it: of a tidy port, and of one that is not
        // both until it is tidy and from then on.
        ensures held { self.old.torn ≡ None →
            HoldsCard self.old.key (F.state self.old.file) (F.state self.new.file) (box_value self.old.card) }
        ensures mended { HoldsTwice self.old.key (F.state self.old.file) (F.state self.new.file) (box_value self.old.card) }

        // A write that the card took stands in the file twice.
        ensures copies { OnOk result (IsTrue (does_write (box_value self.old.card) frame.now) →
            Known (F.state self.old.file) (F.state self.new.file) → HasCopies (F.state self.new.file).reads frame.now) }

        // Any other frame leaves the file as it is, where the port was tidy.
        ensures idle { self.old.torn ≡ None → IsFalse (does_write (box_value self.old.card) frame.now) →
            F.state self.new.file ≡ F.state self.old.file }

        // Where it answers, the port is tidy: so each image that a crash may leave has the card that answered.
        ensures tidy { OnOk result (self.new.torn ≡ None) }
    {
        let Some(torn) = self.torn else {
            return self.pass(frame);
        };
        match mend(&mut self.file, &self.key, torn) {
            Ok(()) => {
                self.torn = None;
                self.pass(frame)
            }
            Err(_) => Err(count_fault(&mut self.faults)),
        }
    }
}

#[cfg(test)]
mod tests {
    use super::*;
    use mem_files::MemFile;
    use rpmb_card::{READ_BLOCK, READ_COUNTER, WRITE_BLOCK, empty_frame};
    use rpmb_frame::seal_frame;
    use std::test::Fail;

    const KEY: [u8; 32] = [7; 32];

    fn write_block<P: RpmbPort>(port: &mut P) -> Result<(), Failed> {
        let block = Frame {
            block: [9; 256],
            address: 3,
            count: 1,
            kind: WRITE_BLOCK,
            ..empty_frame()
        };
        let mut request = block.write();
        seal_frame(&mut request, &KEY);
        port.exchange(&request)?;
        Ok(())
    }

    fn counter_of<P: RpmbPort>(port: &mut P) -> Result<u32, Failed> {
        let request = Frame {
            kind: READ_COUNTER,
            ..empty_frame()
        };
        Ok(Frame::parse(&port.exchange(&request.write())?).counter)
    }

    fn last_byte_of<P: RpmbPort>(port: &mut P) -> Result<u8, Failed> {
        let request = Frame {
            address: 3,
            kind: READ_BLOCK,
            ..empty_frame()
        };
        Ok(Frame::parse(&port.exchange(&request.write())?).block[255])
    }

    #[test]
    fn a_card_outlives_its_port(rt: HostRuntime) -> Result<(), Fail> {
        let key = SecretKey::new(KEY);
        let file = MemFile::new(rt.alloc());
        let Ok(mut port) = KeptCard::create(rt.alloc(), file, key.copy()) else {
            panic!(rt; "no card in an empty file");
        };
        assert_eq!(rt; write_block(&mut port), Ok(()));
        assert!(rt; port.is_tidy());
        let Ok(mut again) = KeptCard::open(rt.alloc(), port.into_file(), key) else {
            panic!(rt; "no card in its file");
        };
        assert_eq!(rt; counter_of(&mut again), Ok(1));
        assert_eq!(rt; last_byte_of(&mut again), Ok(9));
        Ok(())
    }

    #[test]
    fn a_file_says_why_it_has_no_card(rt: HostRuntime) -> Result<(), Fail> {
        let Err(broken) = KeptCard::open(rt.alloc(), MemFile::new(rt.alloc()), SecretKey::new(KEY))
        else {
            panic!(rt; "a card in an empty file");
        };
        assert_eq!(rt; broken.fault, CardFault::NoCard);
        let Ok(port) = KeptCard::create(rt.alloc(), broken.file, SecretKey::new(KEY)) else {
            panic!(rt; "no card in an empty file");
        };
        let Err(broken) = KeptCard::open(rt.alloc(), port.into_file(), SecretKey::new([8; 32]))
        else {
            panic!(rt; "the card of another key");
        };
        assert_eq!(rt; broken.fault, CardFault::OtherKey);
        Ok(())
    }
}
