// The layout of a card's file, and the calls that read and write its parts.
ghost use Rattle.std.specs.Prelude.{◌≡◌, ◌+◌, ◌<◌, ◌^◌, length, take, IsTrue, IfOk, OnOk, IfErr, MatchResult};
ghost use Rattle.disk_model.specs.Calls.{GoesOn, Known, Rests};
ghost use Rattle.disk_model.specs.Keeps.{Keeps, Outside};
ghost use Rattle.host_card.specs.CardFile.{IsCardFile, header, request_at};
ghost use Rattle.host_card.specs.Faults.{Counts, HasFault, HasNoRoom};
ghost use Rattle.host_card.specs.Kept.{IsPut};
ghost use Rattle.host_card.specs.Opening.{IsLaid, IsMade, IsRefusal};
ghost use Rattle.host_card.specs.Places.{begin};

use crate::CardFault;
use byte_fields::{equal_bytes, field};
use hmac_keys::hmac;
use tee_ports::{Failed, StoreFile};

/// How many blocks a card has.
pub(crate) const BLOCKS: u16 = 256;

// How long the header is, and a version of a block.
const HEADER_LENGTH: u64 = 512;

const VERSION_LENGTH: u64 = 1024;

// How long a file is made.
const FILE_LENGTH: u64 = 525_312;

const MAGIC: &[u8; 16] = b"RPMB card, no. 1";

/// A version of a block: the block's address, and 0 or 1.
#[derive(Clone, Copy)]
pub(crate) struct Place {
    pub address: u8,
    pub version: u8,
}

impl Place {
    /// Where it begins.
    pub fn begin(self) -> u64
        ensures { result ≡ begin self }
    {
        HEADER_LENGTH
            + 2 * VERSION_LENGTH * u64::from(self.address)
            + VERSION_LENGTH * u64::from(self.version)
    }
}

/// Reads 512 bytes; where the file has none, zero.
pub(crate) fn read_sector<F: StoreFile>(file: &mut F, at: u64) -> Result<[u8; 512], Failed>
    requires { at < 2 ^ 32 }
    ensures rests { Rests (F.state file.old) (F.state file.new) }
    ensures counts { Counts (F.state file.old) (F.state file.new) result }
    ensures told { IfOk result (λ sector. IsTrue (F.state file.new).tells → sector ≡ request_at (F.state file.new).reads at) }
{
    let mut sector = [0; 512];
    file.read_at(at, &mut sector)?;
    Ok(sector)
}

/// Writes a version, and settles it.
pub(crate) fn put<F: StoreFile>(
    file: &mut F,
    place: Place,
    bytes: &[u8; 1024],
) -> Result<(), Failed>
    ensures keeps { Keeps (Outside (begin place) (begin place + 1024)) (F.state file.old) (F.state file.new) }
    ensures counts { Counts (F.state file.old) (F.state file.new) result }
    ensures put { OnOk result (IsPut (F.state file.old) (F.state file.new) (begin place) bytes.now) }
{
    file.write_at(place.begin(), bytes)?;
    file.sync()
}

// What the header begins with.
fn header(key: &[u8; 32]) -> [u8; 48]
    ensures { result ≡ header key.now }
{
    let mut header = [0; 48];
    header[..16].copy_from_slice(MAGIC);
    header[16..].copy_from_slice(&hmac(key, MAGIC));
    header
}

// Whether the first bytes of a file are those of a card with this key.
fn check_first(first: &[u8; 512], key: &[u8; 32]) -> Result<(), CardFault>
    ensures { MatchResult result (λ _. take 48 first.now ≡ header key.now) (λ fault. IsRefusal key.now first.now fault) }
{
    let stands: [u8; 48] = field(first, 0);
    if equal_bytes(&stands, &header(key)) {
        return Ok(());
    }
    let name: [u8; 16] = field(first, 0);
    if equal_bytes(&name, MAGIC) {
        Err(CardFault::OtherKey)
    } else {
        Err(CardFault::Foreign)
    }
}

/// Whether the file is that of a card with this key.
pub(crate) fn check_header<F: StoreFile>(file: &mut F, key: &[u8; 32]) -> Result<(), CardFault>
    ensures rests { Rests (F.state file.old) (F.state file.new) }
    ensures counted { OnOk result ((F.state file.new).faults ≡ (F.state file.old).faults) }
    ensures fault { IfErr result (λ fault. HasFault key.now (F.state file.old) (F.state file.new) fault) }
    ensures told { OnOk result (IsTrue (F.state file.old).tells → Known (F.state file.old) (F.state file.new) →
        IsCardFile key.now (F.state file.old).reads) }
{
    let length = file.len()?;
    if length == 0 {
        return Err(CardFault::NoCard);
    }
    if length < FILE_LENGTH {
        return Err(CardFault::Foreign);
    }
    let first = read_sector(file, 0)?;
    check_first(&first, key)
}

// Makes the file of a card that was never written.
fn lay_out<F: StoreFile>(file: &mut F, key: &[u8; 32]) -> Result<(), Failed>
    ensures counts { Counts (F.state file.old) (F.state file.new) result }
    ensures goes_on { GoesOn (F.state file.old) (F.state file.new) }
    ensures laid { OnOk result (IsLaid key.now (F.state file.old) (F.state file.new)) }
{
    file.set_len(FILE_LENGTH)?;
    file.sync()?;
    file.write_at(0, &header(key))?;
    file.sync()
}

/// Makes the file of a card that was never written, where the file has no bytes.
pub(crate) fn make_file<F: StoreFile>(file: &mut F, key: &[u8; 32]) -> Result<(), CardFault>
    ensures counted { OnOk result ((F.state file.new).faults ≡ (F.state file.old).faults) }
    ensures fault { IfErr result (λ fault. HasNoRoom (F.state file.old) (F.state file.new) fault) }
    ensures goes_on { GoesOn (F.state file.old) (F.state file.new) }
    ensures made { OnOk result (IsMade key.now (F.state file.old) (F.state file.new)) }
{
    let length = file.len()?;
    if length > 0 {
        return Err(CardFault::NotEmpty { length });
    }
    lay_out(file, key)?;
    Ok(())
}
