// The versions of a block, read.
ghost use Rattle.std.specs.Prelude.{◌≡◌, ◌<◌, ◌↔◌, Some, IsTrue, IfOk};
ghost use Rattle.disk_model.specs.Calls.{Known, Rests};
ghost use Rattle.rpmb_card.specs.Card.{is_authentic};
ghost use Rattle.rpmb_frame.specs.Layout.{frame_of};
ghost use Rattle.host_card.specs.CardFile.{IsWhole, is_write_of};
ghost use Rattle.host_card.specs.Faults.{Counts};
ghost use Rattle.host_card.specs.Places.{IsSpare};
ghost use Rattle.host_card.specs.Versions.{AreZero, HasWrite, IsBlock, IsVersion, IsVersionOf, newest, spare_number};

use crate::card_file::{Place, read_sector};
use rpmb_card::WRITE_BLOCK;
use rpmb_frame::{Frame, verify};
use tee_ports::{Failed, StoreFile};

/// What a version of a block is.
#[derive(Clone, Copy)]
pub(crate) enum Version {
    /// The request that wrote it.
    Request([u8; 512]),
    /// Zero bytes.
    Clear,
    /// Anything else.
    Bad,
}

// The request carries its MAC under the key.
fn is_authentic(key: &[u8; 32], request: &[u8; 512]) -> bool
    ensures { result ≡ is_authentic (Some key.now) request.now }
{
    verify(request, key).is_ok()
}

// It is a write of this block, which the card with this key takes where its counter is the request's.
fn is_write_of(key: &[u8; 32], address: u8, request: &[u8; 512]) -> bool
    ensures { result ≡ is_write_of key.now address request.now }
{
    let frame = Frame::parse(request);
    frame.kind == WRITE_BLOCK
        && frame.count == 1
        && frame.address == u16::from(address)
        && frame.counter < u32::MAX
        && is_authentic(key, request)
}

// It has no byte but zero.
fn is_zero(bytes: &[u8; 512]) -> bool
    ensures { IsTrue result ↔ AreZero bytes.now }
{
    bytes.iter().all(|byte| *byte == 0)
}

// What two copies are.
fn version_of(key: &[u8; 32], address: u8, first: &[u8; 512], second: &[u8; 512]) -> Version
    ensures is { IsVersionOf key.now address first.now second.now result }
    ensures writes { HasWrite key.now address result }
{
    if is_write_of(key, address, first) {
        Version::Request(*first)
    } else if is_write_of(key, address, second) {
        Version::Request(*second)
    } else if is_zero(first) && is_zero(second) {
        Version::Clear
    } else {
        Version::Bad
    }
}

// Reads a version.
fn read_version<F: StoreFile>(file: &mut F, key: &[u8; 32], place: Place) -> Result<Version, Failed>
    ensures rests { Rests (F.state file.old) (F.state file.new) }
    ensures counts { Counts (F.state file.old) (F.state file.new) result }
    ensures told { IfOk result (λ version. IsTrue (F.state file.old).tells → Known (F.state file.old) (F.state file.new) →
        IsVersion key.now (F.state file.old).reads place.address place.version version) }
    ensures writes { IfOk result (λ version. HasWrite key.now place.address version) }
{
    let at = place.begin();
    let first = read_sector(file, at)?;
    let second = read_sector(file, at + 512)?;
    Ok(version_of(key, place.address, &first, &second))
}

// The counter of a request.
fn counter_of(request: &[u8; 512]) -> u32
    ensures { result ≡ (frame_of request.now).counter }
{
    Frame::parse(request).counter
}

// The number of the version that may be written over.
fn spare_of(first: &Version, second: &Version) -> u8
    ensures number { result ≡ spare_number first.now second.now }
    ensures below { result < 2 }
{
    match (first, second) {
        (Version::Request(first), Version::Request(second)) => {
            if counter_of(first) < counter_of(second) {
                0
            } else {
                1
            }
        }
        (Version::Request(_), _) => 1,
        (_, Version::Request(_)) => 0,
        (_, Version::Clear) => 0,
        _ => 1,
    }
}

// What the block is.
fn block_of(first: &Version, second: &Version) -> Version
    ensures { result ≡ newest first.now second.now }
{
    match (first, second) {
        (Version::Request(first_request), Version::Request(second_request)) => {
            if counter_of(first_request) < counter_of(second_request) {
                *second
            } else {
                *first
            }
        }
        (Version::Request(_), _) => *first,
        (_, Version::Request(_)) => *second,
        (Version::Bad, Version::Bad) => Version::Bad,
        _ => Version::Clear,
    }
}

/// The version of a block that may be written over.
pub(crate) fn find_spare<F: StoreFile>(
    file: &mut F,
    key: &[u8; 32],
    address: u8,
) -> Result<Place, Failed>
    ensures rests { Rests (F.state file.old) (F.state file.new) }
    ensures counts { Counts (F.state file.old) (F.state file.new) result }
    ensures at { IfOk result (λ place. place.address ≡ address) }
    ensures below { IfOk result (λ place. place.version < 2) }
    ensures spare { IfOk result (λ place. IsTrue (F.state file.old).tells → Known (F.state file.old) (F.state file.new) →
        IsWhole key.now (F.state file.old).reads → IsSpare key.now (F.state file.old).reads place) }
{
    let first = read_version(
        file,
        key,
        Place {
            address,
            version: 0,
        },
    )?;
    let second = read_version(
        file,
        key,
        Place {
            address,
            version: 1,
        },
    )?;
    let version = spare_of(&first, &second);
    Ok(Place { address, version })
}

/// Reads a block.
pub(crate) fn read_block<F: StoreFile>(
    file: &mut F,
    key: &[u8; 32],
    address: u8,
) -> Result<Version, Failed>
    ensures rests { Rests (F.state file.old) (F.state file.new) }
    ensures counts { Counts (F.state file.old) (F.state file.new) result }
    ensures told { IfOk result (λ block. IsTrue (F.state file.old).tells → Known (F.state file.old) (F.state file.new) →
        IsBlock key.now (F.state file.old).reads address block) }
    ensures writes { IfOk result (λ block. HasWrite key.now address block) }
{
    let first = read_version(
        file,
        key,
        Place {
            address,
            version: 0,
        },
    )?;
    let second = read_version(
        file,
        key,
        Place {
            address,
            version: 1,
        },
    )?;
    Ok(block_of(&first, &second))
}
