// A card that is written many times.

use anyhow::bail;
use hmac_keys::SecretKey;
use host_card::KeptCard;
use mem_files::MemFile;
use rpmb_card::{RpmbPort, WRITE_BLOCK, empty_frame};
use rpmb_frame::{Frame, seal_frame};
use std::alloc::Global;
use tee_ports::FileRig;

/// How often it is written.
const CHANGES: u32 = 200_000;

// The card's key.
fn key() -> SecretKey {
    SecretKey::new([7; 32])
}

// The request that writes block 0 of a card with this counter.
fn write_request(key: &SecretKey, counter: u32) -> [u8; 512] {
    let frame = Frame {
        block: [9; 256],
        address: 0,
        count: 1,
        counter,
        kind: WRITE_BLOCK,
        ..empty_frame()
    };
    let mut request = frame.write();
    seal_frame(&mut request, key.bytes());
    request
}

// The file once the card was written so often, from this counter on.
fn written(
    card: KeptCard<MemFile>,
    key: &SecretKey,
    from: u32,
    upto: u32,
) -> anyhow::Result<MemFile> {
    let mut card = card;
    for counter in from..upto {
        if card.exchange(&write_request(key, counter)).is_err() {
            bail!("a write that failed");
        }
    }
    Ok(card.into_file())
}

// The card of the file.
fn opened(alloc: Global, file: MemFile, key: &SecretKey) -> anyhow::Result<KeptCard<MemFile>> {
    match KeptCard::open(alloc, file, key.copy()) {
        Ok(card) => Ok(card),
        Err(broken) => bail!("no card: {:?}", broken.fault),
    }
}

/// The file of a card, and by how many calls an opening reads it.
#[derive(Drop)]
struct Reading {
    file: MemFile,
    calls: u64,
}

// Opens the card of the file, and closes it.
fn read(alloc: Global, file: MemFile, key: &SecretKey) -> anyhow::Result<Reading> {
    let mut file = file;
    file.disarm();
    let file = opened(alloc, file, key)?.into_file();
    let calls = file.calls();
    Ok(Reading { file, calls })
}

/// Whether a card that was written many times is read by as many calls as one that was written once.
pub fn is_read_alike(alloc: Global) -> anyhow::Result<bool> {
    let key = key();
    let Ok(card) = KeptCard::create(alloc, MemFile::new(alloc), key.copy()) else {
        bail!("no card is made")
    };
    let once = read(alloc, written(card, &key, 0, 1)?, &key)?;
    let card = opened(alloc, once.file, &key)?;
    let often = read(alloc, written(card, &key, 1, CHANGES)?, &key)?;
    Ok(once.calls == often.calls)
}
