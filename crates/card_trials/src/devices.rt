// A store over a simulated card, and what it holds.

use crate::objects::{Content, NAMES, Name, Objects};
use anyhow::bail;
use rpmb_card::{PROGRAM_KEY, SimCard, SimPort, empty_frame};
use rpmb_files::{CardFault, CardName, CardParts, CardStore};
use rpmb_frame::Frame;
use rpmb_host::{Host, SecretKey};
use seed_words::SeedEntropy;
use std::alloc::Global;
use tee_ports::Entropy;
use tee_types::Bytes;

/// The key that the host shares with the card.
const KEY: [u8; 32] = [0x5a; 32];

pub type Store = CardStore<SimPort, SeedEntropy>;

// A card that has the key, whose write counter is at that number.
fn keyed_card(counter: u32) -> SimCard {
    let mut card = SimCard::blank();
    card.wear(counter);
    let program = Frame {
        key_or_mac: KEY,
        kind: PROGRAM_KEY,
        ..empty_frame()
    };
    card.answer(&program.write());
    card
}

// A store over the card, in a port without faults.
fn mount(alloc: Global, card: SimCard, entropy: SeedEntropy) -> anyhow::Result<Store> {
    let host = Host::new(SimPort::new(alloc, card), SecretKey::new(KEY));
    match CardStore::mount(alloc, host, entropy) {
        Ok(store) => Ok(store),
        Err(_) => bail!("a card is not mounted"),
    }
}

/// A store without objects, over a card whose write counter is at that number.
pub fn new_store(alloc: Global, counter: u32) -> anyhow::Result<Store> {
    mount(alloc, keyed_card(counter), SeedEntropy::from_seed(&[0; 32]))
}

/// A store with these objects.
pub fn store_with(alloc: Global, objects: &Objects) -> anyhow::Result<Store> {
    let mut store = new_store(alloc, 0)?;
    for number in 0..NAMES {
        if let Some(content) = objects.at(number) {
            let name = name_of(number)?;
            let bytes = content.bytes(alloc)?;
            if store.put(name.app, name.id, &bytes).is_err() {
                bail!("an object is not put");
            }
        }
    }
    Ok(store)
}

/// The name of that number.
pub fn name_of(number: usize) -> anyhow::Result<Name> {
    match Name::of(number) {
        Ok(name) => Ok(name),
        Err(_) => bail!("no identifier"),
    }
}

/// The card is taken out of its port, as behind a power cut, and is mounted in another.
pub fn remounted(alloc: Global, store: Store) -> anyhow::Result<Store> {
    let CardParts { host, entropy } = store.into_parts();
    mount(alloc, host.into_port().into_card(), entropy)
}

/// The card's write counter. The store is at its end.
pub fn counter_of(store: Store) -> anyhow::Result<u32> {
    let CardParts { mut host, entropy } = store.into_parts();
    let mut entropy = entropy;
    let mut nonce = [0; 16];
    if entropy.draw(&mut nonce).is_err() {
        bail!("no nonce");
    }
    match host.read_counter(&nonce) {
        Ok(counter) => Ok(counter),
        Err(_) => bail!("no counter"),
    }
}

/// The read of a name found these bytes, or none.
pub fn found(
    alloc: Global,
    answer: Result<Bytes, CardFault>,
    wanted: Option<Content>,
) -> anyhow::Result<bool> {
    match (answer, wanted) {
        (Ok(bytes), Some(content)) => Ok(bytes.as_slice() == content.bytes(alloc)?.as_slice()),
        (Err(CardFault::NotFound), None) => Ok(true),
        _ => Ok(false),
    }
}

/// The store gives what the map has under that name.
pub fn gives(
    alloc: Global,
    store: &mut Store,
    number: usize,
    objects: &Objects,
) -> anyhow::Result<bool> {
    let name = name_of(number)?;
    let answer = store.get(alloc, name.app, name.id);
    found(alloc, answer, objects.at(number))
}

// A name of a list is that of the object of that number.
fn is_listed(found: Option<&CardName>, number: usize, content: Content) -> anyhow::Result<bool> {
    let name = name_of(number)?;
    match found {
        Some(found) => {
            Ok(found.app == name.app && found.id == name.id && found.size == content.size)
        }
        None => Ok(false),
    }
}

/// The store lists the names of the map with their sizes, in order.
pub fn lists(alloc: Global, store: &Store, objects: &Objects) -> anyhow::Result<bool> {
    let Ok(names) = store.list(alloc) else {
        return Ok(false);
    };
    let mut at = 0usize;
    for number in 0..NAMES {
        if let Some(content) = objects.at(number) {
            if !is_listed(names.as_slice().get(at), number, content)? {
                return Ok(false);
            }
            at = at.saturating_add(1);
        }
    }
    Ok(at == names.len())
}

/// The store holds the objects of the map, and lists them.
pub fn holds(alloc: Global, store: &mut Store, objects: &Objects) -> anyhow::Result<bool> {
    for number in 0..NAMES {
        if !gives(alloc, store, number, objects)? {
            return Ok(false);
        }
    }
    lists(alloc, store, objects)
}
