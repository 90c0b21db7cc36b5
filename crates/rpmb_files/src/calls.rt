//! The calls of a card store.

ghost use Rattle.std.specs.Prelude.{◌≡◌, IfErr, IsTrue, OnOk};
ghost use Rattle.rpmb_host.specs.Honest.{HadCard};
ghost use Rattle.card_maps.specs.Course.{Get, Put, Remove};
ghost use Rattle.card_maps.specs.Tables.{named};
ghost use Rattle.rpmb_files.specs.Devices.{GoesOn, devices};
ghost use Rattle.rpmb_files.specs.Replies.{FaultStands, OfNoCard, OfNoDraw, done_reply, found_reply};
ghost use Rattle.rpmb_files.specs.Stores.{store_state};
ghost use Rattle.rpmb_files.specs.Counts.{HasWritten};
ghost use Rattle.rpmb_files.specs.Calls.{Leaves, writes_in};

use crate::CardFault;
use crate::change::{put_object, remove_object};
use crate::read::get_object;
use crate::store::CardStore;
use rpmb_card::RpmbPort;
use std::alloc::Global;
use tee_ports::Entropy;
use tee_types::{AppId, Bytes, ObjectId};

impl<R: RpmbPort + Drop, E: Entropy> CardStore<R, E> {
    /// The bytes of an object.
    ///
    /// # Errors
    ///
    /// `NotFound` exactly where the card has none of that name; `Device`; `NoMemory`.
    pub fn get(&mut self, alloc: Global, app: AppId, id: ObjectId) -> Result<Bytes, CardFault>
        ensures leaves { Leaves (store_state R.state E.faults self.old) (store_state R.state E.faults self.new)
            (Get (named app id)) (found_reply result) }
        ensures cause { IfErr result (FaultStands self.old.host.key (devices (R.state self.old.host.port) (E.faults self.old.entropy))
            (devices (R.state self.new.host.port) (E.faults self.new.entropy))) }
        ensures goes_on { GoesOn self.old.host.key (devices (R.state self.old.host.port) (E.faults self.old.entropy))
            (devices (R.state self.new.host.port) (E.faults self.new.entropy)) }
        ensures key { self.new.host.key ≡ self.old.host.key }
        ensures calm { IsTrue (R.state self.old.host.port).calm → IfErr result OfNoCard }
        ensures reliable { E.is_reliable self.old.entropy → E.is_reliable self.new.entropy × IfErr result OfNoDraw }
    {
        get_object(
            alloc,
            &mut self.link,
            &mut self.table,
            &mut self.doubt,
            app,
            id,
        )
    }

    /// Puts an object, over the one of its name where there is one: its bytes and its entry go into the least free blocks, and then the
    /// map block is written, by which the object stands and the old one does not. It takes no memory.
    ///
    /// # Errors
    ///
    /// The first that holds: `TooLarge` exactly above 16,384 bytes; `Full` exactly where one block, and those of its data, are more than
    /// the blocks 2 to 255 that no object has; `Spent` exactly where the card's counter leaves no room for the writes; `Device`.
    pub fn put(&mut self, app: AppId, id: ObjectId, bytes: &[u8]) -> Result<(), CardFault>
        ensures leaves { Leaves (store_state R.state E.faults self.old) (store_state R.state E.faults self.new)
            (Put (named app id) bytes.now) (done_reply result) }
        ensures cause { IfErr result (FaultStands self.old.host.key (devices (R.state self.old.host.port) (E.faults self.old.entropy))
            (devices (R.state self.new.host.port) (E.faults self.new.entropy))) }
        ensures goes_on { GoesOn self.old.host.key (devices (R.state self.old.host.port) (E.faults self.old.entropy))
            (devices (R.state self.new.host.port) (E.faults self.new.entropy)) }
        ensures key { self.new.host.key ≡ self.old.host.key }
        ensures calm { IsTrue (R.state self.old.host.port).calm → IfErr result OfNoCard }
        ensures reliable { E.is_reliable self.old.entropy → E.is_reliable self.new.entropy × IfErr result OfNoDraw }
        // Done, with no doubt before it: two exchanges for each block that is written, 132 for 16,384 bytes, and one more for each whose
        // result was not told.
        ensures exchanges { IsTrue self.old.settled → OnOk result (HasWritten (HadCard (R.state self.old.host.port) self.old.host.key)
            (R.state self.old.host.port) (R.state self.new.host.port) (writes_in (Put (named app id) bytes.now))) }
    {
        put_object(
            &mut self.link,
            &mut self.table,
            &mut self.doubt,
            app,
            id,
            bytes,
        )
    }

    /// Removes an object. It takes no memory.
    ///
    /// # Errors
    ///
    /// The first that holds: `NotFound` exactly where the card has none of that name; `Spent` exactly where the card's counter is at its
    /// end; `Device`.
    pub fn remove(&mut self, app: AppId, id: ObjectId) -> Result<(), CardFault>
        ensures leaves { Leaves (store_state R.state E.faults self.old) (store_state R.state E.faults self.new)
            (Remove (named app id)) (done_reply result) }
        ensures cause { IfErr result (FaultStands self.old.host.key (devices (R.state self.old.host.port) (E.faults self.old.entropy))
            (devices (R.state self.new.host.port) (E.faults self.new.entropy))) }
        ensures goes_on { GoesOn self.old.host.key (devices (R.state self.old.host.port) (E.faults self.old.entropy))
            (devices (R.state self.new.host.port) (E.faults self.new.entropy)) }
        ensures key { self.new.host.key ≡ self.old.host.key }
        ensures calm { IsTrue (R.state self.old.host.port).calm → IfErr result OfNoCard }
        ensures reliable { E.is_reliable self.old.entropy → E.is_reliable self.new.entropy × IfErr result OfNoDraw }
        // Done, with no doubt before it: two exchanges, or three where the write's result was not told.
        ensures exchanges { IsTrue self.old.settled → OnOk result (HasWritten (HadCard (R.state self.old.host.port) self.old.host.key)
            (R.state self.old.host.port) (R.state self.new.host.port) (writes_in (Remove (named app id)))) }
    {
        remove_object(&mut self.link, &mut self.table, &mut self.doubt, app, id)
    }
}

#[cfg(test)]
mod tests {
    use super::*;
    use crate::CardParts;
    use rpmb_card::{CardRig, PROGRAM_KEY, SimCard, SimPort, empty_frame};
    use rpmb_frame::Frame;
    use rpmb_host::{Host, SecretKey};
    use std::test::Fail;
    use tee_ports::ListEntropy;
    use uuid::Uuid;

    const KEY: [u8; 32] = [7; 32];

    type SimStore = CardStore<SimPort, ListEntropy>;

    // A port to a card that has the key, and was never written.
    fn keyed_port(alloc: Global) -> Option<SimPort> {
        let mut port = SimPort::new(alloc, SimCard::blank());
        let program = Frame {
            key_or_mac: KEY,
            kind: PROGRAM_KEY,
            ..empty_frame()
        };
        port.exchange(&program.write()).ok()?;
        Some(port)
    }

    fn mounted(alloc: Global, port: SimPort) -> Option<SimStore> {
        let host = Host::new(port, SecretKey::new(KEY));
        CardStore::mount(alloc, host, ListEntropy::new([0; 16])).ok()
    }

    fn blank_store(alloc: Global) -> Option<SimStore> {
        mounted(alloc, keyed_port(alloc)?)
    }

    // The port of a store, with no fault armed.
    fn port_of(store: SimStore) -> SimPort {
        let CardParts { host, .. } = store.into_parts();
        let mut port = host.into_port();
        port.disarm();
        port
    }

    fn app() -> AppId {
        AppId::from_uuid(Uuid::from_bytes([1; 16]))
    }

    // The first byte of an object that has one.
    fn first_byte(
        alloc: Global,
        store: &mut SimStore,
        id: ObjectId,
    ) -> Result<Option<u8>, CardFault> {
        let bytes = store.get(alloc, app(), id)?;
        Ok(bytes.as_slice().first().copied())
    }

    #[test]
    fn an_object_is_put_and_removed(rt: HostRuntime) -> Result<(), Fail> {
        let id = ObjectId::new(b"k")?;
        let Some(mut store) = blank_store(rt.alloc()) else {
            panic!(rt; "a blank card is refused");
        };
        assert_eq!(rt; store.put(app(), id, &[1]), Ok(()));
        assert_eq!(rt; first_byte(rt.alloc(), &mut store, id), Ok(Some(1)));
        assert_eq!(rt; store.list(rt.alloc())?.len(), 1);
        assert_eq!(rt; store.remove(app(), id), Ok(()));
        assert_eq!(rt;
            first_byte(rt.alloc(), &mut store, id),
            Err(CardFault::NotFound)
        );
        assert_eq!(rt; store.remove(app(), id), Err(CardFault::NotFound));
        let size = 16385;
        assert_eq!(rt;
            store.put(app(), id, &[0; 16385]),
            Err(CardFault::TooLarge { size })
        );
        let CardParts { mut host, .. } = store.into_parts();
        assert_eq!(rt; host.read_counter(&[0; 16]), Ok(4));
        Ok(())
    }

    #[test]
    fn a_card_holds_three_of_the_greatest_objects(rt: HostRuntime) -> Result<(), Fail> {
        let Some(mut store) = blank_store(rt.alloc()) else {
            panic!(rt; "a blank card is refused");
        };
        let full = CardFault::Full { need: 65, free: 59 };
        for (number, want) in [(1u8, Ok(())), (2, Ok(())), (3, Ok(())), (4, Err(full))] {
            let id = ObjectId::new(&[number])?;
            assert_eq!(rt;
                store.put(app(), id, &[number; 16384]),
                want,
                "object {number}"
            );
        }
        Ok(())
    }

    // The second put of one byte makes six exchanges. Cut off behind the write of its map block it stands, and is not told to.
    #[test]
    fn a_put_that_is_cut_off_leaves_either_object(rt: HostRuntime) -> Result<(), Fail> {
        let id = ObjectId::new(b"k")?;
        for (calls, is_done, byte) in [
            (0u64, false, 1),
            (1, false, 1),
            (4, false, 1),
            (5, false, 2),
            (6, true, 2),
        ] {
            let Some(mut store) = blank_store(rt.alloc()) else {
                panic!(rt; "a blank card is refused");
            };
            assert_eq!(rt; store.put(app(), id, &[1]), Ok(()));
            store.stop_after(calls);
            assert_eq!(rt;
                store.put(app(), id, &[2]).is_ok(),
                is_done,
                "after {calls} exchanges"
            );
            store.stop_after(100);
            assert_eq!(rt;
                first_byte(rt.alloc(), &mut store, id),
                Ok(Some(byte)),
                "after {calls} exchanges"
            );
            let Some(mut again) = mounted(rt.alloc(), port_of(store)) else {
                panic!(rt; "its card is refused");
            };
            assert_eq!(rt;
                first_byte(rt.alloc(), &mut again, id),
                Ok(Some(byte)),
                "after {calls} exchanges"
            );
        }
        Ok(())
    }
}
