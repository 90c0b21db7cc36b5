// What a locked slot has in memory of its object.
ghost use Rattle.std.specs.Prelude.{◌≡◌, ◌≤◌, length};
ghost use Rattle.history_seats.specs.Records.{Version};
ghost use Rattle.object_file.specs.Value.{size_in};
ghost use Rattle.object_slots.specs.SlotValues.{IfLive, IsLive};
ghost use Rattle.object_slots.specs.GuardedFronts.{ShowsAttributes};
ghost use Rattle.object_slots.specs.GuardedSlots.{SlotInvariant};
ghost use Rattle.object_slots.specs.GuardedReads.{GivesVersion};

use crate::Slot;
use core_laws::StoreName;
use tee_ports::StoreFile;

/// The attributes of a slot's object, at most 2,048 bytes. Where the slot's view gives a version that no doubt touches, they are that
/// version's, as its file gave block 0. No call of the file is made.
pub fn attributes<F: StoreFile + Drop, L: StoreName>(slot: &Slot<F>) -> &[u8]
    requires guarded { SlotInvariant L.store slot.now }
    requires live { IsLive slot.now.holds }
    ensures few { length result.now ≤ 2048 }
    ensures attributes { IfLive slot.now.holds (λ o. result.now ≡ o.attributes) }
    ensures version { (v : Version) → GivesVersion slot.now v → ShowsAttributes L.store.keys slot.now.file v result.now }
{
    slot.attributes()
}

/// How many bytes of data a slot's object has, at most 1,044,480. Where the slot's view gives a version that no doubt touches, they are as
/// many as that version's. No call of the file is made.
pub fn size<F: StoreFile + Drop, L: StoreName>(slot: &Slot<F>) -> u32
    requires guarded { SlotInvariant L.store slot.now }
    requires live { IsLive slot.now.holds }
    ensures few { result ≤ 1044480 }
    ensures size { IfLive slot.now.holds (λ o. result ≡ size_in o) }
    ensures version { (v : Version) → GivesVersion slot.now v → result ≡ v.size }
{
    slot.size()
}
