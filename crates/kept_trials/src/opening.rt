// A store is opened on its devices.

ghost use Rattle.std.specs.Prelude.{◌≡◌, [], vec_len, IfOk};
ghost use Rattle.tee_types.specs.Limits.{file_count};
ghost use Rattle.object_calls.specs.Opening.{IsKeyed};

use crate::devices::Devices;
use hmac_keys::{Keys, rpmb_key};
use host_card::{CardBroken, KeptCard};
use kept_store::{CardPlan, OpenFault, Unopened, open_devices};
use mem_files::MemFile;
use object_calls::{Bench, Opening};
use std::alloc::Global;
use tee_ports::{Entropy, ListEntropy};

/// The devices of a store that is open, but for the file of an exported block.
pub type OpenDevices = Bench<MemFile, KeptCard<MemFile>>;

/// A store that is open, and the file of an exported block.
#[derive(Drop)]
pub struct Opened {
    pub opening: Opening<MemFile, KeptCard<MemFile>>,
    pub block: MemFile,
}

/// Devices on which no store was opened, and why.
#[derive(Drop)]
pub struct Refused {
    pub devices: Devices,
    pub fault: OpenFault,
}

/// The keys of the device.
pub fn device_keys() -> Keys {
    Keys {
        huk: [7; 16],
        chip: [8; 32],
    }
}

/// The keys of another device.
pub fn other_keys() -> Keys {
    Keys {
        huk: [9; 16],
        chip: [8; 32],
    }
}

/// A generator that never fails, and draws what the others don't.
pub fn draws(stream: u16) -> ListEntropy {
    ListEntropy::new([0; 16]).stream(u64::from(stream))
}

/// The devices of a store that is closed.
pub fn closed(devices: OpenDevices, block: MemFile) -> Devices {
    let Bench { files, card } = devices;
    Devices {
        files,
        card: card.into_file(),
        block,
    }
}

// The card in its file.
fn card_in(
    alloc: Global,
    file: MemFile,
    plan: CardPlan,
    keys: &Keys,
) -> Result<KeptCard<MemFile>, CardBroken<MemFile>> {
    let key = rpmb_key(keys);
    match plan {
        CardPlan::MakeCard => KeptCard::create(alloc, file, key),
        CardPlan::OpenCard => KeptCard::open(alloc, file, key),
    }
}

/// Opens a store on its devices.
pub fn open(
    alloc: Global,
    devices: Devices,
    plan: CardPlan,
    keys: &Keys,
    entropy: &mut ListEntropy,
) -> Result<Opened, Refused>
    requires { vec_len devices.files ≡ file_count }
    ensures keyed { IfOk result (λ o. IsKeyed keys.now o.opening) }
    ensures unopened { IfOk result (λ o. o.opening.applications ≡ []) }
{
    let Devices {
        files,
        card,
        mut block,
    } = devices;
    let card = match card_in(alloc, card, plan, keys) {
        Ok(card) => card,
        Err(CardBroken { file, fault }) => {
            let devices = Devices {
                files,
                card: file,
                block,
            };
            let fault = OpenFault::Card(fault);
            return Err(Refused { devices, fault });
        }
    };
    match open_devices(alloc, Bench { files, card }, &mut block, keys, entropy) {
        Ok(opening) => Ok(Opened { opening, block }),
        Err(Unopened { devices, fault }) => Err(Refused {
            devices: closed(devices, block),
            fault,
        }),
    }
}
