// The lines of replies and controls that no row has.

use anyhow::Context;
use script_text::{Control, Mode, Script, parse, print_control, print_event, print_phase};
use std::alloc::Global;
use store_model::{Event, Mark};
use tee_types::{Call, Cause, Code, Device, FrameFault, NoMemory, Reason, Reply};

/// The application whose call is answered.
const APPLICATION: &[u8] = b"app a 00000000-0000-0000-0000-000000000001\n";

const CODES: [Code; 5] = [
    Code::AccessConflict,
    Code::BadParameters,
    Code::ItemNotFound,
    Code::Overflow,
    Code::NoSpace,
];

const REASONS: [Reason; 5] = [
    Reason::BadHandle,
    Reason::BadEnumerator,
    Reason::BadFlags,
    Reason::NoRight,
    Reason::TooMany,
];

/// The devices, each of which may fail.
const DEVICES: [Device; 4] = [Device::Dir, Device::File(3), Device::Card, Device::Entropy];

// Appends the line of a call that is answered so.
fn put_reply(names: &Script, reply: Reply, out: &mut Vec<u8>) -> Result<(), NoMemory> {
    let event = Event::Call {
        session: 0,
        number: 7,
        call: Call::EnumNew,
        reply,
        mark: Mark::Unchanged,
    };
    print_event(7, names, &event, out)
}

// Appends the lines of a device that failed, and of frames that were refused.
fn put_causes(names: &Script, out: &mut Vec<u8>) -> Result<(), NoMemory> {
    for device in DEVICES {
        let fault = Cause::Fault { device, count: 9 };
        put_reply(names, Reply::NotAvailable(fault), out)?;
    }
    let frame = Cause::Frame(FrameFault::Kind { want: 1, found: 2 });
    put_reply(names, Reply::NotAvailable(frame), out)?;
    put_reply(names, Reply::NotAvailable(Cause::CardResult(0x85)), out)
}

/// The lines.
pub fn lines(alloc: Global) -> anyhow::Result<Vec<u8>> {
    let names = parse(alloc, APPLICATION).ok().context("no script")?;
    let mut out = Vec::new(alloc);
    for code in CODES {
        put_reply(&names, Reply::Refused(code), &mut out)?;
    }
    for reason in REASONS {
        put_reply(&names, Reply::Misuse(reason), &mut out)?;
    }
    put_reply(&names, Reply::Corrupt, &mut out)?;
    put_causes(&names, &mut out)?;
    put_reply(&names, Reply::CounterSpent(u32::MAX), &mut out)?;
    put_reply(&names, Reply::NoMemory, &mut out)?;
    print_event(10, &names, &Event::Landed { commit: 3 }, &mut out)?;
    print_phase(0, Mode::Serial, 256, &mut out)?;
    print_control(&Control::Phase, &mut out)?;
    Ok(out)
}
