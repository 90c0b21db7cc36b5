// Short reads of an open object, served on one thread.

ghost use Rattle.std.specs.Prelude.{◌≡◌, [], vec_len, IfOk, OnOk};
ghost use Rattle.script_text.specs.declared.script.Step.TheVariants.{Call as CallStep};
ghost use Rattle.tee_types.specs.Limits.{file_count};
ghost use Rattle.object_calls.specs.Opening.{IsKeyed};
ghost use Rattle.run_acts.specs.ServedSteps.{AreCalls};

use anyhow::bail;
use hmac_keys::{Keys, rpmb_key};
use mem_files::MemFile;
use object_calls::{Bench, Closed, Opening, format, mount};
use rpmb_card::{PROGRAM_KEY, RpmbPort, SimCard, SimPort, empty_frame};
use rpmb_frame::Frame;
use run_acts::serve_serially;
use script_text::Step;
use std::alloc::Global;
use tee_ports::ListEntropy;
use tee_types::{
    AppId, BENCH_FILES, Bytes, Call, Flags, NoMemory, OVERWRITE, ObjectId, READ, Whence,
};
use uuid::Uuid;

// How many bytes the object has, and how many of them a read wants.
const SIZE: usize = 65_536;

const READ_SIZE: u32 = 16;

// A call of the one application.
fn step(call: Call) -> Step
    ensures { result ≡ CallStep 0 call }
{
    Step::Call { app: 0, call }
}

// The bytes of the object.
fn object_bytes(alloc: Global) -> anyhow::Result<Bytes> {
    let data = vec![in alloc; 7u8; SIZE]?;
    Ok(Bytes::from_slice(alloc, &data)?)
}

// The call that makes the object.
fn creation(alloc: Global) -> anyhow::Result<Call> {
    let Ok(id) = ObjectId::new(b"read") else {
        bail!("no identifier")
    };
    Ok(Call::Create {
        id,
        flags: Flags {
            bits: READ | OVERWRITE,
        },
        attributes: Bytes::empty(alloc),
        bytes: object_bytes(alloc)?,
    })
}

// A read, behind a seek to the object's beginning.
fn push_read(steps: &mut Vec<Step>) -> Result<(), NoMemory>
    requires { AreCalls 1 steps.old.items }
    ensures { OnOk result (AreCalls 1 steps.new.items) }
{
    steps.push(step(Call::Seek {
        handle: 0,
        offset: 0,
        whence: Whence::Set,
    }))?;
    steps.push(step(Call::Read {
        handle: 0,
        size: READ_SIZE,
    }))?;
    Ok(())
}

// The object is made, and read so many times.
fn steps(alloc: Global, reads: u32) -> anyhow::Result<Vec<Step>>
    ensures { IfOk result (λ steps. AreCalls 1 steps.items) }
{
    let mut steps = Vec::new(alloc);
    steps.push(step(creation(alloc)?))?;
    for _i in 0..reads {
        push_read(&mut steps)?;
    }
    Ok(steps)
}

fn device_keys() -> Keys {
    Keys {
        huk: [7; 16],
        chip: [1; 32],
    }
}

// The files of a store, all empty.
fn empty_files(alloc: Global) -> anyhow::Result<Vec<MemFile>>
    ensures { IfOk result (λ files. vec_len files ≡ file_count) }
{
    let mut files = Vec::with_capacity(alloc, BENCH_FILES)?;
    for _i in 0..BENCH_FILES {
        files.push(MemFile::new(alloc))?;
    }
    Ok(files)
}

// A card that was never used but to give it the key.
fn keyed_card(alloc: Global, keys: &Keys) -> anyhow::Result<SimPort> {
    let mut port = SimPort::new(alloc, SimCard::blank());
    let program = Frame {
        key_or_mac: *rpmb_key(keys).bytes(),
        kind: PROGRAM_KEY,
        ..empty_frame()
    };
    match port.exchange(&program.write()) {
        Ok(_) => Ok(port),
        Err(_) => bail!("a card takes no key"),
    }
}

// A new store on simulated devices.
fn new_store(alloc: Global, keys: &Keys) -> anyhow::Result<Opening<MemFile, SimPort>>
    ensures keyed { IfOk result (λ opening. IsKeyed keys.now opening) }
    ensures unopened { IfOk result (λ opening. opening.applications ≡ []) }
{
    let mut entropy = ListEntropy::new([0; 16]);
    let bench = Bench {
        files: empty_files(alloc)?,
        card: keyed_card(alloc, keys)?,
    };
    let Ok(bench) = format(alloc, bench, keys, &mut entropy) else {
        bail!("not formatted")
    };
    match mount(alloc, bench, keys, &mut entropy) {
        Ok(opening) => Ok(opening),
        Err(_) => bail!("not mounted"),
    }
}

/// Serves so many short reads of an object, each behind a seek, and tells how many events there were.
pub fn serve_reads(alloc: Global, reads: u32) -> anyhow::Result<u64> {
    let applications = [AppId::from_uuid(Uuid::from_bytes([1; 16]))];
    let keys = device_keys();
    let steps = steps(alloc, reads)?;
    let opening = new_store(alloc, &keys)?;
    match serve_serially(
        alloc,
        opening,
        &keys,
        &ListEntropy::new([0; 16]),
        &applications,
        steps.as_slice(),
    ) {
        Ok(Closed { history, .. }) => Ok(history.len()),
        Err(_) => bail!("no memory"),
    }
}
