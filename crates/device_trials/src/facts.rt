// What was drawn for a store, as its devices have it.

ghost use Rattle.std.specs.Prelude.{◌≡◌, vec_len, IfOk};
ghost use Rattle.tee_types.specs.Limits.{file_count};

use crate::devices::KeptBench;
use crate::kept_port::KeptPort;
use crate::trees::{Drawn, drawn_in};
use aes_block::unwrap_key;
use anyhow::{Context, bail};
use dir_records::DirEntry;
use hmac_keys::{dir_tsk, ssk, tsk};
use node_image::{FORMAT, RootRef};
use rpmb_frame::Frame;
use std::alloc::Global;
use store_commit::{Gate, root_in};
use tee_ports::FileRig;
use tee_types::DIRECTORY_FILE;
use trial_runs::{Bench, card_block, reliable, simulator_keys};

/// The requests that carry a nonce: a read of the counter, and of a block.
const WITH_NONCE: [u16; 2] = [2, 4];

/// What was drawn.
#[derive(Drop)]
pub struct Facts {
    /// The nonces of all requests that carry one.
    pub nonces: Vec<[u8; 16]>,
    /// The file key of the directory, and that of the first object.
    pub keys: [[u8; 16]; 2],
    /// The vectors of the directory's nodes, and those of the object's.
    pub directory: Vec<[u8; 16]>,
    pub object: Vec<[u8; 16]>,
}

// The nonces of the frames that carry one.
fn nonces_of(alloc: Global, port: &KeptPort) -> anyhow::Result<Vec<[u8; 16]>> {
    let mut nonces = Vec::new(alloc);
    for bytes in port.frames() {
        let frame = Frame::parse(bytes);
        if WITH_NONCE.contains(&frame.kind) {
            nonces.push(frame.nonce)?;
        }
    }
    Ok(nonces)
}

// What the file of that number holds of the tree that the reference names.
fn drawn_of(
    alloc: Global,
    bench: &KeptBench,
    file: usize,
    root: &RootRef,
) -> anyhow::Result<Drawn> {
    let file = bench.files.get(file).context("no file")?;
    let image = file.save()?;
    drawn_in(alloc, image.bytes(), root)
}

// The directory's first entry.
fn first_entry(alloc: Global, bench: KeptBench) -> anyhow::Result<DirEntry> {
    let Bench { files, card } = bench;
    let mut files = files;
    let dir = files.pop().context("no file")?;
    match Gate::mount(alloc, dir, card, &simulator_keys(), &mut reliable()) {
        Ok(gate) => gate.entry(0).context("no entry"),
        Err(_) => bail!("not mounted"),
    }
}

/// Reads what was drawn for a store with one object, in file 1.
pub fn facts_of(alloc: Global, bench: KeptBench) -> anyhow::Result<Facts>
    requires { vec_len bench.files ≡ file_count }
{
    let nonces = nonces_of(alloc, &bench.card)?;
    let Ok(read) = card_block(bench, &simulator_keys(), &mut reliable()) else {
        bail!("the card's block 0 was not read");
    };
    let Ok(root) = root_in(&read.block) else {
        bail!("no store");
    };
    let bench = read.bench;
    let directory = drawn_of(alloc, &bench, usize::from(DIRECTORY_FILE), &root)?;
    let object_file = bench.files.get(1).context("no file")?.save()?;
    let entry = first_entry(alloc, bench)?;
    let root = RootRef {
        hash: entry.hash,
        version: entry.version,
        format: FORMAT,
    };
    let object = drawn_in(alloc, object_file.bytes(), &root)?;
    let storage_key = ssk(&simulator_keys());
    let keys = [
        unwrap_key(&dir_tsk(&storage_key), &directory.wrapped),
        unwrap_key(&tsk(&storage_key, &entry.app.bytes()), &object.wrapped),
    ];
    Ok(Facts {
        nonces,
        keys,
        directory: directory.vectors,
        object: object.vectors,
    })
}
