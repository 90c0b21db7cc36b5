// Frames of the card, the simulated card behind its port, and the host.

use crate::report::Report;
use rpmb_card::{
    CardRig, PROGRAM_KEY, READ_RESULT, RpmbPort, SimCard, SimPort, WRITE_BLOCK, empty_frame,
};
use rpmb_frame::{Frame, mac, seal_frame, verify};
use rpmb_host::{Host, HostFault, SecretKey};
use std::alloc::Global;
use tee_ports::{Failed, NoMemory};

const KEY: [u8; 32] = [0x5a; 32];

/// The bytes 7 i + 3 modulo 256.
fn pattern_bytes() -> [u8; 512] {
    let mut pattern = [0; 512];
    for (i, byte) in pattern.iter_mut().enumerate() {
        *byte = ((7 * i + 3) % 256) as u8;
    }
    pattern
}

/// The bytes from 0 to 31.
fn rising_key() -> [u8; 32] {
    let mut key = [0; 32];
    for (i, byte) in key.iter_mut().enumerate() {
        *byte = i as u8;
    }
    key
}

// The expected MAC is from Python's `hmac`.
fn add_frame(report: &mut Report) {
    let key = rising_key();
    let mut bytes = pattern_bytes();
    let again = Frame::parse(&bytes).write() == bytes;
    report.line(
        "rpmb_frame: are fields of known bytes these bytes again",
        &again,
    );
    report.hex("rpmb_frame: MAC of known bytes", &mac(&bytes, &key));
    report.line("rpmb_frame: known bytes", &verify(&bytes, &key));
    seal_frame(&mut bytes, &key);
    let sealed = Frame::parse(&bytes).key_or_mac;
    report.hex("rpmb_frame: MAC of the sealed frame", &sealed);
    report.line("rpmb_frame: the sealed frame", &verify(&bytes, &key));
}

fn request(kind: u16) -> Frame {
    Frame {
        kind,
        ..empty_frame()
    }
}

/// The write of a block of one byte's value.
fn write_request(address: u16, counter: u32, value: u8) -> [u8; 512] {
    let fields = Frame {
        block: [value; 256],
        address,
        counter,
        count: 1,
        ..request(WRITE_BLOCK)
    };
    let mut bytes = fields.write();
    seal_frame(&mut bytes, &KEY);
    bytes
}

fn card_with_key() -> SimCard {
    let mut card = SimCard::blank();
    let program = Frame {
        key_or_mac: KEY,
        ..request(PROGRAM_KEY)
    };
    card.answer(&program.write());
    card
}

fn exchange_with<R: RpmbPort>(port: &mut R, frame: &[u8; 512]) -> Result<[u8; 512], Failed> {
    port.exchange(frame)
}

/// The counter that the answer to a frame tells.
fn counter_from(port: &mut SimPort, frame: &[u8; 512]) -> Result<u32, Failed> {
    let bytes = exchange_with(port, frame)?;
    Ok(Frame::parse(&bytes).counter)
}

fn arm_with<R: CardRig>(port: &mut R) -> Result<(), NoMemory> {
    port.fail_call(1)?;
    port.lose_call(2)?;
    port.stop_after(3);
    Ok(())
}

/// Adds what an armed port gives, and hands out the third answer, of which the others are told apart.
fn add_answers(report: &mut Report, port: &mut SimPort, asks: &[u8; 512]) -> [u8; 512] {
    let write = write_request(0, 0, 1);
    report.line("rpmb_card: a write that fails", &counter_from(port, &write));
    report.line(
        "rpmb_card: a write whose answer is lost",
        &counter_from(port, &write),
    );
    let told = exchange_with(port, asks).unwrap_or([0; 512]);
    report.line(
        "rpmb_card: counter in the result",
        &Frame::parse(&told).counter,
    );
    report.line(
        "rpmb_card: the result, past the stop",
        &counter_from(port, asks),
    );
    told
}

fn add_port(report: &mut Report, alloc: Global) -> Result<(), NoMemory> {
    let mut port = SimPort::new(alloc, card_with_key());
    arm_with(&mut port)?;
    let result = request(READ_RESULT).write();
    let told = add_answers(report, &mut port, &result);
    port.disarm();
    let same = exchange_with(&mut port, &result) == Ok(told);
    report.line("rpmb_card: is it the same with no arms", &same);
    let same = port.into_card().answer(&result) == told;
    report.line("rpmb_card: is it the same from the card itself", &same);
    Ok(())
}

fn host_of(alloc: Global) -> Host<SimPort> {
    Host::new(SimPort::new(alloc, card_with_key()), SecretKey::new(KEY))
}

fn counter_of(host: &mut Host<SimPort>) -> Result<u32, HostFault> {
    host.read_counter(&[1; 16])
}

/// Whether each byte of a block has this value.
fn is_block(host: &mut Host<SimPort>, address: u16, value: u8) -> Result<bool, HostFault> {
    let block = host.read_block(address, &[1; 16])?;
    Ok(block == [value; 256])
}

fn write_block(host: &mut Host<SimPort>, address: u16, value: u8) -> Result<u32, HostFault> {
    host.write_block(address, 0, &[value; 256])
}

fn add_host(report: &mut Report, host: &mut Host<SimPort>) {
    report.line("rpmb_host: counter", &counter_of(host));
    report.line(
        "rpmb_host: write of block 255",
        &write_block(host, 255, 0xb0),
    );
    report.line("rpmb_host: counter", &counter_of(host));
    report.line(
        "rpmb_host: is block 255 what was written",
        &is_block(host, 255, 0xb0),
    );
    report.line("rpmb_host: is block 0 zero", &is_block(host, 0, 0));
    report.line("rpmb_host: is block 256 zero", &is_block(host, 256, 0));
    report.line(
        "rpmb_host: a write with a counter that is past",
        &write_block(host, 0, 0),
    );
}

fn add_armed(report: &mut Report, host: &mut Host<SimPort>) -> Result<(), NoMemory> {
    host.fail_call(1)?;
    report.line("rpmb_host: a write that fails", &write_block(host, 0, 5));
    host.lose_call(2)?;
    host.stop_after(3);
    report.line(
        "rpmb_host: a write whose answer is lost",
        &write_block(host, 0, 5),
    );
    Ok(())
}

/// Adds the calls of `rpmb_frame`, `rpmb_card` and `rpmb_host`.
pub fn add_calls(report: &mut Report, alloc: Global) -> Result<(), NoMemory> {
    add_frame(report);
    add_port(report, alloc)?;
    add_host(report, &mut host_of(alloc));
    add_armed(report, &mut host_of(alloc))
}
