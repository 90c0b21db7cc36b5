//! Measures the ciphers, the keys and commits in trees. With no argument it does a small fixed work of each kind, and prints a digest of
//! what came out of a cipher, how many calls of the file and written bytes a commit takes, and how long a certificate is: these never vary. With the argument
//! `time` it also reports on standard error how many million bytes a second each cipher took in, and how long a commit took.
#![tactic(auto)]

use std::alloc::Global;
use std::env;
use std::time::Instant;

mod certificates;
mod ciphers;
mod reads;
mod secrets;
mod trees;

use certificates::Certified;
use ciphers::{BYTES_A_ROUND, Work};
use reads::serve_reads;
use trees::{TreeBench, commits};

/// How many times a cipher's work is done for its digest, and for its time.
const DIGEST_ROUNDS: u32 = 16;

const TIMED_ROUNDS: u32 = 8192;

/// How many blocks of data the objects have.
const SIZES: [u8; 3] = [1, 16, 255];

/// How many commits are counted, and how many are timed.
const COUNTED_COMMITS: u32 = 2;

const TIMED_COMMITS: u32 = 256;

/// How many short reads are served, and how many for their time.
const COUNTED_READS: u32 = 16;

const TIMED_READS: u32 = 48_000;

/// How many times a certificate is checked for its time.
const CHECKS: u32 = 16;

/// Prints the digest of a cipher's work.
fn print_digest(rt: &impl Print, alloc: Global, work: Work) -> anyhow::Result<()> {
    let digest = hex::encode(alloc, work.digest_after(DIGEST_ROUNDS))?;
    println!(rt; "{} {digest}", work.name())?;
    Ok(())
}

/// Reports how fast a cipher is.
fn time_work(rt: &HostRuntime, work: Work) -> anyhow::Result<()> {
    let start = Instant::now(rt)?;
    let digest = hex::encode(rt.alloc(), work.digest_after(TIMED_ROUNDS))?;
    let micros = start.elapsed(rt)?.as_micros().max(1);
    let bytes = u128::from(TIMED_ROUNDS) * u128::from(BYTES_A_ROUND);
    eprintln!(rt; "{} {} MB/s {digest}", work.name(), bytes / micros)?;
    Ok(())
}

/// Prints a digest of the work on a hundred secrets.
fn print_secrets(rt: &impl Print, alloc: Global) -> anyhow::Result<()> {
    let digest = hex::encode(alloc, &secrets::digest())?;
    println!(rt; "a hundred secrets {digest}")?;
    Ok(())
}

/// Prints what a commit takes.
fn print_commit(rt: &impl Print, alloc: Global, blocks: u8) -> anyhow::Result<()> {
    let mut bench = TreeBench::new(alloc, blocks)?;
    commits(alloc, &mut bench.object, COUNTED_COMMITS)?;
    let (calls, bytes) = bench.taken();
    let rounds = u64::from(COUNTED_COMMITS);
    let (calls, bytes) = (calls / rounds, bytes / rounds);
    println!(rt; "{blocks} blocks of data: {calls} calls, {bytes} bytes written")?;
    Ok(())
}

/// Reports how long a commit takes.
fn time_commits(rt: &HostRuntime, blocks: u8) -> anyhow::Result<()> {
    let mut bench = TreeBench::new(rt.alloc(), blocks)?;
    let start = Instant::now(rt)?;
    commits(rt.alloc(), &mut bench.object, TIMED_COMMITS)?;
    let nanos = start.elapsed(rt)?.as_nanos() / u128::from(TIMED_COMMITS);
    eprintln!(rt; "{blocks} blocks of data: {nanos} ns")?;
    Ok(())
}

/// Prints what a certificate is of.
fn print_certificate(rt: &impl Print, alloc: Global) -> anyhow::Result<()> {
    let certified = Certified::new(alloc)?;
    let length = certified.len();
    let data = certified.check(alloc)?;
    println!(rt; "certificate of {length} bytes: {data} bytes of data")?;
    Ok(())
}

/// Reports how long a certificate takes to be checked, and its object to be loaded and read whole.
fn time_certificate(rt: &HostRuntime) -> anyhow::Result<()> {
    let certified = Certified::new(rt.alloc())?;
    let start = Instant::now(rt)?;
    for _ in 0..CHECKS {
        certified.check(rt.alloc())?;
    }
    let checked = start.elapsed(rt)?.as_micros() / u128::from(CHECKS);
    let start = Instant::now(rt)?;
    certified.read(rt.alloc())?;
    let read = start.elapsed(rt)?.as_micros();
    eprintln!(rt; "certificate: {checked} us, its object read: {read} us")?;
    Ok(())
}

/// Prints how many events short reads made.
fn print_reads(rt: &impl Print, alloc: Global) -> anyhow::Result<()> {
    let events = serve_reads(alloc, COUNTED_READS)?;
    println!(rt; "{COUNTED_READS} short reads: {events} events")?;
    Ok(())
}

/// Reports how long a short read takes with the seek before it, on one thread.
fn time_reads(rt: &HostRuntime) -> anyhow::Result<()> {
    let start = Instant::now(rt)?;
    serve_reads(rt.alloc(), TIMED_READS)?;
    let nanos = start.elapsed(rt)?.as_nanos() / u128::from(TIMED_READS);
    eprintln!(rt; "short read: {nanos} ns")?;
    Ok(())
}

/// Whether times are asked for: by the argument `time`, and no other is taken.
fn is_timed(rt: &HostRuntime) -> anyhow::Result<bool> {
    let mut timed = false;
    for argument in env::args(rt)?.skip(1) {
        if argument.as_str() != "time" {
            anyhow::bail!("usage: store_bench [time]");
        }
        timed = true;
    }
    Ok(timed)
}

fn main(rt: HostRuntime) -> anyhow::Result<()> {
    let timed = is_timed(&rt)?;
    for work in Work::ALL {
        print_digest(&rt, rt.alloc(), work)?;
        if timed {
            time_work(&rt, work)?;
        }
    }
    print_secrets(&rt, rt.alloc())?;
    for blocks in SIZES {
        print_commit(&rt, rt.alloc(), blocks)?;
        if timed {
            time_commits(&rt, blocks)?;
        }
    }
    print_reads(&rt, rt.alloc())?;
    print_certificate(&rt, rt.alloc())?;
    if timed {
        time_reads(&rt)?;
        time_certificate(&rt)?;
    }
    Ok(())
}
