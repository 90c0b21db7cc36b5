// Sources, sinks and entropy: what they move, and where they fail.

ghost use Rattle.std.specs.Prelude.{◌≤◌, IfOk};

use crate::report::Report;
use seed_words::SeedEntropy;
use std::alloc::Global;
use std::io;
use std::io::{ErrorKind, Read, Write};
use tee_ports::{
    Entropy, Failed, Image, ListEntropy, MemSink, MemSource, NoMemory, Sink, Source, StdSink,
    StdSource,
};

fn next_of<S: Source>(source: &mut S, into: &mut [u8]) -> Result<usize, Failed> {
    source.next(into)
}

fn put_to<S: Sink>(sink: &mut S, from: &[u8]) -> Result<usize, Failed> {
    sink.put(from)
}

/// Reads on, and adds how many bytes came and what then stands in the buffer.
fn add_next<S: Source>(report: &mut Report, call: &str, source: &mut S, into: &mut [u8]) {
    let count = next_of(source, into);
    report.add(&format_args!("tee_ports: {call} -> {count:?}, {into:?}"));
}

fn add_mem_source(report: &mut Report, source: &mut MemSource) {
    let mut into = [0; 4];
    for _ in 0..5u32 {
        add_next(report, "source of 6 bytes", source, &mut into);
    }
}

fn add_mem_sink(report: &mut Report, sink: &mut MemSink) {
    for text in ["abc", "abc", "def", "ef"] {
        let count = put_to(sink, text.as_bytes());
        report.add(&format_args!("tee_ports: sink for 4, put {text} -> {count:?}"));
    }
    report.hex("tee_ports: sink for 4", sink.bytes());
}

fn add_full_sink(report: &mut Report, sink: &mut MemSink) {
    report.line("tee_ports: sink for none, put a", &put_to(sink, b"a"));
    report.hex("tee_ports: sink for none", sink.bytes());
}

fn draw_of<E: Entropy>(entropy: &mut E) -> Result<[u8; 16], Failed> {
    let mut into = [9; 16];
    entropy.draw(&mut into)?;
    Ok(into)
}

fn stream_of<E: Entropy>(entropy: &E, number: u16) -> E {
    entropy.stream(u64::from(number))
}

fn add_list(report: &mut Report) {
    let mut failing = [0; 16];
    failing[15] = 2;
    let mut entropy = ListEntropy::new(failing);
    report.line("tee_ports: draw for tests", &draw_of(&mut entropy));
    report.line("tee_ports: draw for tests", &draw_of(&mut entropy));
    let mut stream = stream_of(&entropy, 258);
    report.line("tee_ports: draw of stream 258", &draw_of(&mut stream));
    report.line("tee_ports: draw for tests", &draw_of(&mut entropy));
}

fn add_image(report: &mut Report, image: Image) {
    report.line("tee_ports: bytes of an image", &image.bytes());
    report.line("tee_ports: its bytes taken out", &image.into_vec());
}

/// Reads and writes one byte a call, in this order: one is interrupted, one passes, one fails, one passes, and none
/// after that moves a byte.
#[derive(Drop)]
struct Flaky {
    calls: u8,
}

fn one_byte(calls: &mut u8) -> io::Result<usize>
    ensures { IfOk result (λ n. n ≤ 1) }
{
    *calls = calls.saturating_add(1);
    match *calls {
        1 => Err(io::Error::from(ErrorKind::Interrupted)),
        3 => Err(io::Error::from(ErrorKind::BrokenPipe)),
        2 | 4 => Ok(1),
        _ => Ok(0),
    }
}

impl Read for Flaky {
    fn read(&mut self, buf: &mut [u8]) -> io::Result<usize> {
        let count = one_byte(&mut self.calls)?.min(buf.len());
        for place in &mut buf[..count] {
            *place = self.calls;
        }
        Ok(count)
    }
}

impl Write for Flaky {
    fn write(&mut self, buf: &[u8]) -> io::Result<usize> {
        Ok(one_byte(&mut self.calls)?.min(buf.len()))
    }

    // Fails behind the last byte.
    fn flush(&mut self) -> io::Result<()> {
        if self.calls == 4 {
            return Err(io::Error::from(ErrorKind::StorageFull));
        }
        Ok(())
    }
}

fn add_flaky(report: &mut Report) {
    let mut source = StdSource::new(Flaky { calls: 0 });
    let mut into = [0; 2];
    for _ in 0..4u32 {
        add_next(report, "flaky reader", &mut source, &mut into);
    }
    let mut sink = StdSink::new(Flaky { calls: 0 });
    for text in ["ab", "b", "b", "b"] {
        let count = put_to(&mut sink, text.as_bytes());
        report.add(&format_args!("tee_ports: flaky writer, put {text} -> {count:?}"));
    }
}

/// What a source gives of the standard input: its line, and then nothing.
fn add_input(report: &mut Report, rt: &impl Input) {
    let mut source = StdSource::new(rt.reader());
    let mut into = [0; 6];
    for _ in 0..2u32 {
        add_next(report, "standard input", &mut source, &mut into);
    }
}

/// What a sink takes of the standard output: nothing, and a line.
pub fn add_standard(report: &mut Report, rt: &impl Print) {
    let mut sink = StdSink::new(io::writer(rt));
    let none = put_to(&mut sink, b"");
    let some = put_to(&mut sink, b"tee_ports: a line\n");
    report.line("tee_ports: standard output, put nothing", &none);
    report.line("tee_ports: standard output, put a line", &some);
}

// The first block of the key stream under a zero key, with a zero nonce.
fn add_zero_seed(report: &mut Report) {
    let mut zero = SeedEntropy::from_seed(&[0; 32]);
    report.line("seed_words: draw of the zero seed", &draw_of(&mut zero));
    report.line("seed_words: draw of the zero seed", &draw_of(&mut zero));
}

fn add_streams(report: &mut Report) {
    let mut entropy = SeedEntropy::from_seed(&[7; 32]);
    let first = draw_of(&mut entropy);
    let mut stream = stream_of(&entropy, 0);
    let mut again = stream_of(&stream, 0);
    let from_stream = draw_of(&mut stream);
    report.line(
        "seed_words: is stream 0 the seed's own",
        &(from_stream == first),
    );
    let same = draw_of(&mut again) == from_stream;
    report.line("seed_words: is its stream 0 the same", &same);
}

fn add_memory(report: &mut Report, alloc: Global) -> Result<(), NoMemory> {
    let bytes = [1, 2, 3, 4, 5, 6];
    add_mem_source(report, &mut MemSource::new(alloc, &bytes, &[2, 4])?);
    add_mem_sink(report, &mut MemSink::new(alloc, 4, &[1])?);
    add_full_sink(report, &mut MemSink::new(alloc, 0, &[])?);
    add_list(report);
    add_image(report, Image::from_vec(vec![in alloc; 1, 2, 3]?));
    Ok(())
}

/// Adds the calls of `tee_ports` in memory and over readers and writers.
pub fn add_calls(report: &mut Report, rt: &impl Input, alloc: Global) -> Result<(), NoMemory> {
    add_memory(report, alloc)?;
    add_flaky(report);
    add_input(report, rt);
    Ok(())
}

/// Adds the calls of `seed_words`.
pub fn add_seeds(report: &mut Report) {
    add_zero_seed(report);
    add_streams(report);
}
