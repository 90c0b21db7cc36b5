// Which image a simulated crash leaves.
//
// The bytes of a file and its settled bytes differ in the changes since its last sync alone, so no more of them is read or written.
ghost use Rattle.std.specs.Prelude.{◌≡◌, ℕ, List, ◌+◌, ◌-◌, ◌*◌, ◌/◌, ◌<◌, ◌≤◌, ◌^◌, ◌++◌, ◌==◌, ◌&&◌, length, take, drop, true, nat_lt, nat_le, if◌then◌else◌, OnOk, OnErr};
ghost use Rattle.disk_model.specs.Bytes.{AreBytes};
ghost use Rattle.disk_model.specs.Images.{in_span, in_spans, sector};
ghost use Rattle.disk_model.specs.Sectors.{spoils};
ghost use Rattle.disk_model.specs.State.{spans_of};
ghost use Rattle.mem_files.specs.Crash.{crash_of, crash_key, coin, is_hit, unit_length, mixture, noise, noise_over};
ghost use Rattle.mem_files.specs.Held.{DifferIn, settled_bytes};
ghost use Rattle.mem_files.specs.Choices.{Chooses, evened, is_spoiling, united};

use crate::bytes::{bring_up, copy_range};
use disk_model::{Change, Span};
use tee_ports::NoMemory;

// 2^64 divided by the golden ratio, whose multiples lie evenly.
const STRIDE: u64 = 0x9e37_79b9_7f4a_7c15;

// Where the coins of sectors begin, behind those of units.
const SECTOR_COINS: u64 = 1 << 32;

// The places of a sector.
const SECTOR: u64 = 512;

/// Makes of the bytes the image that a crash leaves, and of the settled bytes too, where they are kept apart. The two may differ
/// in these changes alone.
pub fn leave_image(
    settled: &mut Option<Vec<u8>>,
    bytes: &mut Vec<u8>,
    changes: &[Change],
    seed: u64,
    file: u16,
) -> Result<(), NoMemory>
    requires { DifferIn (spans_of changes.now) (settled_bytes settled.now bytes.now.items) bytes.now.items }
    ensures ok { OnOk result (bytes.new.items ≡ crash_of (settled_bytes settled.old bytes.old.items) bytes.old.items
        (spans_of changes.now) seed file) }
    ensures same { OnOk result (settled_bytes settled.new bytes.new.items ≡ bytes.new.items) }
    ensures are_bytes { AreBytes bytes.new.items }
    ensures err { OnErr result ((bytes.new.items ≡ bytes.old.items)
        × (settled_bytes settled.new bytes.new.items ≡ settled_bytes settled.old bytes.old.items)) }
{
    let key = key_of(seed, file);
    unite_settled(settled, bytes, changes, key, seed)?;
    spoil_both(settled, bytes, changes, key, seed);
    Ok(())
}

// Makes of both the bytes that stand before sectors are spoiled.
fn unite_settled(
    settled: &mut Option<Vec<u8>>,
    bytes: &mut Vec<u8>,
    changes: &[Change],
    key: u64,
    seed: u64,
) -> Result<(), NoMemory>
    requires { DifferIn (spans_of changes.now) (settled_bytes settled.now bytes.now.items) bytes.now.items }
    ensures ok { OnOk result (bytes.new.items ≡ united (settled_bytes settled.old bytes.old.items) bytes.old.items key seed) }
    ensures same { OnOk result (settled_bytes settled.new bytes.new.items ≡ bytes.new.items) }
    ensures err { OnErr result ((bytes.new.items ≡ bytes.old.items)
        × (settled_bytes settled.new bytes.new.items ≡ settled_bytes settled.old bytes.old.items)) }
{
    match settled {
        Some(settled) => unite(settled, bytes, changes, key, seed),
        None => Ok(()),
    }
}

fn unite(
    settled: &mut Vec<u8>,
    bytes: &mut Vec<u8>,
    changes: &[Change],
    key: u64,
    seed: u64,
) -> Result<(), NoMemory>
    requires { DifferIn (spans_of changes.now) settled.now.items bytes.now.items }
    ensures ok { OnOk result (bytes.new.items ≡ united settled.old.items bytes.old.items key seed) }
    ensures same { OnOk result (settled.new.items ≡ bytes.new.items) }
    ensures err { OnErr result ((bytes.new.items ≡ bytes.old.items) × (settled.new.items ≡ settled.old.items)) }
{
    match seed {
        0 => bring_up(bytes, settled, changes),
        1 => bring_up(settled, bytes, changes),
        _ => mix(settled, bytes, changes, key, unit_of(seed)),
    }
}

// At each place the byte of one of the two, and the end of one of them.
fn mix(
    settled: &mut Vec<u8>,
    bytes: &mut Vec<u8>,
    changes: &[Change],
    key: u64,
    unit: usize,
) -> Result<(), NoMemory>
    requires differ { DifferIn (spans_of changes.now) settled.now.items bytes.now.items }
    requires some { 0 < unit }
    requires few { unit ≤ 4096 }
    ensures ok { OnOk result (bytes.new.items ≡
        mixture (λ place. coin key (place / unit)) (coin key (2 ^ 64 - 1)) 0 settled.old.items bytes.old.items) }
    ensures same { OnOk result (settled.new.items ≡ bytes.new.items) }
    ensures err { OnErr result ((bytes.new.items ≡ bytes.old.items) × (settled.new.items ≡ settled.old.items)) }
{
    even_out(settled, bytes, toss(key, u64::MAX))?;
    choose(settled, bytes, changes, key, unit);
    Ok(())
}

// Gives the shorter one the end of the longer one, or neither one that.
fn even_out(settled: &mut Vec<u8>, bytes: &mut Vec<u8>, is_long: bool) -> Result<(), NoMemory>
    ensures settled { OnOk result (settled.new.items ≡ evened is_long settled.old.items bytes.old.items) }
    ensures bytes { OnOk result (bytes.new.items ≡ evened is_long bytes.old.items settled.old.items) }
    ensures err { OnErr result ((bytes.new.items ≡ bytes.old.items) × (settled.new.items ≡ settled.old.items)) }
{
    if is_long {
        return lengthen(settled, bytes);
    }
    let end = settled.len();
    settled.truncate(bytes.len());
    bytes.truncate(end);
    Ok(())
}

// Gives the shorter one the end of the longer one.
fn lengthen(settled: &mut Vec<u8>, bytes: &mut Vec<u8>) -> Result<(), NoMemory>
    ensures settled { OnOk result (settled.new.items ≡ settled.old.items ++ drop (length settled.old.items) bytes.old.items) }
    ensures bytes { OnOk result (bytes.new.items ≡ bytes.old.items ++ drop (length bytes.old.items) settled.old.items) }
    ensures err { OnErr result ((bytes.new.items ≡ bytes.old.items) × (settled.new.items ≡ settled.old.items)) }
{
    let end = bytes.len();
    if settled.len() < end {
        settled.extend_from_slice(&bytes[settled.len()..])
    } else {
        bytes.extend_from_slice(&settled[end..])
    }
}

// Gives both the byte of one of them at each place of the changes.
fn choose(settled: &mut [u8], bytes: &mut [u8], changes: &[Change], key: u64, unit: usize)
    requires same { length settled.now ≡ length bytes.now }
    requires some { 0 < unit }
    requires few { unit ≤ 4096 }
    ensures { Chooses (in_spans (spans_of changes.now)) (λ place. coin key (place / unit))
        settled.old bytes.old settled.new bytes.new }
{
    for change in changes {
        choose_span(settled, bytes, change.span, key, unit);
    }
}

fn choose_span(settled: &mut [u8], bytes: &mut [u8], span: Span, key: u64, unit: usize)
    requires same { length settled.now ≡ length bytes.now }
    requires some { 0 < unit }
    requires few { unit ≤ 4096 }
    ensures { Chooses (in_span span) (λ place. coin key (place / unit)) settled.old bytes.old settled.new bytes.new }
{
    let end = bytes.len() as u64;
    let from = span.at.min(end);
    let upto = span.at.saturating_add(span.length).min(end);
    choose_range(settled, bytes, from as usize, upto as usize, key, unit);
}

// The same from one place up to another. The coin is tossed for each unit.
fn choose_range(
    settled: &mut [u8],
    bytes: &mut [u8],
    from: usize,
    upto: usize,
    key: u64,
    unit: usize,
)
    requires same { length settled.now ≡ length bytes.now }
    requires order { from ≤ upto }
    requires within { upto ≤ length bytes.now }
    requires some { 0 < unit }
    requires few { unit ≤ 4096 }
    ensures { Chooses (λ place. nat_le from place && nat_lt place upto) (λ place. coin key (place / unit))
        settled.old bytes.old settled.new bytes.new }
{
    let mut at = from;
    while at < upto {
        let end = upto.min(at - at % unit + unit);
        choose_part(settled, bytes, at, end, toss(key, (at / unit) as u64));
        at = end;
    }
}

// Gives both the bytes of one of them from one place up to another.
fn choose_part(settled: &mut [u8], bytes: &mut [u8], from: usize, upto: usize, is_newer: bool)
    requires same { length settled.now ≡ length bytes.now }
    requires order { from ≤ upto }
    requires within { upto ≤ length bytes.now }
    ensures { Chooses (λ place. nat_le from place && nat_lt place upto) (λ place. is_newer)
        settled.old bytes.old settled.new bytes.new }
{
    if is_newer {
        copy_range(settled, bytes, from, upto);
    } else {
        copy_range(bytes, settled, from, upto);
    }
}

// Spoils the same sectors of both, if the seed is one that spoils some.
fn spoil_both(
    settled: &mut Option<Vec<u8>>,
    bytes: &mut Vec<u8>,
    changes: &[Change],
    key: u64,
    seed: u64,
)
    ensures spoiled { bytes.new.items ≡ (if is_spoiling seed
        then noise_over (is_hit (spans_of changes.now) key) key 0 bytes.old.items else bytes.old.items) }
    ensures same { settled_bytes settled.old bytes.old.items ≡ bytes.old.items →
        settled_bytes settled.new bytes.new.items ≡ bytes.new.items }
{
    if seed > 1 && seed % 2 == 1 {
        spoil(bytes, changes, key);
        spoil_settled(settled, changes, key);
    }
}

fn spoil_settled(settled: &mut Option<Vec<u8>>, changes: &[Change], key: u64)
    ensures { (bytes : List ℕ) → settled_bytes settled.old bytes ≡ bytes →
        let spoiled = noise_over (is_hit (spans_of changes.now) key) key 0 bytes in settled_bytes settled.new spoiled ≡ spoiled }
{
    if let Some(settled) = settled {
        spoil(settled, changes, key);
    }
}

// Spoils some of the sectors that meet a change.
fn spoil(image: &mut [u8], changes: &[Change], key: u64)
    ensures { image.new ≡ noise_over (is_hit (spans_of changes.now) key) key 0 image.old }
{
    for change in changes {
        spoil_span(image, change.span, key);
    }
}

// Spoils some of the sectors that meet the span.
fn spoil_span(image: &mut [u8], span: Span, key: u64)
    ensures { image.new ≡
        noise_over (λ place. coin key (2 ^ 32 + sector place) && spoils span place) key 0 image.old }
{
    if span.length > 0 {
        let upto = span.at.saturating_add(span.length).min(image.len() as u64);
        spoil_sectors(image, span.at / SECTOR, (upto + SECTOR - 1) / SECTOR, key);
    }
}

// Spoils some of the sectors from one up to another.
fn spoil_sectors(image: &mut [u8], from: u64, upto: u64, key: u64)
    requires { 512 * upto < length image.now + 512 }
    ensures { image.new ≡ noise_over (λ place. coin key (2 ^ 32 + sector place)
        && (nat_le from (sector place) && nat_lt (sector place) upto)) key 0 image.old }
{
    for number in from..upto {
        spoil_sector(image, number, key);
    }
}

// Spoils the sector of that number, if its coin falls so.
fn spoil_sector(image: &mut [u8], number: u64, key: u64)
    requires { 512 * number < length image.now }
    ensures { image.new ≡ noise_over (λ place. coin key (2 ^ 32 + sector place) && sector place == number) key 0 image.old }
{
    if toss(key, SECTOR_COINS + number) {
        let from = (SECTOR * number) as usize;
        let upto = image.len().min(from + SECTOR as usize);
        fill_noise(image, from, upto, key);
    }
}

// Bytes that nobody wrote, from one place up to another.
fn fill_noise(image: &mut [u8], from: usize, upto: usize, key: u64)
    requires order { from ≤ upto }
    requires within { upto ≤ length image.now }
    ensures { image.new ≡ noise_over (λ place. nat_le from place && nat_lt place upto) key 0 image.old }
{
    for i in from..upto {
        image[i] = noise(key, i as u64);
    }
}

// A byte that nobody wrote.
fn noise(key: u64, place: u64) -> u8
    ensures { result ≡ noise key place }
{
    (key.wrapping_add(place) % 256) as u8
}

// How many bytes are chosen together.
fn unit_of(seed: u64) -> usize
    ensures value { result ≡ unit_length seed }
    ensures some { 0 < result }
    ensures few { result ≤ 4096 }
{
    match seed % 4 {
        0 => 1,
        1 => 16,
        2 => 256,
        _ => 4096,
    }
}

// A number that stands for a seed and a file's number.
fn key_of(seed: u64, file: u16) -> u64
    ensures { result ≡ crash_key seed file }
{
    seed.wrapping_mul(STRIDE)
        .wrapping_add(u64::from(file))
        .wrapping_mul(STRIDE)
}

// A coin that is tossed for each unit.
fn toss(key: u64, unit: u64) -> bool
    ensures { result ≡ coin key unit }
{
    let word = key.wrapping_add(unit).wrapping_mul(STRIDE);
    (word.wrapping_mul(word) >> 32) % 2 == 1
}
