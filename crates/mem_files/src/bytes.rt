// Changes of bytes in place.
ghost use Rattle.std.specs.Prelude.{◌≡◌, ◌⊎◌, ℕ, List, ◌+◌, ◌-◌, ◌<◌, ◌≤◌, ◌^◌, length, take, slice_index, false, true, OnOk, OnErr, not, ◌==◌};
ghost use Rattle.std.specs.List.{list_any};
ghost use Rattle.disk_model.specs.Bytes.{overlaid, after_mask, after_write, after_resize};
ghost use Rattle.tee_ports.specs.Files.{ReadsAt};
ghost use Rattle.disk_model.specs.Images.{in_span, in_spans};
ghost use Rattle.disk_model.specs.State.{spans_of};
ghost use Rattle.mem_files.specs.Held.{DifferIn, settled_bytes};

use disk_model::{Change, Span};
use tee_ports::NoMemory;

/// Copies the bytes from the place `at` on into the front of `into`, and says how many there were.
pub fn copy_from(bytes: &[u8], at: usize, into: &mut [u8]) -> usize
    ensures { ReadsAt bytes.now at into.old result into.new }
{
    if at >= bytes.len() {
        return 0;
    }
    let rest = &bytes[at..];
    let count = rest.len().min(into.len());
    into[..count].copy_from_slice(&rest[..count]);
    count
}

/// Writes the bytes over what stands from the place `at` on, and past the end, with zero between.
pub fn write_over(bytes: &mut Vec<u8>, at: usize, from: &[u8]) -> Result<(), NoMemory>
    requires { at + length from.now < 2 ^ 32 }
    ensures ok { OnOk result (bytes.new.items ≡ after_write bytes.old.items at from.now) }
    ensures err { OnErr result (bytes.new.items ≡ bytes.old.items) }
{
    let end = at + from.len();
    if end <= bytes.len() {
        bytes[at..end].copy_from_slice(from);
        return Ok(());
    }
    bytes.reserve(end - bytes.len())?;
    bytes.resize(at, 0).unwrap();
    bytes.extend_from_slice(from)
}

/// Sets the number of bytes, with zero behind the old end.
pub fn resize(bytes: &mut Vec<u8>, size: usize) -> Result<(), NoMemory>
    ensures ok { OnOk result (bytes.new.items ≡ after_resize bytes.old.items size) }
    ensures err { OnErr result (bytes.new.items ≡ bytes.old.items) }
{
    bytes.resize(size, 0)
}

/// Brings the settled bytes, where they are kept apart, up to those that a read gives. They may differ in these changes alone.
pub fn settle_changes(
    settled: &mut Option<Vec<u8>>,
    bytes: &[u8],
    changes: &[Change],
) -> Result<(), NoMemory>
    requires { DifferIn (spans_of changes.now) (settled_bytes settled.now bytes.now) bytes.now }
    ensures ok { OnOk result (settled_bytes settled.new bytes.now ≡ bytes.now) }
    ensures err { OnErr result (settled_bytes settled.new bytes.now ≡ settled_bytes settled.old bytes.now) }
{
    if let Some(settled) = settled {
        bring_up(settled, bytes, changes)?;
    }
    Ok(())
}

/// The same, of settled bytes that are kept apart.
pub fn bring_up(settled: &mut Vec<u8>, bytes: &[u8], changes: &[Change]) -> Result<(), NoMemory>
    requires { DifferIn (spans_of changes.now) settled.now.items bytes.now }
    ensures ok { OnOk result (settled.new.items ≡ bytes.now) }
    ensures err { OnErr result (settled.new.items ≡ settled.old.items) }
{
    resize(settled, bytes.len())?;
    copy_changes(settled, bytes, changes);
    Ok(())
}

// Copies the bytes in the spans of the changes.
fn copy_changes(settled: &mut [u8], bytes: &[u8], changes: &[Change])
    requires { length settled.now ≡ length bytes.now }
    ensures inside { (p : ℕ) → p < length bytes.now → in_spans (spans_of changes.now) p ≡ true →
        slice_index settled.new p ≡ slice_index bytes.now p }
    ensures outside { (p : ℕ) → in_spans (spans_of changes.now) p ≡ false →
        slice_index settled.new p ≡ slice_index settled.old p }
{
    for change in changes {
        copy_span(settled, bytes, change.span);
    }
}

// Copies the bytes in the span.
fn copy_span(settled: &mut [u8], bytes: &[u8], span: Span)
    requires { length settled.now ≡ length bytes.now }
    ensures inside { (p : ℕ) → p < length bytes.now → in_span span p ≡ true →
        slice_index settled.new p ≡ slice_index bytes.now p }
    ensures outside { (p : ℕ) → in_span span p ≡ false → slice_index settled.new p ≡ slice_index settled.old p }
{
    let end = bytes.len() as u64;
    let from = span.at.min(end);
    let upto = span.at.saturating_add(span.length).min(end);
    copy_range(settled, bytes, from as usize, upto as usize);
}

/// Copies the bytes from one place up to another.
pub fn copy_range(settled: &mut [u8], bytes: &[u8], from: usize, upto: usize)
    requires { (from ≤ upto) × (upto ≤ length bytes.now) × (length settled.now ≡ length bytes.now) }
    ensures inside { (p : ℕ) → from ≤ p → p < upto → slice_index settled.new p ≡ slice_index bytes.now p }
    ensures outside { (p : ℕ) → (p < from) ⊎ (upto ≤ p) → slice_index settled.new p ≡ slice_index settled.old p }
{
    settled[from..upto].copy_from_slice(&bytes[from..upto]);
}

/// Whether one of the first `room` bytes of the mask is not zero.
pub fn has_bits(mask: &[u8], room: usize) -> bool
    ensures { result ≡ list_any (λ bits. not (bits == 0)) (take room mask.now) }
{
    mask.iter().take(room).any(|bits| *bits != 0)
}

/// Lays the mask by exclusive or over the bytes from the place `at` on. What of it lies past the end changes nothing.
pub fn lay_over(bytes: &mut [u8], at: u64, mask: &[u8])
    ensures { bytes.new ≡ after_mask bytes.old at mask.now }
{
    if at < bytes.len() as u64 {
        overlay(&mut bytes[at as usize..], mask);
    }
}

/// The same for settled bytes, where they are kept apart.
pub fn lay_over_settled(settled: &mut Option<Vec<u8>>, at: u64, mask: &[u8])
    ensures { (bytes : List ℕ) → settled_bytes settled.new (after_mask bytes at mask.now)
        ≡ after_mask (settled_bytes settled.old bytes) at mask.now }
{
    if let Some(settled) = settled {
        lay_over(settled, at, mask);
    }
}

// Lays the mask over the first bytes.
fn overlay(bytes: &mut [u8], mask: &[u8])
    ensures { bytes.new ≡ overlaid bytes.old mask.now }
{
    let count = bytes.len().min(mask.len());
    for i in 0..count {
        bytes[i] ^= mask[i];
    }
}
