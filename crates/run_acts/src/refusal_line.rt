//! Writing why a store was not mounted.

ghost use Rattle.std.specs.Prelude.{◌≡◌, ◌++◌, [], length, take, is_some, unwrap_or, codes, decimal, OnErr, OnOk};
ghost use Rattle.hex.specs.Hex.{encode_lower};
ghost use Rattle.run_acts.specs.Lines.{computed_text, directory_text, refusal_line, tree_text, why_text};

use crash_core::DirFault;
use htree_file::{ComputedTag, TreeFault};
use script_text::{put, put_word_hex, put_word_number};
use store_commit::MountFault;
use tee_types::NoMemory;

/// Appends a word, and two numbers behind it.
fn put_numbers(out: &mut Vec<u8>, word: &[u8], first: u64, second: u64) -> Result<(), NoMemory>
    ensures ok { OnOk result (out.new.items ≡ out.old.items ++ word.now ++ decimal first ++ codes " " ++ decimal second) }
    ensures kept { take (length out.old.items) out.new.items ≡ out.old.items }
{
    put_word_number(out, word, first)?;
    put_word_number(out, b" ", second)
}

/// Appends a word, and behind it a number and two byte strings in hex.
fn put_pair(
    out: &mut Vec<u8>,
    word: &[u8],
    number: u64,
    want: &[u8],
    found: &[u8],
) -> Result<(), NoMemory>
    ensures ok { OnOk result (out.new.items ≡ out.old.items ++ word.now ++ decimal number ++ codes " " ++ encode_lower want.now ++ codes " " ++ encode_lower found.now) }
    ensures kept { take (length out.old.items) out.new.items ≡ out.old.items }
{
    put_word_number(out, word, number)?;
    put_word_hex(out, b" ", want)?;
    put_word_hex(out, b" ", found)
}

/// Appends a computed tag, where it was not taken out.
fn put_computed(out: &mut Vec<u8>, tag: &ComputedTag) -> Result<(), NoMemory>
    ensures ok { OnOk result (out.new.items ≡ out.old.items ++ computed_text tag.now) }
    ensures kept { take (length out.old.items) out.new.items ≡ out.old.items }
{
    match tag.of_simulated_store() {
        Some(bytes) => put_word_hex(out, b" ", &bytes),
        None => Ok(()),
    }
}

/// Appends that a block has another tag than its node.
fn put_tag(out: &mut Vec<u8>, block: u64, want: &[u8], found: &ComputedTag) -> Result<(), NoMemory>
    ensures ok { OnOk result (out.new.items ≡ out.old.items ++ codes "tag " ++ decimal block ++ codes " " ++ encode_lower want.now ++ computed_text found.now) }
    ensures kept { take (length out.old.items) out.new.items ≡ out.old.items }
{
    put_word_number(out, b"tag ", block)?;
    put_word_hex(out, b" ", want)?;
    put_computed(out, found)
}

/// Appends why a tree does not load, where that is told.
fn put_tree(out: &mut Vec<u8>, fault: &TreeFault) -> Result<(), NoMemory>
    ensures ok { OnOk result (out.new.items ≡ out.old.items ++ unwrap_or (tree_text fault.now) []) }
    ensures kept { take (length out.old.items) out.new.items ≡ out.old.items }
{
    match fault {
        TreeFault::BadHead { length, greatest } => {
            put_numbers(out, b"head ", *length, *greatest as u64)
        }
        TreeFault::Short { end, need } => put_numbers(out, b"short ", *end, *need),
        TreeFault::Damaged { node, want, found } => {
            put_pair(out, b"hash ", *node as u64, want, found)
        }
        TreeFault::BadTag { block, want, found } => put_tag(out, *block as u64, want, found),
        _ => Ok(()),
    }
}

/// Appends why a directory is refused.
fn put_directory(out: &mut Vec<u8>, fault: &DirFault) -> Result<(), NoMemory>
    ensures ok { OnOk result (out.new.items ≡ out.old.items ++ unwrap_or (directory_text fault.now) []) }
    ensures kept { take (length out.old.items) out.new.items ≡ out.old.items }
{
    match fault {
        DirFault::Tree(fault) => put_tree(out, fault),
        DirFault::WrongLength(length) => put_word_number(out, b"length ", *length),
        DirFault::Record { index, offset } => {
            put_numbers(out, b"record ", *index as u64, *offset as u64)
        }
        DirFault::Double { index, first } => {
            put_numbers(out, b"double ", *index as u64, *first as u64)
        }
    }
}

/// Appends why a store was not mounted.
#[tactic(auto, unfolding(crate::specs::Lines::why_text))]
fn put_why(out: &mut Vec<u8>, fault: &MountFault) -> Result<(), NoMemory>
    ensures ok { OnOk result (out.new.items ≡ out.old.items ++ unwrap_or (why_text fault.now) []) }
    ensures kept { take (length out.old.items) out.new.items ≡ out.old.items }
{
    match fault {
        MountFault::NoStore => put(out, b"no-store"),
        MountFault::CardBlock { byte } => put_word_number(out, b"card ", *byte as u64),
        MountFault::OldFormat { file } => put_word_number(out, b"old ", *file as u64),
        MountFault::Directory(fault) => put_directory(out, fault),
        MountFault::Frame(_) => put(out, b"frame"),
        MountFault::CardResult(value) => put_word_hex(out, b"result 0x", &value.to_be_bytes()),
        _ => Ok(()),
    }
}

/// Whether it is told why a tree does not load.
fn is_tree_told(fault: &TreeFault) -> bool
    ensures { result ≡ is_some (tree_text fault.now) }
{
    match fault {
        TreeFault::Failed { .. } | TreeFault::NoEntropy { .. } | TreeFault::NoMemory => false,
        _ => true,
    }
}

/// Whether it is told why a store was not mounted.
#[tactic(auto, unfolding(crate::specs::Lines::why_text))]
fn is_told(fault: &MountFault) -> bool
    ensures { result ≡ is_some (why_text fault.now) }
{
    match fault {
        MountFault::Directory(DirFault::Tree(fault)) => is_tree_told(fault),
        MountFault::Failed(_) | MountFault::Spent | MountFault::NoMemory => false,
        _ => true,
    }
}

/// Appends the line of a refusal. A refusal of memory may leave a part of it behind the old text.
#[tactic(auto, unfolding(crate::specs::Lines::refusal_line))]
fn put_refusal(text: &mut Vec<u8>, fault: &MountFault) -> Result<(), NoMemory>
    ensures ok { OnOk result (text.new.items ≡ text.old.items ++ refusal_line fault.now) }
    ensures kept { take (length text.old.items) text.new.items ≡ text.old.items }
{
    if !is_told(fault) {
        return Ok(());
    }
    put(text, b"# refused ")?;
    put_why(text, fault)?;
    put(text, b"\n")
}

/// Appends the line of why a store was not mounted, or nothing where that is never printed: of a device that failed, of a card whose
/// counter is at its end, and of memory that ran out. The computed tag of a block is printed where the fault has it: a run over
/// simulated devices prints it, and any other takes it out first.
///
/// # Errors
///
/// Memory ran out. The text is as it was.
pub fn print_refusal(fault: &MountFault, text: &mut Vec<u8>) -> Result<(), NoMemory>
    ensures ok { OnOk result (text.new.items ≡ text.old.items ++ refusal_line fault.now) }
    ensures err { OnErr result (text.new.items ≡ text.old.items) }
    ensures kept { take (length text.old.items) text.new.items ≡ text.old.items }
{
    let before = text.len();
    let printed = put_refusal(text, fault);
    if printed.is_err() {
        text.truncate(before);
    }
    printed
}
