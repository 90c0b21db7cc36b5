//! Writing the numbers of bad blocks.

ghost use Rattle.std.specs.Prelude.{◌≡◌, ◌++◌, length, take, decimal, IfOk, OnOk};
ghost use Rattle.script_text.specs.BadBlocks.{bad_text, is_some_of, member_word, members_of};

use crate::append_text::put_word_number;
use tee_types::NoMemory;
use tree_paths::NodeSet;

// The greatest number of a block.
const BLOCKS: u32 = 256;

/// Appends the number of a bad block. `some` says whether there is one before it.
fn put_member(out: &mut Vec<u8>, some: bool, number: u32) -> Result<(), NoMemory>
    ensures ok { OnOk result (out.new.items ≡ out.old.items ++ member_word some ++ decimal number) }
    ensures kept { take (length out.old.items) out.new.items ≡ out.old.items }
{
    if some {
        put_word_number(out, b",", number as u64)
    } else {
        put_word_number(out, b"bad:", number as u64)
    }
}

/// Appends the numbers of the bad blocks, and says whether there is one.
pub fn put_bad(out: &mut Vec<u8>, bad: &NodeSet) -> Result<bool, NoMemory>
    ensures ok { OnOk result (out.new.items ≡ out.old.items ++ bad_text (members_of bad.now)) }
    ensures some { IfOk result (λ some. some ≡ is_some_of (members_of bad.now)) }
    ensures kept { take (length out.old.items) out.new.items ≡ out.old.items }
{
    let mut some = false;
    for k in 0..BLOCKS {
        if bad.has(k + 1) {
            put_member(out, some, k + 1)?;
            some = true;
        }
    }
    Ok(some)
}
