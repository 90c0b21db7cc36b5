//! Writing the line of an object.

ghost use Rattle.std.specs.Prelude.{◌≡◌, ◌++◌, length, take, codes, decimal, OnErr, OnOk};
ghost use Rattle.hex.specs.Hex.{encode_lower};
ghost use Rattle.sha2.specs.Sha256.{sha256};
ghost use Rattle.script_text.specs.Forms.{bytes_text};
ghost use Rattle.script_text.specs.BadBlocks.{members_of};
ghost use Rattle.store_model.specs.Object.{size_of};
ghost use Rattle.run_acts.specs.Lines.{content_text, data_text, object_words};
ghost use Rattle.run_acts.specs.LineObjects.{object_shown, shown_line};

use object_calls::{Shown, ShownObject};
use script_text::{
    put, put_bad, put_bytes, put_uuid, put_word_bytes, put_word_hex, put_word_number,
};
use sha2::{Digest, Sha256};
use tee_types::NoMemory;
use tree_paths::NodeSet;

// The greatest number of bytes that are printed whole.
const WHOLE: usize = 64;

/// The SHA-256 of some bytes.
fn digest_of(bytes: &[u8]) -> [u8; 32]
    ensures { result ≡ sha256 bytes.now }
{
    let mut hasher = Sha256::new();
    hasher.update(bytes);
    hasher.finalize()
}

/// Appends data, or its SHA-256.
#[tactic(auto, unfolding(crate::specs::Lines::data_text))]
fn put_data(out: &mut Vec<u8>, bytes: &[u8]) -> Result<(), NoMemory>
    ensures ok { OnOk result (out.new.items ≡ out.old.items ++ data_text bytes.now) }
    ensures kept { take (length out.old.items) out.new.items ≡ out.old.items }
{
    if bytes.len() <= WHOLE {
        return put_bytes(out, bytes);
    }
    put_word_hex(out, b"sha256:", &digest_of(bytes))
}

/// Appends the numbers of the bad blocks, or the data where there is none.
fn put_content(out: &mut Vec<u8>, bytes: &[u8], bad: &NodeSet) -> Result<(), NoMemory>
    ensures ok { OnOk result (out.new.items ≡ out.old.items ++ content_text bytes.now (members_of bad.now)) }
    ensures kept { take (length out.old.items) out.new.items ≡ out.old.items }
{
    if put_bad(out, bad)? {
        return Ok(());
    }
    put_data(out, bytes)?;
    Ok(())
}

/// Appends the size of an object, and what it has.
#[tactic(auto, unfolding(crate::specs::Lines::object_words))]
fn put_object(out: &mut Vec<u8>, object: &ShownObject, size: u32) -> Result<(), NoMemory>
    ensures ok { OnOk result (out.new.items ≡ out.old.items ++ codes " " ++ decimal (size_of (object_shown object.now size)) ++ codes " " ++ object_words (object_shown object.now size)) }
    ensures kept { take (length out.old.items) out.new.items ≡ out.old.items }
{
    match object {
        ShownObject::Damaged => {
            put_word_number(out, b" ", size as u64)?;
            put(out, b" damaged")
        }
        ShownObject::Sound {
            attributes,
            bytes,
            bad,
        } => {
            put_word_number(out, b" ", bytes.len() as u64)?;
            put_word_bytes(out, b" ", attributes.as_slice())?;
            put(out, b" ")?;
            put_content(out, bytes.as_slice(), bad)
        }
    }
}

/// Appends the line of an object. A refusal of memory may leave a part of it behind the old text.
#[tactic(auto, unfolding(crate::specs::Lines::object_line))]
fn put_line(out: &mut Vec<u8>, shown: &Shown) -> Result<(), NoMemory>
    ensures ok { OnOk result (out.new.items ≡ out.old.items ++ shown_line shown.now) }
    ensures kept { take (length out.old.items) out.new.items ≡ out.old.items }
{
    put(out, b"# ")?;
    put_uuid(out, shown.app)?;
    put_word_hex(out, b" ", shown.id.bytes())?;
    put_object(out, &shown.object, shown.size)?;
    put(out, b"\n")?;
    Ok(())
}

/// Appends the line of an object: `# UUID ID SIZE ATTRIBUTES CONTENT`, or `# UUID ID SIZE damaged`.
///
/// The content is the numbers of the bad blocks where there are some, and else the data in hex, or their SHA-256 where they are more
/// than 64 bytes.
///
/// # Errors
///
/// Memory ran out. The text is as it was.
pub fn print_object(shown: &Shown, text: &mut Vec<u8>) -> Result<(), NoMemory>
    ensures ok { OnOk result (text.new.items ≡ text.old.items ++ shown_line shown.now) }
    ensures err { OnErr result (text.new.items ≡ text.old.items) }
    ensures kept { take (length text.old.items) text.new.items ≡ text.old.items }
{
    let before = text.len();
    let printed = put_line(text, shown);
    if printed.is_err() {
        text.truncate(before);
    }
    printed
}
