//! Writing the line of an object.

ghost use Rattle.std.specs.Prelude.{◌≡◌, ◌++◌, length, take, codes, decimal, OnErr, OnOk};
ghost use Rattle.hex.specs.Hex.{encode_lower};
ghost use Rattle.sha2.specs.Sha256.{sha256};
ghost use Rattle.folder_audit.specs.Lines.{audit_line, line_found, line_words};

use crate::finding::Finding;
use dir_records::DirEntry;
use script_text::{put, put_bad, put_uuid, put_word_hex, put_word_number};
use sha2::{Digest, Sha256};
use tee_types::NoMemory;

// Appends the length of a certificate, and its SHA-256.
fn put_certificate(out: &mut Vec<u8>, certificate: &[u8]) -> Result<(), NoMemory>
    ensures ok { OnOk result (out.new.items ≡ out.old.items ++ codes "cert " ++ decimal (length certificate.now) ++ codes " " ++ encode_lower (sha256 certificate.now)) }
    ensures kept { take (length out.old.items) out.new.items ≡ out.old.items }
{
    put_word_number(out, b"cert ", certificate.len() as u64)?;
    put_word_hex(out, b" ", &Sha256::digest(certificate))
}

// Appends what was found of an object.
fn put_finding(out: &mut Vec<u8>, finding: &Finding) -> Result<(), NoMemory>
    ensures ok { OnOk result (out.new.items ≡ out.old.items ++ line_words (line_found finding.now)) }
    ensures kept { take (length out.old.items) out.new.items ≡ out.old.items }
{
    match finding {
        Finding::Certified(certificate) => put_certificate(out, certificate.as_slice()),
        Finding::Bad(numbers) => {
            put_bad(out, numbers)?;
            Ok(())
        }
        Finding::Damaged => put(out, b"damaged"),
    }
}

// Appends the line of an object. A refusal of memory may leave a part of it behind the old text.
#[tactic(auto, unfolding(crate::specs::Lines::audit_line))]
fn put_line(out: &mut Vec<u8>, entry: &DirEntry, finding: &Finding) -> Result<(), NoMemory>
    ensures ok { OnOk result (out.new.items ≡ out.old.items ++ audit_line entry.now (line_found finding.now)) }
    ensures kept { take (length out.old.items) out.new.items ≡ out.old.items }
{
    put(out, b"# ")?;
    put_uuid(out, entry.app)?;
    put_word_hex(out, b" ", entry.id.bytes())?;
    put_word_number(out, b" ", entry.size as u64)?;
    put(out, b" ")?;
    put_finding(out, finding)?;
    put(out, b"\n")
}

/// Appends the line of an object.
///
/// # Errors
///
/// Memory ran out. The text is as it was.
pub(crate) fn print_line(
    out: &mut Vec<u8>,
    entry: &DirEntry,
    finding: &Finding,
) -> Result<(), NoMemory>
    ensures ok { OnOk result (out.new.items ≡ out.old.items ++ audit_line entry.now (line_found finding.now)) }
    ensures err { OnErr result (out.new.items ≡ out.old.items) }
{
    let before = out.len();
    let printed = put_line(out, entry, finding);
    if printed.is_err() {
        out.truncate(before);
    }
    printed
}
