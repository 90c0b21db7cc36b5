//! Reading a script to its end.

ghost use Rattle.std.specs.Prelude.{◌≡◌, ◌≤◌, ◌<◌, ◌+◌, ◌++◌, ℕ, List, drop, length, IfOk, IfErr, MatchResult, vec_len};
ghost use Rattle.tee_ports.specs.Faults.{Rose};
ghost use Rattle.tee_ports.specs.Streams.{TakesFirst};
ghost use Rattle.script_runner.specs.ScriptReading.{IsPieceError, IsReadError};

use crate::status::{Excess, Status};
use std::alloc::{AllocError, Global};
use tee_ports::Source;
use tee_types::MAX_SCRIPT;

/// How many bytes are asked of the source at a time.
const PIECE: usize = 65_536;

/// So many zero bytes.
fn zeroed(alloc: Global, count: usize) -> Result<Vec<u8>, AllocError>
    ensures { IfOk result (λ bytes. vec_len bytes ≡ count) }
{
    vec![in alloc; 0u8; count]
}

/// Takes the next piece of the source behind the text, and says how many bytes it has; 0 is the end.
fn read_piece<S: Source>(
    source: &mut S,
    piece: &mut [u8],
    text: &mut Vec<u8>,
) -> Result<usize, Status>
    requires { 0 < length piece.old }
    ensures grows { text.new.items ≡ text.old.items ++ drop (length text.old.items) text.new.items }
    ensures taken { TakesFirst (S.left source.old) (S.left source.new) (drop (length text.old.items) text.new.items) }
    ensures count { IfOk result (λ n. (length text.new.items ≡ length text.old.items + n) × (n ≤ length piece.old) × (n ≡ 0 → S.has_ended source.new)) }
    ensures counted { S.faults source.old ≤ S.faults source.new }
    ensures error { IfErr result (IsPieceError (Rose (S.faults source.old) (S.faults source.new))) }
    ensures same { IfErr result (λ _. length text.new.items ≡ length text.old.items) }
{
    text.reserve(piece.len())?;
    match source.next(piece) {
        Ok(n) => {
            text.extend_from_slice(&piece[..n]).unwrap();
            Ok(n)
        }
        Err(_) => Err(Status::ReadFault),
    }
}

/// Reads a source to its end, at most one byte past the limit of a script.
pub fn read_text<S: Source>(alloc: Global, source: &mut S) -> Result<Vec<u8>, Status>
    ensures read { (taken : List ℕ)
        × TakesFirst (S.left source.old) (S.left source.new) taken
        × (length taken ≤ 16777217)
        × MatchResult result
        (λ text. (text.items ≡ taken) × S.has_ended source.new × (length taken ≤ 16777216))
        (IsReadError (Rose (S.faults source.old) (S.faults source.new)) (length taken)) }
{
    let mut text = Vec::new(alloc);
    let mut piece = zeroed(alloc, PIECE)?;
    while text.len() <= MAX_SCRIPT {
        let want = PIECE.min(MAX_SCRIPT + 1 - text.len());
        if read_piece(source, &mut piece[..want], &mut text)? == 0 {
            return Ok(text);
        }
    }
    Err(Status::TooLong(Excess::Bytes))
}
