// What a host wants of an answer, and whether a frame is that answer.

ghost use Rattle.std.specs.Prelude.{◌≡◌, true};
ghost use Rattle.rpmb_host.specs.Verdict.{fields_verdict, is_of_frame, place_verdict, verdict};

use crate::HostFault;
use byte_fields::equal_bytes;
use rpmb_frame::{Frame, verify};
use tee_types::FrameFault;

/// The bits of a result without the one that says that the counter has reached its end.
pub(crate) const RESULT_BITS: u16 = 0x7f;

/// The wanted answer. `None` leaves a field free.
#[derive(Clone, Copy)]
pub struct Wanted {
    /// Which response it is.
    pub kind: u16,
    /// The nonce of the request.
    pub nonce: Option<[u8; 16]>,
    /// The write counter.
    pub counter: Option<u32>,
    /// The block's address.
    pub address: Option<u16>,
}

/// The frame, if it is the wanted answer; or what is wrong with it first: MAC, nonce, kind, result, counter, address.
pub(crate) fn judge(key: &[u8; 32], wanted: &Wanted, bytes: &[u8; 512]) -> Result<Frame, HostFault>
    ensures verdict { result ≡ verdict key.now wanted.now bytes.now }
    ensures of_frame { is_of_frame result ≡ true }
{
    match verify(bytes, key) {
        Ok(()) => judge_fields(wanted, &Frame::parse(bytes)),
        Err(fault) => Err(HostFault::BadFrame(fault)),
    }
}

fn judge_fields(wanted: &Wanted, frame: &Frame) -> Result<Frame, HostFault>
    ensures verdict { result ≡ fields_verdict wanted.now frame.now }
    ensures of_frame { is_of_frame result ≡ true }
{
    if let Some(want) = wanted.nonce
        && !equal_bytes(&frame.nonce, &want)
    {
        return Err(HostFault::BadFrame(FrameFault::Nonce {
            want,
            found: frame.nonce,
        }));
    }
    if frame.kind != wanted.kind {
        return Err(HostFault::BadFrame(FrameFault::Kind {
            want: wanted.kind,
            found: frame.kind,
        }));
    }
    if frame.result & RESULT_BITS != 0 {
        return Err(HostFault::CardResult(frame.result));
    }
    judge_place(wanted, frame)
}

// The fields behind the result.
fn judge_place(wanted: &Wanted, frame: &Frame) -> Result<Frame, HostFault>
    ensures verdict { result ≡ place_verdict wanted.now frame.now }
    ensures of_frame { is_of_frame result ≡ true }
{
    if let Some(want) = wanted.counter
        && frame.counter != want
    {
        return Err(HostFault::BadFrame(FrameFault::Counter {
            want,
            found: frame.counter,
        }));
    }
    if let Some(want) = wanted.address
        && frame.address != want
    {
        return Err(HostFault::BadFrame(FrameFault::Address {
            want,
            found: frame.address,
        }));
    }
    Ok(*frame)
}
