// The frames that a host sends.

ghost use Rattle.std.specs.Prelude.{◌≡◌};
ghost use Rattle.rpmb_host.specs.Requests.{block_request, counter_request, result_request, write_request};

use rpmb_card::{READ_BLOCK, READ_COUNTER, READ_RESULT, WRITE_BLOCK, empty_frame};
use rpmb_frame::{Frame, seal_frame};

pub(crate) fn counter_request(nonce: &[u8; 16]) -> [u8; 512]
    ensures { result ≡ counter_request nonce.now }
{
    let request = Frame {
        nonce: *nonce,
        kind: READ_COUNTER,
        ..empty_frame()
    };
    request.write()
}

pub(crate) fn block_request(address: u16, nonce: &[u8; 16]) -> [u8; 512]
    ensures { result ≡ block_request address nonce.now }
{
    let request = Frame {
        nonce: *nonce,
        address,
        kind: READ_BLOCK,
        ..empty_frame()
    };
    request.write()
}

pub(crate) fn write_request(
    key: &[u8; 32],
    address: u16,
    counter: u32,
    block: &[u8; 256],
) -> [u8; 512]
    ensures { result ≡ write_request key.now address counter block.now }
{
    let request = Frame {
        block: *block,
        counter,
        address,
        count: 1,
        kind: WRITE_BLOCK,
        ..empty_frame()
    };
    let mut bytes = request.write();
    seal_frame(&mut bytes, key);
    bytes
}

pub(crate) fn result_request() -> [u8; 512]
    ensures { result ≡ result_request }
{
    let request = Frame {
        kind: READ_RESULT,
        ..empty_frame()
    };
    request.write()
}
