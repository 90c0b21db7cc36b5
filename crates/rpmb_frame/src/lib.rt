//! Data frames of the replay-protected memory block, RPMB (JEDEC eMMC standard JESD84-B51, 6.6.22):
//! their fields, and their authentication.
//!
//! A frame is 512 bytes, its numbers are big-endian. Its MAC is the HMAC with SHA-256 of bytes 228 to
//! 511, and stands in bytes 196 to 227.
#![tactic(auto)]

ghost use Rattle.std.specs.Prelude.{◌≡◌, MatchResult};
ghost use Rattle.tee_types.specs.declared.reply.FrameFault.TheVariants.{Mac};
ghost use Rattle.rpmb_frame.specs.Authentication.{IsAuthentic, mac_of, sealed};

use byte_fields::{equal_bytes, field, put};
pub use frame::Frame;
use hmac_keys::hmac;
use tee_types::FrameFault;

mod frame;

/// The MAC of a frame under the card's key: HMAC with SHA-256 of bytes 228 to 511.
pub fn mac(bytes: &[u8; 512], key: &[u8; 32]) -> [u8; 32]
    ensures { result ≡ mac_of key.now bytes.now }
{
    hmac(key, &bytes[228..])
}

/// Puts the MAC under the card's key into bytes 196 to 227. All else stays.
pub fn seal_frame(bytes: &mut [u8; 512], key: &[u8; 32])
    ensures sealed { bytes.new ≡ sealed key.now bytes.old }
    // A sealed frame carries its own MAC.
    ensures verifies { IsAuthentic key.now bytes.new }
{
    let mac = mac(bytes, key);
    put(bytes, 196, &mac);
}

/// Whether a frame carries its MAC under the card's key.
///
/// # Errors
///
/// `FrameFault::Mac` where it does not. The MAC under the key is not told: it would sign the frame.
pub fn verify(bytes: &[u8; 512], key: &[u8; 32]) -> Result<(), FrameFault>
    ensures { MatchResult result
        (λ _. IsAuthentic key.now bytes.now)
        (λ fault. ¬ IsAuthentic key.now bytes.now × (fault ≡ Mac)) }
{
    let carried_mac = field(bytes, 196);
    if equal_bytes(&carried_mac, &mac(bytes, key)) {
        Ok(())
    } else {
        Err(FrameFault::Mac)
    }
}
