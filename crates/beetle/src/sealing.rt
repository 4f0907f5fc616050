//! Sealing: a message becomes a ciphertext of its length and a tag.
ghost use Rattle.std.specs.Prelude.{◌≡◌};
ghost use Rattle.beetle.specs.Sealing.{seal_outcome};

use crate::mode::Input;
use crate::rate::Rate;
use crate::sizes::{TAG_BYTES, check_sizes};
use crate::sponge::Sealing;
use photon::Engine;
use refusal::Refusal;

/// Writes the ciphertext of `text` and then its tag to the front of `out`, and leaves the rest of it.
/// Refuses `ad` or `text` over 65,536 bytes, then an output too short for both; `out` is then untouched.
pub fn seal<R: Rate, E: Engine>(
    engine: &E,
    key: &[u8; 16],
    nonce: &[u8; 16],
    ad: &[u8],
    text: &[u8],
    out: &mut [u8],
) -> Result<(), Refusal>
    ensures answer { result ≡ (seal_outcome (E.permutes engine.now) R.BYTES key.now nonce.now ad.now text.now out.old).answer }
    ensures buffer { out.new ≡ (seal_outcome (E.permutes engine.now) R.BYTES key.now nonce.now ad.now text.now out.old).buffer }
{
    let n = text.len();
    check_sizes(ad.len().max(n), n + TAG_BYTES, out.len())?;
    let input = Input {
        key,
        nonce,
        ad,
        text,
    };
    let tag = input.pass::<R, Sealing, E>(engine, out);
    out[n..n + TAG_BYTES].copy_from_slice(&tag);
    Ok(())
}
