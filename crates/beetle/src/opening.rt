//! Opening: a ciphertext and a tag become the message again, if the tag is the specified one.
ghost use Rattle.std.specs.Prelude.{◌≡◌, OnOk};
ghost use Rattle.std.specs.Str.{bytes_eq};
ghost use Rattle.beetle.specs.Opening.{open_outcome};
ghost use Rattle.beetle.specs.Laws.{Laws};

use crate::mode::Input;
use crate::rate::Rate;
use crate::sizes::{TAG_BYTES, check_sizes};
use crate::sponge::Opening;
use photon::Engine;
use refusal::Refusal;

/// Whether a tag is the specified one. Every byte is looked at, so the time does not tell where the first difference is.
fn same_tag(tag: &[u8; 16], specified: &[u8; 16]) -> bool
    ensures { result ≡ bytes_eq tag.now specified.now }
{
    tag.iter()
        .zip(specified.iter())
        .fold(0, |differing, (a, b)| differing | (a ^ b))
        == 0
}

/// What `open` does, but for a refusal, which leaves `out` with anything in it.
fn open_without_clearing<R: Rate, E: Engine>(
    engine: &E,
    input: &Input<'_>,
    out: &mut [u8],
) -> Result<(), Refusal>
    ensures answer { result ≡ (open_outcome (E.permutes engine.now) R.BYTES input.now.key.now input.now.nonce.now input.now.ad.now input.now.text.now out.old).answer }
    ensures granted { OnOk result (out.new ≡ (open_outcome (E.permutes engine.now) R.BYTES input.now.key.now input.now.nonce.now input.now.ad.now input.now.text.now out.old).buffer) }
{
    let n = input.text.len().saturating_sub(TAG_BYTES);
    check_sizes(input.ad.len().max(n), n, out.len())?;
    let Some((ciphertext, tag)) = input.text.split_last_chunk() else {
        return Err(Refusal::TagDiffers);
    };
    let untagged = Input {
        text: ciphertext,
        ..*input
    };
    let specified = untagged.pass::<R, Opening, E>(engine, out);
    if !same_tag(tag, &specified) {
        return Err(Refusal::TagDiffers);
    }
    out[n..].fill(0);
    Ok(())
}

/// Writes the message of a sealed text to the front of `out`, and zeros over the rest of it.
/// Refuses `ad` or a message over 65,536 bytes, then an output too short for the message, then a tag that is missing or differs; `out` is then all zeros.
pub fn open<R: Rate, E: Engine>(
    engine: &E,
    key: &[u8; 16],
    nonce: &[u8; 16],
    ad: &[u8],
    text: &[u8],
    out: &mut [u8],
) -> Result<(), Refusal>
    ensures answer { result ≡ (open_outcome (E.permutes engine.now) R.BYTES key.now nonce.now ad.now text.now out.old).answer }
    ensures buffer { out.new ≡ (open_outcome (E.permutes engine.now) R.BYTES key.now nonce.now ad.now text.now out.old).buffer }
    ensures laws { Laws }
{
    let input = Input {
        key,
        nonce,
        ad,
        text,
    };
    let answer = open_without_clearing::<R, E>(engine, &input, out);
    if answer.is_err() {
        out.fill(0);
    }
    answer
}
