//! The hash: 32 bytes of any text of up to 65,536 bytes.
ghost use Rattle.std.specs.Prelude.{◌≡◌};
ghost use Rattle.beetle.specs.Hashing.{taken, hash_outcome};
ghost use Rattle.beetle.specs.Laws.{DigestBytes};

use crate::blocks::{Block, ending_constant, first_block};
use crate::rate::{Rate32, Rate128};
use crate::sizes::{DIGEST_BYTES, check_sizes};
use crate::sponge::Sponge;
use photon::Engine;
use refusal::Refusal;

/// The state that a text leads to: its first 16 bytes are the start, the rest is absorbed 4 bytes at a time.
fn take_in<'e, E: Engine>(engine: &'e E, text: &[u8]) -> Sponge<'e, E>
    ensures engine { result.engine.now ≡ engine.now }
    ensures state { result.state ≡ taken (E.permutes engine.now) text.now }
{
    let mut sponge = Sponge::new(engine, [0; 32]);
    if text.is_empty() {
        sponge.add_constant(1);
        return sponge;
    }
    let (head, rest) = first_block::<Rate128>(text);
    sponge.xor_padded(&Block::<Rate128>::new(head));
    if rest.is_empty() {
        sponge.add_constant(if head.len() < 16 { 1 } else { 2 });
    } else {
        sponge.absorb::<Rate32>(rest);
        sponge.add_constant(ending_constant::<Rate32>(rest, 1, 2));
    }
    sponge
}

/// Writes the digest of `text` into the first 32 bytes of `out`, and leaves the rest of it.
/// Refuses a text over 65,536 bytes, then an output under 32 bytes; `out` is then untouched.
pub fn hash<E: Engine>(engine: &E, text: &[u8], out: &mut [u8]) -> Result<(), Refusal>
    ensures answer { result ≡ (hash_outcome (E.permutes engine.now) text.now out.old).answer }
    ensures buffer { out.new ≡ (hash_outcome (E.permutes engine.now) text.now out.old).buffer }
    ensures whole { DigestBytes }
{
    check_sizes(text.len(), DIGEST_BYTES, out.len())?;
    let digest = take_in(engine, text).squeeze();
    out[..DIGEST_BYTES].copy_from_slice(&digest);
    Ok(())
}
