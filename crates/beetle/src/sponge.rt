//! The state of 32 bytes under an engine, and what goes into it and comes out.
ghost use Rattle.std.specs.Prelude.{◌≡◌, ℕ, ◌-◌, ◌<◌, ◌≤◌, ◌++◌, Bool, true, false, length, take, drop, replicate, slice_index, if◌then◌else◌};
ghost use Rattle.beetle.specs.Blocks.{xored, padded, added, absorbed, blocks};
ghost use Rattle.beetle.specs.Mode.{shuffled, masked, rule, passed};
ghost use Rattle.beetle.specs.Hashing.{squeezed};

use crate::blocks::{Block, Blocks};
use crate::rate::Rate;
use photon::Engine;

/// Which way a text goes through the mode: which of its two forms is the message.
pub(crate) trait Direction {
    ghost SEALS: { Bool };

    /// The message: of a block that goes in and its other form, the one or the other.
    fn message<'b>(block: &'b [u8], other: &'b [u8]) -> &'b [u8]
        ensures { result.now ≡ (if SEALS then block.now else other.now) };
}

/// The message goes in, and the ciphertext comes out.
pub(crate) struct Sealing;

impl Direction for Sealing {
    ghost SEALS = { true };

    fn message<'b>(block: &'b [u8], _other: &'b [u8]) -> &'b [u8] {
        block
    }
}

/// The ciphertext goes in, and the message comes out.
pub(crate) struct Opening;

impl Direction for Opening {
    ghost SEALS = { false };

    fn message<'b>(_block: &'b [u8], other: &'b [u8]) -> &'b [u8] {
        other
    }
}

/// A state, and the engine that replaces it: its map is P.
#[derive(Drop)]
pub(crate) struct Sponge<'e, E: Engine> {
    engine: &'e E,
    state: [u8; 32],
}

impl<'e, E: Engine> Sponge<'e, E> {
    pub(crate) fn new(engine: &'e E, state: [u8; 32]) -> Self
        ensures engine { result.engine.now ≡ engine.now }
        ensures state { result.state ≡ state }
    {
        Sponge { engine, state }
    }

    pub(crate) fn permute(&mut self)
        ensures { self.new ≡ record self.old { state = E.permutes self.old.engine.now self.old.state } }
    {
        self.engine.permute(&mut self.state);
    }

    /// Adds a constant: XORs 32·c into the last byte.
    #[tactic(auto, unfolding(crate::specs::Blocks::added))]
    pub(crate) fn add_constant(&mut self, c: u8)
        requires { c < 8 }
        ensures { self.new ≡ record self.old { state = added c self.old.state } }
    {
        self.state[31] ^= 32 * c;
    }

    /// XORs a block, padded to the rate's bytes, into the front.
    pub(crate) fn xor_padded<R: Rate>(&mut self, block: &Block<'_, R>)
        ensures { self.new ≡ record self.old { state = xored self.old.state (padded R.BYTES block.now.bytes.now) } }
    {
        xor(&mut self.state, block.bytes);
        let n = block.bytes.len();
        if n < R::BYTES {
            self.state[n] ^= 1;
        }
    }

    /// P of the state, and then the block goes into the front.
    fn absorb_block<R: Rate>(&mut self, block: &Block<'_, R>)
        ensures { self.new ≡ record self.old { state = xored (E.permutes self.old.engine.now self.old.state) (padded R.BYTES block.now.bytes.now) } }
    {
        self.permute();
        self.xor_padded(block);
    }

    /// Each block of a text in order.
    #[tactic(auto, unfolding(crate::specs::Blocks::absorbed))]
    pub(crate) fn absorb<R: Rate>(&mut self, text: &[u8])
        ensures { self.new ≡ record self.old { state = absorbed (E.permutes self.old.engine.now) R.BYTES self.old.state text.now } }
    {
        for block in Blocks::<R>::new(text) {
            self.absorb_block(&block);
        }
    }

    /// Writes a block XOR the shuffled state.
    fn mask<R: Rate>(&self, block: &Block<'_, R>, out: &mut [u8])
        requires { length out.old ≡ length block.now.bytes.now }
        ensures { out.new ≡ masked R.BYTES self.now.state block.now.bytes.now }
    {
        let key = shuffle::<R>(&self.state);
        // Each byte of `out` is written once, so that no byte of a message stands there unmasked. By index: of bytes that `iter_mut` lends, a proof knows nothing afterwards.
        for (i, byte) in block.bytes.iter().enumerate() {
            out[i] = key[i] ^ *byte;
        }
    }

    /// P of the state; then the block's other form comes out, and the message goes into the front.
    fn pass_block<R: Rate, D: Direction>(&mut self, block: &Block<'_, R>, out: &mut [u8])
        requires { length out.old ≡ length block.now.bytes.now }
        ensures sponge { self.new ≡ record self.old { state = (rule D.SEALS R.BYTES (E.permutes self.old.engine.now self.old.state) block.now.bytes.now).state } }
        ensures text { out.new ≡ (rule D.SEALS R.BYTES (E.permutes self.old.engine.now self.old.state) block.now.bytes.now).text }
    {
        self.permute();
        self.mask(block, out);
        self.xor_padded(&Block::<R>::new(D::message(block.bytes, out)));
    }

    /// Each block of a text in order; its other form goes to the front of `out`.
    pub(crate) fn pass_text<R: Rate, D: Direction>(&mut self, text: &[u8], out: &mut [u8])
        requires { length text.now ≤ length out.old }
        ensures sponge { self.new ≡ record self.old { state = (passed (E.permutes self.old.engine.now) (rule D.SEALS R.BYTES) self.old.state (blocks R.BYTES text.now)).state } }
        ensures text { out.new ≡ (passed (E.permutes self.old.engine.now) (rule D.SEALS R.BYTES) self.old.state (blocks R.BYTES text.now)).text ++ drop (length text.now) out.old }
    {
        // The place in `out` is counted: of parts that `chunks_mut`, or `split_at_mut` in a loop, lends, a proof knows nothing afterwards.
        let mut at = 0;
        for block in Blocks::<R>::new(text) {
            let end = at + block.bytes.len();
            let part = &mut out[at..end];
            self.pass_block::<R, D>(&block, part);
            at = end;
        }
    }

    /// The first 16 bytes of the state.
    pub(crate) fn front(&self) -> [u8; 16]
        ensures { result ≡ take 16 self.now.state }
    {
        *self.state.first_chunk().unwrap()
    }

    /// 16 bytes of the state after one P and 16 after a second.
    #[tactic(auto, unfolding(crate::specs::Hashing::squeezed))]
    pub(crate) fn squeeze(mut self) -> [u8; 32]
        ensures value { result ≡ squeezed (E.permutes self.entry.engine.now) self.entry.state }
        ensures len { length result ≡ 32 }
    {
        self.permute();
        let first = self.front();
        self.permute();
        joined(&first, &self.front())
    }
}

/// XORs bytes into the front of others.
fn xor(target: &mut [u8], bytes: &[u8])
    requires { length bytes.now ≤ length target.old }
    ensures { target.new ≡ xored target.old bytes.now }
{
    // By index: of bytes that `iter_mut` lends beside a second iterator, a proof knows nothing afterwards.
    for (i, byte) in bytes.iter().enumerate() {
        target[i] ^= *byte;
    }
}

/// Byte i of Shuffle of the front of a state, as many bytes as the rate has: their second half, and then their first half turned right by one bit. Past those, 0.
fn shuffled_byte<R: Rate>(state: &[u8; 32], i: usize) -> u8
    ensures { result ≡ slice_index (shuffled R.BYTES (take R.BYTES state.now)) i }
{
    let half = R::BYTES / 2;
    if i < half {
        state[half + i]
    } else if i < R::BYTES {
        state[i - half] / 2 + 128 * (state[(i - half + 1) % half] % 2)
    } else {
        0
    }
}

/// Shuffle of the front of a state, and then zeros.
fn shuffle<R: Rate>(state: &[u8; 32]) -> [u8; 16]
    ensures { result ≡ shuffled R.BYTES (take R.BYTES state.now) ++ replicate (16 - R.BYTES) 0 }
{
    std::array::from_fn(|i| shuffled_byte::<R>(state, i))
}

/// 16 bytes and then 16 more.
pub(crate) fn joined(front: &[u8; 16], back: &[u8; 16]) -> [u8; 32]
    ensures { result ≡ front.now ++ back.now }
{
    let mut both = [0; 32];
    both[..16].copy_from_slice(front);
    both[16..].copy_from_slice(back);
    both
}
