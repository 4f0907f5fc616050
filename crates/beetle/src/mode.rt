//! What sealing and opening share: a text goes through the mode, and a tag comes of it.
ghost use Rattle.std.specs.Prelude.{◌≡◌, ◌≤◌, ◌++◌, length, drop};
ghost use Rattle.beetle.specs.Mode.{begun, passing, ended, tag};

use crate::blocks::constant_after;
use crate::rate::Rate;
use crate::sponge::{Direction, Sponge, joined};
use photon::Engine;

/// What is sealed or opened: `text` is the message, or the ciphertext.
#[derive(Clone, Copy)]
pub(crate) struct Input<'a> {
    pub(crate) key: &'a [u8; 16],
    pub(crate) nonce: &'a [u8; 16],
    pub(crate) ad: &'a [u8],
    pub(crate) text: &'a [u8],
}

impl Input<'_> {
    /// The state before the text: nonce and key, and the associated data absorbed.
    #[tactic(auto, using(crate::proofs::Smalls::c0_small), unfolding(crate::specs::Mode::begun, crate::specs::Mode::c0))]
    fn begin<'e, R: Rate, E: Engine>(&self, engine: &'e E) -> Sponge<'e, E>
        ensures engine { result.engine.now ≡ engine.now }
        ensures state { result.state ≡ begun (E.permutes engine.now) R.BYTES self.now.key.now self.now.nonce.now self.now.ad.now self.now.text.now }
    {
        let mut sponge = Sponge::new(engine, joined(self.nonce, self.key));
        if !self.ad.is_empty() {
            sponge.absorb::<R>(self.ad);
            sponge.add_constant(constant_after::<R>(self.ad, self.text, (3, 4)));
        } else if self.text.is_empty() {
            sponge.add_constant(1);
        }
        sponge
    }

    /// The tag, from the state after the last block of the text.
    #[tactic(auto, using(crate::proofs::Smalls::c1_small), unfolding(crate::specs::Mode::ended, crate::specs::Mode::c1, crate::specs::Mode::tag))]
    fn finish<R: Rate, E: Engine>(&self, mut sponge: Sponge<'_, E>) -> [u8; 16]
        ensures { result ≡ tag (E.permutes sponge.entry.engine.now) (ended R.BYTES self.now.ad.now self.now.text.now sponge.entry.state) }
    {
        if !self.text.is_empty() {
            sponge.add_constant(constant_after::<R>(self.text, self.ad, (5, 6)));
        }
        sponge.permute();
        sponge.front()
    }

    /// Writes the text's other form to the front of `out`, and answers the tag.
    pub(crate) fn pass<R: Rate, D: Direction, E: Engine>(
        &self,
        engine: &E,
        out: &mut [u8],
    ) -> [u8; 16]
        requires { length self.now.text.now ≤ length out.old }
        ensures text { out.new ≡ (passing (E.permutes engine.now) D.SEALS R.BYTES self.now.key.now self.now.nonce.now self.now.ad.now self.now.text.now).text ++ drop (length self.now.text.now) out.old }
        ensures tag { let P = E.permutes engine.now in
            result ≡ tag P (ended R.BYTES self.now.ad.now self.now.text.now (passing P D.SEALS R.BYTES self.now.key.now self.now.nonce.now self.now.ad.now self.now.text.now).state) }
    {
        let mut sponge = self.begin::<R, E>(engine);
        sponge.pass_text::<R, D>(self.text, out);
        self.finish::<R, E>(sponge)
    }
}
