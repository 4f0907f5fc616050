//! The bench engine turns the 32 bytes end for end, so that cases can be worked on paper.
ghost use Rattle.std.specs.Prelude.{reverse};
ghost use Rattle.std.proofs.Common.{◌∙◌};
ghost use Rattle.std.proofs.lemmas.List.{length-reverse};
ghost use Rattle.photon.specs.Reversal.{small_reverse};

use crate::Engine;

/// Turns the state end for end.
#[derive(Clone, Copy)]
pub struct BenchEngine;

impl Engine for BenchEngine {
    ghost permutes = { λ _ s. reverse s };

    ghost stays = { λ e s h. record { long = length-reverse s ∙ h.long; small = small_reverse s h.small } };

    fn permute(&self, state: &mut [u8; 32]) {
        state.reverse();
    }
}
