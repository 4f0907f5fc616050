//! Permutation engines: the 32-byte state of a sponge, and what replaces it.
#![tactic(auto)]

mod bench;
mod cell;
mod field;
mod table;

ghost use Rattle.std.specs.Prelude.{◌≡◌, ℕ, List};
ghost use Rattle.photon.specs.Bytes.{Bytes};

pub use bench::BenchEngine;
pub use cell::CellEngine;
pub use table::TableEngine;

/// An engine means a map on 32 bytes. It shows that and nothing more.
pub trait Engine {
    ghost permutes: { Self → List ℕ → List ℕ };

    /// Replaces a state by its image, under the same map at every call.
    fn permute(&self, state: &mut [u8; 32])
        ensures { state.new ≡ permutes self.now state.old };

    ghost stays: { (e : Self) (s : List ℕ) → Bytes 32 s → Bytes 32 (permutes e s) };
}
