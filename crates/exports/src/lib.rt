//! Sealing, opening and hashing over the table engine: each answers 0 where it is granted, else the refusal's number.
//! `exports_c` hands these calls to C. A number, since C has no `Result`.
#![tactic(auto)]

ghost use Rattle.std.specs.Prelude.{◌≡◌};
ghost use Rattle.beetle.specs.Hashing.{hash_outcome};
ghost use Rattle.beetle.specs.Opening.{open_outcome};
ghost use Rattle.beetle.specs.Sealing.{seal_outcome};
ghost use Rattle.photon.specs.Photon.{photon256};
ghost use Rattle.exports.specs.Codes.{code};

use beetle::Rate;
use photon::{Engine, TableEngine};
use refusal::Refusal;

/// 0, or the refusal's number.
fn code_of(answer: Result<(), Refusal>) -> u8
    ensures { result ≡ code answer }
{
    answer.map_or_else(|refusal| refusal.number(), |()| 0)
}

/// Replaces a state by PHOTON256 of it.
pub fn lochgrater_permute(state: &mut [u8; 32])
    ensures { state.new ≡ photon256 state.old }
{
    TableEngine.permute(state);
}

/// `beetle::hash`.
pub fn lochgrater_hash(text: &[u8], out: &mut [u8]) -> u8
    ensures answer { result ≡ code (hash_outcome photon256 text.now out.old).answer }
    ensures buffer { out.new ≡ (hash_outcome photon256 text.now out.old).buffer }
{
    code_of(beetle::hash(&TableEngine, text, out))
}

/// `beetle::seal` at the rate R.
pub fn lochgrater_seal<R: Rate>(
    key: &[u8; 16],
    nonce: &[u8; 16],
    ad: &[u8],
    text: &[u8],
    out: &mut [u8],
) -> u8
    ensures answer { result ≡ code (seal_outcome photon256 R.BYTES key.now nonce.now ad.now text.now out.old).answer }
    ensures buffer { out.new ≡ (seal_outcome photon256 R.BYTES key.now nonce.now ad.now text.now out.old).buffer }
{
    code_of(beetle::seal::<R, TableEngine>(&TableEngine, key, nonce, ad, text, out))
}

/// `beetle::open` at the rate R.
pub fn lochgrater_open<R: Rate>(
    key: &[u8; 16],
    nonce: &[u8; 16],
    ad: &[u8],
    text: &[u8],
    out: &mut [u8],
) -> u8
    ensures answer { result ≡ code (open_outcome photon256 R.BYTES key.now nonce.now ad.now text.now out.old).answer }
    ensures buffer { out.new ≡ (open_outcome photon256 R.BYTES key.now nonce.now ad.now text.now out.old).buffer }
{
    code_of(beetle::open::<R, TableEngine>(&TableEngine, key, nonce, ad, text, out))
}
