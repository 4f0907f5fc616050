//! The calls of `exports` for C, in a static library. A slice passes as a pointer and a length.
//! A symbol of C is not generic, and states a contract of its own: so there is one for each rate, with its clauses.
//! Each answers a number, since C has no `Result`.
#![tactic(auto)]

ghost use Rattle.std.specs.Prelude.{◌≡◌};
ghost use Rattle.beetle.specs.Hashing.{hash_outcome};
ghost use Rattle.beetle.specs.Opening.{open_outcome};
ghost use Rattle.beetle.specs.Sealing.{seal_outcome};
ghost use Rattle.photon.specs.Photon.{photon256};
ghost use Rattle.exports.specs.Codes.{code};

use beetle::{Rate32, Rate128};

#[unsafe(no_mangle)]
pub extern "C" fn lochgrater_permute(state: &mut [u8; 32])
    ensures { state.new ≡ photon256 state.old }
{
    exports::lochgrater_permute(state);
}

#[unsafe(no_mangle)]
pub extern "C" fn lochgrater_hash(text: &[u8], out: &mut [u8]) -> u8
    ensures answer { result ≡ code (hash_outcome photon256 text.now out.old).answer }
    ensures buffer { out.new ≡ (hash_outcome photon256 text.now out.old).buffer }
{
    exports::lochgrater_hash(text, out)
}

#[unsafe(no_mangle)]
pub extern "C" fn lochgrater_seal_128(
    key: &[u8; 16],
    nonce: &[u8; 16],
    ad: &[u8],
    text: &[u8],
    out: &mut [u8],
) -> u8
    ensures answer { result ≡ code (seal_outcome photon256 16 key.now nonce.now ad.now text.now out.old).answer }
    ensures buffer { out.new ≡ (seal_outcome photon256 16 key.now nonce.now ad.now text.now out.old).buffer }
{
    exports::lochgrater_seal::<Rate128>(key, nonce, ad, text, out)
}

#[unsafe(no_mangle)]
pub extern "C" fn lochgrater_seal_32(
    key: &[u8; 16],
    nonce: &[u8; 16],
    ad: &[u8],
    text: &[u8],
    out: &mut [u8],
) -> u8
    ensures answer { result ≡ code (seal_outcome photon256 4 key.now nonce.now ad.now text.now out.old).answer }
    ensures buffer { out.new ≡ (seal_outcome photon256 4 key.now nonce.now ad.now text.now out.old).buffer }
{
    exports::lochgrater_seal::<Rate32>(key, nonce, ad, text, out)
}

#[unsafe(no_mangle)]
pub extern "C" fn lochgrater_open_128(
    key: &[u8; 16],
    nonce: &[u8; 16],
    ad: &[u8],
    text: &[u8],
    out: &mut [u8],
) -> u8
    ensures answer { result ≡ code (open_outcome photon256 16 key.now nonce.now ad.now text.now out.old).answer }
    ensures buffer { out.new ≡ (open_outcome photon256 16 key.now nonce.now ad.now text.now out.old).buffer }
{
    exports::lochgrater_open::<Rate128>(key, nonce, ad, text, out)
}

#[unsafe(no_mangle)]
pub extern "C" fn lochgrater_open_32(
    key: &[u8; 16],
    nonce: &[u8; 16],
    ad: &[u8],
    text: &[u8],
    out: &mut [u8],
) -> u8
    ensures answer { result ≡ code (open_outcome photon256 4 key.now nonce.now ad.now text.now out.old).answer }
    ensures buffer { out.new ≡ (open_outcome photon256 4 key.now nonce.now ad.now text.now out.old).buffer }
{
    exports::lochgrater_open::<Rate32>(key, nonce, ad, text, out)
}
