//! Digests: fields Msg and MD.
use crate::checking::Check;
use crate::layout::Vector;
use beetle::DIGEST_BYTES;
use photon::Engine;
use std::alloc::Global;

/// Whether the digest of a vector's message is the vector's.
pub struct Digests;

impl Check for Digests {
    const PASSED: &'static str = "digests agree";

    fn passes<E: Engine>(_alloc: Global, engine: &E, vector: &Vector) -> anyhow::Result<bool> {
        let expected = vector.field("MD")?;
        let mut digest = [0; DIGEST_BYTES];
        let answer = beetle::hash(engine, vector.field("Msg")?, &mut digest);
        Ok(answer.is_ok() && digest.as_slice() == expected)
    }
}
