//! Sealings: fields Key, Nonce, AD, PT and CT, which is the ciphertext and then the tag.
use crate::checking::Check;
use crate::layout::Vector;
use anyhow::Context;
use beetle::{Rate, TAG_BYTES};
use photon::Engine;
use refusal::Refusal;
use std::alloc::{AllocError, Global};
use std::marker::PhantomData;

/// Whether sealing makes the vector's sealed text, which opens, and is refused with any byte changed.
pub struct Sealings<R>(PhantomData<R>);

impl<R: Rate> Check for Sealings<R> {
    const PASSED: &'static str = "sealings agree, open, and are refused with any byte changed,";

    fn passes<E: Engine>(alloc: Global, engine: &E, vector: &Vector) -> anyhow::Result<bool> {
        if !seals::<R, E>(alloc, engine, vector)? {
            return Ok(false);
        }
        let sealed = Sealed::of(alloc, vector)?;
        Ok(sealed.opens::<R, E>(alloc, engine)? && sealed.refuses_changes::<R, E>(alloc, engine)?)
    }
}

/// A key or a nonce.
fn sixteen(bytes: &[u8]) -> anyhow::Result<&[u8; 16]> {
    <&[u8; 16]>::try_from(bytes)
        .ok()
        .context("a key or a nonce has not 16 bytes")
}

/// Whether sealing the message makes the vector's sealed text.
fn seals<R: Rate, E: Engine>(alloc: Global, engine: &E, vector: &Vector) -> anyhow::Result<bool> {
    let key = sixteen(vector.field("Key")?)?;
    let nonce = sixteen(vector.field("Nonce")?)?;
    let message = vector.field("PT")?;
    let ad = vector.field("AD")?;
    let mut out = vec![in alloc; 0u8; message.len().saturating_add(TAG_BYTES)]?;
    let answer = beetle::seal::<R, E>(engine, key, nonce, ad, message, out.as_mut_slice());
    Ok(answer.is_ok() && out.as_slice() == vector.field("CT")?)
}

/// Everything that opening takes, and the message that it has to give.
/// One run of bytes, so that each is changed in turn; where the data ends is told beside it.
#[derive(Drop)]
struct Sealed<'a> {
    /// Key, nonce, associated data, sealed text.
    bytes: Vec<u8>,
    ad_len: usize,
    message: &'a [u8],
}

const CUT_SHORT: &str = "a vector is cut short";

/// What opening answers, and what it leaves in its output.
#[derive(Drop)]
struct Opened {
    answer: Result<(), Refusal>,
    out: Vec<u8>,
}

impl<'a> Sealed<'a> {
    fn of(alloc: Global, vector: &'a Vector) -> anyhow::Result<Sealed<'a>> {
        let mut bytes = Vec::new(alloc);
        for name in ["Key", "Nonce", "AD", "CT"] {
            bytes.extend_from_slice(vector.field(name)?)?;
        }
        let ad_len = vector.field("AD")?.len();
        let message = vector.field("PT")?;
        Ok(Sealed {
            bytes,
            ad_len,
            message,
        })
    }

    /// The same with one byte changed.
    fn with_changed(&self, alloc: Global, at: usize) -> Result<Sealed<'a>, AllocError> {
        let bytes = self.bytes.iter().enumerate();
        Ok(Sealed {
            bytes: bytes
                .map(|(i, b)| if i == at { *b ^ 1 } else { *b })
                .collect(alloc)?,
            ..*self
        })
    }

    fn open<R: Rate, E: Engine>(&self, alloc: Global, engine: &E) -> anyhow::Result<Opened> {
        let all = self.bytes.as_slice();
        let (key, rest) = all.split_first_chunk().context(CUT_SHORT)?;
        let (nonce, rest) = rest.split_first_chunk().context(CUT_SHORT)?;
        let (ad, text) = rest.split_at_checked(self.ad_len).context(CUT_SHORT)?;
        let mut out = vec![in alloc; 7u8; self.message.len()]?;
        let answer = beetle::open::<R, E>(engine, key, nonce, ad, text, out.as_mut_slice());
        Ok(Opened { answer, out })
    }

    /// Whether it opens to the message.
    fn opens<R: Rate, E: Engine>(&self, alloc: Global, engine: &E) -> anyhow::Result<bool> {
        let Opened { answer, out } = self.open::<R, E>(alloc, engine)?;
        Ok(answer.is_ok() && out.as_slice() == self.message)
    }

    /// Whether it is refused, with an output of zeros, once any one byte is changed.
    fn refuses_changes<R: Rate, E: Engine>(
        &self,
        alloc: Global,
        engine: &E,
    ) -> anyhow::Result<bool> {
        // The place itself is wanted: each byte is changed in a copy.
        for at in 0..self.bytes.len() {
            let Opened { answer, out } = self.with_changed(alloc, at)?.open::<R, E>(alloc, engine)?;
            if answer != Err(Refusal::TagDiffers) || out.iter().any(|b| *b != 0) {
                return Ok(false);
            }
        }
        Ok(true)
    }
}
