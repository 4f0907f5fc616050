//! `lochgrater cipher seal|open`: the raw cipher on files, for comparison with other makes.
mod words;

use crate::failure::{Failure, InFile};
use crate::input::read_up_to;
use crate::output::write_whole;
use beetle::{LONGEST_TEXT, Rate, Rate32, Rate128, TAG_BYTES};
use photon::TableEngine;
use refusal::Refusal;
use words::{Bits, Words};

/// What is done with a text: it is sealed or opened. The two calls that take any rate are each a method, since a closure
/// has one rate.
trait Work {
    /// The bytes of the longest input.
    const LONGEST: usize;

    /// How long the output of an input of `size` bytes is.
    fn out_size(size: usize) -> usize;

    fn apply<R: Rate>(secrets: &Secrets, text: &[u8], out: &mut [u8]) -> Result<(), Refusal>;
}

struct Sealing;

impl Work for Sealing {
    const LONGEST: usize = LONGEST_TEXT;

    fn out_size(size: usize) -> usize {
        size.saturating_add(TAG_BYTES)
    }

    fn apply<R: Rate>(secrets: &Secrets, text: &[u8], out: &mut [u8]) -> Result<(), Refusal> {
        let Secrets { key, nonce, ad } = secrets;
        beetle::seal::<R, TableEngine>(&TableEngine, key, nonce, ad.as_slice(), text, out)
    }
}

struct Opening;

impl Work for Opening {
    const LONGEST: usize = LONGEST_TEXT + TAG_BYTES;

    fn out_size(size: usize) -> usize {
        size.saturating_sub(TAG_BYTES)
    }

    fn apply<R: Rate>(secrets: &Secrets, text: &[u8], out: &mut [u8]) -> Result<(), Refusal> {
        let Secrets { key, nonce, ad } = secrets;
        beetle::open::<R, TableEngine>(&TableEngine, key, nonce, ad.as_slice(), text, out)
    }
}

pub fn run<'a>(rt: &HostRuntime, words: &'a [String]) -> Result<(), Failure<'a>> {
    let [work, rest @ ..] = words else {
        return Err(Failure::Usage);
    };
    let words = Words::parse(rest).ok_or(Failure::Usage)?;
    match work.as_str() {
        "seal" => convert::<Sealing>(rt, &words),
        "open" => convert::<Opening>(rt, &words),
        _ => Err(Failure::Usage),
    }
}

fn convert<'a, W: Work>(rt: &HostRuntime, words: &Words<'a>) -> Result<(), Failure<'a>> {
    match words.bits {
        Bits::Of128 => convert_at::<W, Rate128>(rt, words),
        Bits::Of32 => convert_at::<W, Rate32>(rt, words),
    }
}

/// Reads the input, seals or opens it, and writes the output whole.
fn convert_at<'a, W: Work, R: Rate>(
    rt: &HostRuntime,
    words: &Words<'a>,
) -> Result<(), Failure<'a>> {
    let secrets = Secrets::read(rt, words)?;
    let text = read_up_to(rt, words.input, W::LONGEST)?;
    let mut out = vec![in rt.alloc(); 0u8; W::out_size(text.len())]?;
    W::apply::<R>(&secrets, text.as_slice(), out.as_mut_slice()).in_file(words.input)?;
    write_whole(rt, words.output, out.as_slice())
}

/// What a text is sealed or opened with.
#[derive(Drop)]
struct Secrets {
    key: [u8; 16],
    nonce: [u8; 16],
    ad: Vec<u8>,
}

impl Secrets {
    fn read<'a>(rt: &HostRuntime, words: &Words<'a>) -> Result<Secrets, Failure<'a>> {
        let nonce = hexadecimal::decode(rt.alloc(), words.nonce)?;
        let nonce = nonce.and_then(sixteen).ok_or(Failure::Usage)?;
        let key = words.key.read(rt, 16)?;
        let key = key.and_then(sixteen).ok_or(Failure::KeySize)?;
        let ad = words.ad.read(rt, LONGEST_TEXT)?.ok_or(Failure::Usage)?;
        Ok(Secrets { key, nonce, ad })
    }
}

/// The bytes, if they are sixteen.
fn sixteen(bytes: Vec<u8>) -> Option<[u8; 16]> {
    bytes.try_into().ok()
}
