//! The words after `cipher seal` and `cipher open`.
use crate::failure::Failure;
use crate::input::read_up_to;

/// The rates delivered, by their bits.
#[derive(Clone, Copy)]
pub enum Bits {
    Of128,
    Of32,
}

/// Bytes that are given as a word in hexadecimal digits, or in a file.
#[derive(Clone, Copy)]
pub enum Given<'a> {
    Word(&'a str),
    File(&'a str),
}

impl<'a> Given<'a> {
    /// The bytes: of a file at most one more than `longest`; `None` where a word is not hexadecimal.
    pub fn read(self, rt: &HostRuntime, longest: usize) -> Result<Option<Vec<u8>>, Failure<'a>> {
        match self {
            Given::Word(text) => Ok(hexadecimal::decode(rt.alloc(), text)?),
            Given::File(name) => Ok(Some(read_up_to(rt, name, longest)?)),
        }
    }
}

/// What the words say, all of it there.
#[derive(Clone, Copy)]
pub struct Words<'a> {
    pub bits: Bits,
    pub key: Given<'a>,
    pub nonce: &'a str,
    pub ad: Given<'a>,
    pub input: &'a str,
    pub output: &'a str,
}

/// What has been read so far.
#[derive(Clone, Copy, Default)]
struct Draft<'a> {
    bits: Option<Bits>,
    key: Option<Given<'a>>,
    nonce: Option<&'a str>,
    ad: Option<Given<'a>>,
    input: Option<&'a str>,
    output: Option<&'a str>,
}

impl<'a> Draft<'a> {
    /// Takes an option and its value; `None` if there is no such option, no such value, or the option was there before.
    fn option(&mut self, name: &str, value: &'a str) -> Option<()> {
        match (name, value) {
            ("--rate", "128") => set_once(&mut self.bits, Bits::Of128),
            ("--rate", "32") => set_once(&mut self.bits, Bits::Of32),
            ("--key", _) => set_once(&mut self.key, Given::Word(value)),
            ("--key-file", _) => set_once(&mut self.key, Given::File(value)),
            ("--nonce", _) => set_once(&mut self.nonce, value),
            ("--ad", _) => set_once(&mut self.ad, Given::Word(value)),
            ("--ad-file", _) => set_once(&mut self.ad, Given::File(value)),
            _ => None,
        }
    }

    /// Takes the name of a file: the input, then the output.
    fn name(&mut self, name: &'a str) -> Option<()> {
        set_once(&mut self.input, name).or_else(|| set_once(&mut self.output, name))
    }

    fn whole(self) -> Option<Words<'a>> {
        Some(Words {
            bits: self.bits?,
            key: self.key?,
            nonce: self.nonce?,
            ad: self.ad.unwrap_or(Given::Word("")),
            input: self.input?,
            output: self.output?,
        })
    }
}

/// Sets what is not set; `None` if it is.
fn set_once<T: Drop>(place: &mut Option<T>, value: T) -> Option<()> {
    if place.is_some() {
        return None;
    }
    *place = Some(value);
    Some(())
}

impl<'a> Words<'a> {
    /// `None` where the words make no sense.
    pub fn parse(words: &'a [String]) -> Option<Words<'a>> {
        let mut draft = Draft::default();
        let mut words = words.iter();
        while let Some(word) = words.next() {
            if word.as_str().starts_with("--") {
                draft.option(word.as_str(), words.next()?.as_str())?;
            } else {
                draft.name(word.as_str())?;
            }
        }
        draft.whole()
    }
}
