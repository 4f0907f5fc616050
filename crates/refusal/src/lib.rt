//! Why a call refuses. One enum for every layer; each case has a number, a layer and a byte place.
#![tactic(auto)]

ghost use Rattle.std.specs.Prelude.{◌≡◌, Some};
ghost use Rattle.refusal.specs.Line.{layer_name, reason_of, line};
ghost use Rattle.refusal.specs.Told.{told};

use std::error::Error;
use std::fmt;

/// The layer whose rule refused.
#[derive(Clone, Copy, PartialEq, Eq, Debug)]
pub enum Layer {
    Cipher,
    Card,
    Recipe,
    Register,
    Page,
}

impl Layer {
    /// The layer's name, in lower case.
    pub fn name(&self) -> &'static str
        ensures { result.now ≡ layer_name self.now }
    {
        match self {
            Layer::Cipher => "cipher",
            Layer::Card => "card",
            Layer::Recipe => "recipe",
            Layer::Register => "register",
            Layer::Page => "page",
        }
    }
}

impl fmt::Display for Layer {
    ghost output = { λ l. Some (layer_name l) };

    fn fmt<W: fmt::Write>(&self, f: &mut fmt::Formatter<W>) -> fmt::Result {
        let name = self.name();
        write!(f, "{name}")
    }
}

/// A refusal. A case that names a byte of its input carries that place.
#[derive(Clone, Copy, PartialEq, Eq, Debug)]
pub enum Refusal {
    /// 1: a text, its tag left out, is over 65,536 bytes.
    TextTooLong,
    /// 2: the output buffer of a cipher or hash call is too short.
    OutputTooShort,
    /// 3: the tag is missing (under 16 bytes) or differs.
    TagDiffers,
    /// 4: under 26 bytes, or it does not begin with CARD.
    NotACard,
    /// 5: a heading or recipe length is too large.
    LengthTooLarge,
    /// 6: the recipe is empty.
    EmptyRecipe,
    /// 7: the card's length is not the one that its lengths give.
    WrongCardLength,
    /// 8: the buffer is too short for the card, recipe or page.
    BufferTooShort,
    /// 9: unknown letter, cut line or field out of range, at the line that begins there.
    BadLine(usize),
    /// 10: a line that is wrong for the trough's phase, or a trough that is not empty at the end.
    WrongPhase(usize),
    /// 11: the doses sum to more than the trough takes.
    OverTotal,
    /// 12: the number is above 4,095.
    NumberTooLarge,
    /// 13: the number is used.
    NumberUsed,
    /// 14: more runs of used numbers than the register keeps.
    TooManyRuns,
    /// 15: the number page is wrong, at the pair that begins there.
    BadPage(usize),
    /// 16: the register is not blank.
    NotBlank,
}

impl Refusal {
    /// The refusal's number, 1 to 16.
    pub fn number(&self) -> u8
        ensures { result ≡ (told self.now).number }
    {
        match self {
            Refusal::TextTooLong => 1,
            Refusal::OutputTooShort => 2,
            Refusal::TagDiffers => 3,
            Refusal::NotACard => 4,
            Refusal::LengthTooLarge => 5,
            Refusal::EmptyRecipe => 6,
            Refusal::WrongCardLength => 7,
            Refusal::BufferTooShort => 8,
            Refusal::BadLine(_) => 9,
            Refusal::WrongPhase(_) => 10,
            Refusal::OverTotal => 11,
            Refusal::NumberTooLarge => 12,
            Refusal::NumberUsed => 13,
            Refusal::TooManyRuns => 14,
            Refusal::BadPage(_) => 15,
            Refusal::NotBlank => 16,
        }
    }

    /// The layer whose rule refused.
    pub fn layer(&self) -> Layer
        ensures { result ≡ (told self.now).layer }
    {
        match self {
            Refusal::TextTooLong | Refusal::OutputTooShort | Refusal::TagDiffers => Layer::Cipher,
            Refusal::NotACard
            | Refusal::LengthTooLarge
            | Refusal::EmptyRecipe
            | Refusal::WrongCardLength
            | Refusal::BufferTooShort => Layer::Card,
            Refusal::BadLine(_) | Refusal::WrongPhase(_) | Refusal::OverTotal => Layer::Recipe,
            Refusal::NumberTooLarge | Refusal::NumberUsed | Refusal::TooManyRuns => Layer::Register,
            Refusal::BadPage(_) | Refusal::NotBlank => Layer::Page,
        }
    }

    /// The byte place of the fault; 0 where the case names none.
    pub fn place(&self) -> usize
        ensures { result ≡ (told self.now).place }
    {
        match self {
            Refusal::BadLine(place) | Refusal::WrongPhase(place) | Refusal::BadPage(place) =>
                *place,
            _ => 0,
        }
    }

    /// The reason, in a few plain words.
    pub fn reason(&self) -> &'static str
        ensures { result.now ≡ reason_of self.now }
    {
        match self {
            Refusal::TextTooLong => "the text is over 65,536 bytes",
            Refusal::OutputTooShort => "the output buffer is too short",
            Refusal::TagDiffers => "the tag is missing or differs",
            Refusal::NotACard => "this is not a card",
            Refusal::LengthTooLarge => "a length is too large",
            Refusal::EmptyRecipe => "the recipe is empty",
            Refusal::WrongCardLength => "the card has the wrong length",
            Refusal::BufferTooShort => "the buffer is too short",
            Refusal::BadLine(_) => "unknown letter, cut line or field out of range",
            Refusal::WrongPhase(_) => {
                "the line is wrong for the trough's phase, or the trough is not empty at the end"
            }
            Refusal::OverTotal => "the doses sum to over 12,000,000 g",
            Refusal::NumberTooLarge => "the number is above 4,095",
            Refusal::NumberUsed => "the number is used",
            Refusal::TooManyRuns => "more runs of used numbers than the register keeps",
            Refusal::BadPage(_) => "the number page is wrong",
            Refusal::NotBlank => "the register is not blank",
        }
    }
}

/// The one form in which every program prints a refusal. By hand: a derive states nothing of its text.
impl fmt::Display for Refusal {
    ghost output = { λ e. Some (line e) };

    fn fmt<W: fmt::Write>(&self, f: &mut fmt::Formatter<W>) -> fmt::Result {
        let number = self.number();
        let layer = self.layer();
        let place = self.place();
        let reason = self.reason();
        write!(
            f,
            "refused by {number}, layer {layer}, place {place}: {reason}"
        )
    }
}

impl Error for Refusal {}
