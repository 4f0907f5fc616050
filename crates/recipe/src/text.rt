//! Lines as plain text.
ghost use Rattle.std.specs.Prelude.{◌≡◌, slice_index, Some, codes};
ghost use Rattle.recipe.specs.Lines.{says, within};
ghost use Rattle.recipe.specs.Text.{text_of, fields_of, printed, Parsed, Any, Dosing, Mixing, Remarking, TextBack};
ghost use Rattle.std.specs.Bool.{then_some};
ghost use Rattle.std.specs.Option.{option_map};
ghost use Rattle.std.specs.Result.{result_ok};

use crate::lines::Line;
use std::error::Error;
use std::fmt;
use std::str::from_utf8;

impl fmt::Display for Line<'_> {
    ghost output = { λ l. printed l };

    fn fmt<W: fmt::Write>(&self, f: &mut fmt::Formatter<W>) -> fmt::Result {
        match self {
            Line::Dose { bin, grams } => write!(f, "dose {bin} {grams}"),
            Line::Mix { seconds } => write!(f, "mix {seconds}"),
            Line::Empty => write!(f, "empty"),
            Line::Remark(bytes) => match from_utf8(bytes) {
                Ok(text) => write!(f, "remark {text}"),
                Err(_) => write!(f, "remark"),
            },
        }
    }
}

/// The text, if it begins with a digit from 1 to 9: no sign then, and no 0 in front of a number.
fn plain(text: &str) -> Option<&str>
    ensures { option_map (λ t. t.now) result ≡ then_some (within 0x31 0x39 (slice_index text.now 0)) text.now }
{
    matches!(text.as_bytes(), [b'1'..=b'9', ..]).then_some(text)
}

fn parse_dose(fields: &str) -> Option<Line<'_>>
    ensures { Parsed Dosing fields_of fields.now (option_map says result) }
{
    let (bin, grams) = fields.split_once(' ')?;
    let bin = plain(bin)?.parse().ok()?;
    let grams = plain(grams)?.parse().ok()?;
    Line::Dose { bin, grams }.checked()
}

fn parse_mix(fields: &str) -> Option<Line<'_>>
    ensures { Parsed Mixing fields_of fields.now (option_map says result) }
{
    let seconds = plain(fields)?.parse().ok()?;
    Line::Mix { seconds }.checked()
}

fn parse_remark(fields: &str) -> Option<Line<'_>>
    ensures { Parsed Remarking fields_of fields.now (option_map says result) }
{
    Line::Remark(fields.as_bytes()).checked()
}

/// Why a text cannot be taken for a line: it writes none.
#[derive(Clone, Copy, PartialEq, Eq, Debug)]
pub struct NotALine;

impl fmt::Display for NotALine {
    ghost output = { λ _. Some (codes "not a line of a recipe") };

    fn fmt<W: fmt::Write>(&self, f: &mut fmt::Formatter<W>) -> fmt::Result {
        write!(f, "not a line of a recipe")
    }
}

impl Error for NotALine {}

/// The line that a plain text writes.
impl<'a> TryFrom<&'a str> for Line<'a> {
    type Error = NotALine;

    ghost try_from_gives = { λ text r. Parsed Any text_of text.now (option_map says (result_ok r)) };

    fn try_from(text: &'a str) -> Result<Self, NotALine>
        ensures value { Parsed Any text_of text.now (option_map says (result_ok result)) }
        ensures back { TextBack text.now (option_map says (result_ok result)) }
    {
        parse_line(text).ok_or(NotALine)
    }
}

/// The line that a plain text writes, or `None` if it writes none.
/// `Line::try_from` answers the same with an error for `?`.
pub fn parse_line(text: &str) -> Option<Line<'_>>
    ensures value { Parsed Any text_of text.now (option_map says result) }
    ensures back { TextBack text.now (option_map says result) }
{
    if text == "empty" {
        Some(Line::Empty)
    } else if let Some(fields) = text.strip_prefix("dose ") {
        parse_dose(fields)
    } else if let Some(fields) = text.strip_prefix("mix ") {
        parse_mix(fields)
    } else if let Some(fields) = text.strip_prefix("remark ") {
        parse_remark(fields)
    } else {
        None
    }
}
