//! The lines of a recipe: reading one, and writing one.
ghost use Rattle.std.specs.Prelude.{◌≡◌, ◌+◌, ◌++◌, slice_index};
ghost use Rattle.recipe.specs.Lines.{says, grams_of, given, in_range, printable, all_printable, whole, dose_in, mix_in, remark_in, in_range_only, read_line, Told};
ghost use Rattle.std.specs.Option.{option_map};
ghost use Rattle.recipe.specs.Lines.{bytes_of, covering, covered, writing, written, ReadBack};

use refusal::Refusal;

// The functions marked `inline` take or return wide values, which would otherwise pass through memory.

/// One line of a recipe.
#[derive(Clone, Copy, PartialEq, Eq, Debug)]
pub enum Line<'a> {
    /// `D`: weigh that many grams out of a bin into the trough.
    Dose { bin: u8, grams: u32 },
    /// `M`: mix what is in the trough for that long.
    Mix { seconds: u16 },
    /// `E`: empty the trough.
    Empty,
    /// `R`: a text for the miller; the trough is left alone.
    Remark(&'a [u8]),
}

/// Whether a remark may hold the byte.
fn is_printable(b: u8) -> bool
    ensures { result ≡ printable b }
{
    matches!(b, b' '..=b'~')
}

fn all_printable(text: &[u8]) -> bool
    ensures { result ≡ all_printable text.now }
{
    text.iter().copied().all(is_printable)
}

impl Line<'_> {
    /// Whether each field lies in its range.
    pub fn in_range(&self) -> bool
        ensures { result ≡ in_range (says self.now) }
    {
        match self {
            Line::Dose { bin, grams } => matches!(*bin, 1..=32) && matches!(*grams, 1..=2_000_000),
            Line::Mix { seconds } => matches!(*seconds, 1..=3_600),
            Line::Empty => true,
            Line::Remark(text) => matches!(text.len(), 1..=80) && all_printable(text),
        }
    }

    /// The letter that the line begins with.
    pub fn letter(&self) -> char
        ensures { result ≡ slice_index (bytes_of (says self.now)) 0 }
    {
        match self {
            Line::Dose { .. } => 'D',
            Line::Mix { .. } => 'M',
            Line::Empty => 'E',
            Line::Remark(_) => 'R',
        }
    }

    /// The grams of a dose; 0 for any other line.
    pub fn grams(&self) -> u32
        ensures { result ≡ grams_of (says self.now) }
    {
        match self {
            Line::Dose { grams, .. } => *grams,
            _ => 0,
        }
    }

    /// The line, if its fields are in range.
    pub(crate) fn checked(self) -> Option<Self>
        ensures { option_map says result ≡ in_range_only (says self.entry) }
    {
        self.in_range().then_some(self)
    }
}

fn read_dose(after: &[u8]) -> Option<(Line<'_>, &[u8])>
    ensures { given result ≡ whole 5 (dose_in after.now) after.now }
{
    let [bin, a, b, c, d, rest @ ..] = after else {
        return None;
    };
    let grams = u32::from_le_bytes([*a, *b, *c, *d]);
    let line = Line::Dose { bin: *bin, grams }.checked()?;
    Some((line, rest))
}

fn read_mix(after: &[u8]) -> Option<(Line<'_>, &[u8])>
    ensures { given result ≡ whole 2 (mix_in after.now) after.now }
{
    let [a, b, rest @ ..] = after else {
        return None;
    };
    let seconds = u16::from_le_bytes([*a, *b]);
    let line = Line::Mix { seconds }.checked()?;
    Some((line, rest))
}

fn read_remark(after: &[u8]) -> Option<(Line<'_>, &[u8])>
    ensures { given result ≡ whole (1 + slice_index after.now 0) (remark_in after.now) after.now }
{
    let [size, more @ ..] = after else {
        return None;
    };
    let (text, rest) = more.split_at_checked(usize::from(*size))?;
    let line = Line::Remark(text).checked()?;
    Some((line, rest))
}

/// Reads one line: the line and the rest of the recipe, or that there is none.
#[inline(always)]
pub fn read_line(recipe: &[u8]) -> Option<(Line<'_>, &[u8])>
    ensures value { given result ≡ read_line recipe.now }
    ensures tells { Told recipe.now (given result) }
{
    let [letter, after @ ..] = recipe else {
        return None;
    };
    match char::from(*letter) {
        'D' => read_dose(after),
        'M' => read_mix(after),
        'E' => Some((Line::Empty, after)),
        'R' => read_remark(after),
        _ => None,
    }
}

/// Lays a line's head and its text over the front of a buffer, and tells how many bytes they are.
fn cover(head: &[u8], text: &[u8], out: &mut [u8]) -> Result<usize, Refusal>
    ensures value { result ≡ covering (head.now ++ text.now) out.old }
    ensures after { out.new ≡ covered (head.now ++ text.now) out.old }
{
    // A test and two ranges: through `get_mut` or `split_at_mut_checked` the proof loses what is written back.
    let size = head.len() + text.len();
    if out.len() < size {
        return Err(Refusal::BufferTooShort);
    }
    out[..head.len()].copy_from_slice(head);
    out[head.len()..size].copy_from_slice(text);
    Ok(size)
}

/// Writes a line's bytes at the front of a buffer, and tells how many.
/// A field out of range is refused first, then a buffer that is too short; the buffer is left alone then.
#[inline]
pub fn write_line(line: Line<'_>, out: &mut [u8]) -> Result<usize, Refusal>
    ensures value { result ≡ writing (says line.entry) out.old }
    ensures after { out.new ≡ written (says line.entry) out.old }
    ensures back { ReadBack (says line.entry) out.old out.new result }
{
    match line.checked().ok_or(Refusal::BadLine(0))? {
        Line::Dose { bin, grams } => {
            let [a, b, c, d] = grams.to_le_bytes();
            cover(&[b'D', bin, a, b, c, d], &[], out)
        }
        Line::Mix { seconds } => {
            let [a, b] = seconds.to_le_bytes();
            cover(&[b'M', a, b], &[], out)
        }
        Line::Empty => cover(b"E", &[], out),
        Line::Remark(text) => {
            let size = u8::try_from(text.len()).map_err(|_| Refusal::BadLine(0))?;
            cover(&[b'R', size], text, out)
        }
    }
}
