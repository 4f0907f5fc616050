//! The judge of a recipe.
ghost use Rattle.std.specs.Prelude.{◌≡◌};
ghost use Rattle.recipe.specs.Laws.{Judged};
ghost use Rattle.recipe.specs.Verdict.{walked, verdict};

use crate::placed::PlacedLines;
use crate::trough::Phase;
use refusal::Refusal;

/// All doses of a recipe together weigh at most this.
pub const MOST_GRAMS: u32 = 12_000_000;

/// What is lawful in a recipe: how many lines it has, and how many grams they dose.
#[derive(Clone, Copy, PartialEq, Eq, Debug)]
pub struct Lawful {
    /// Lines, of every letter.
    pub lines: usize,
    /// The sum of the doses.
    pub grams: u32,
}

/// Walks over every line of a recipe, from the empty trough to the empty trough.
/// The sum of the grams stops at the end of its type, far above what is lawful.
fn walk(recipe: &[u8]) -> Result<Lawful, Refusal>
    ensures { result ≡ walked recipe.now }
{
    let mut phase = Phase::Empty;
    let mut lines = 0;
    let mut grams = 0u32;
    for placed in PlacedLines::new(recipe) {
        let (place, line) = placed?;
        phase = phase.step(line).ok_or(Refusal::WrongPhase(place))?;
        lines += 1;
        grams = grams.saturating_add(line.grams());
    }
    if phase != Phase::Empty {
        return Err(Refusal::WrongPhase(recipe.len()));
    }
    Ok(Lawful { lines, grams })
}

/// Judges a recipe: what is lawful in it, or its first fault from the left. The total comes last.
pub fn judge(recipe: &[u8]) -> Result<Lawful, Refusal>
    ensures value { result ≡ verdict recipe.now }
    ensures laws { Judged recipe.now result }
{
    let found = walk(recipe)?;
    if found.grams > MOST_GRAMS {
        return Err(Refusal::OverTotal);
    }
    Ok(found)
}
