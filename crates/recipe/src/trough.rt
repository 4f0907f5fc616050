//! The trough: the vat that a recipe fills, mixes and empties.
ghost use Rattle.std.specs.Prelude.{◌≡◌};
ghost use Rattle.recipe.specs.Lines.{says};
ghost use Rattle.recipe.specs.Trough.{step_of};

use crate::lines::Line;

/// What the trough holds: nothing, doses that are not mixed yet, or a mix.
#[derive(Clone, Copy, PartialEq, Eq, Debug)]
pub enum Phase {
    Empty,
    Filled,
    Mixed,
}

impl Phase {
    /// The phase that a line leads to, or `None` if the line is wrong for this phase.
    pub fn step(self, line: Line<'_>) -> Option<Phase>
        ensures { result ≡ step_of self (says line.entry) }
    {
        match (self, line) {
            (_, Line::Dose { .. }) => Some(Phase::Filled),
            (Phase::Filled | Phase::Mixed, Line::Mix { .. }) => Some(Phase::Mixed),
            (Phase::Mixed, Line::Empty) => Some(Phase::Empty),
            (phase, Line::Remark(_)) => Some(phase),
            _ => None,
        }
    }
}
