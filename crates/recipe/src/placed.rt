//! The lines of a recipe in their order, each with the byte place where it begins.
ghost use Rattle.std.specs.Prelude.{◌≡◌, ◌≤◌, length};

use crate::lines::{Line, read_line};
use refusal::Refusal;

/// What is left of a recipe that is read line by line.
/// Where bytes are left that no line stands in front of, the last item is their refusal.
#[derive(Debug, Drop)]
pub struct PlacedLines<'a> {
    recipe: &'a [u8],
    rest: &'a [u8],
    ghost rest_of_recipe: { length rest.now ≤ length recipe.now },
}

impl<'a> PlacedLines<'a> {
    ghost use Rattle.recipe.specs.Verdict.{held};
    ghost use Rattle.recipe.specs.Placed.{placed, placed_left};

    /// All the lines of a recipe.
    pub fn new(recipe: &'a [u8]) -> Self
        ensures { placed_left result ≡ placed 0 (held recipe.now) }
    {
        PlacedLines {
            recipe,
            rest: recipe,
        }
    }
}

impl<'a> Iterator for PlacedLines<'a> {
    ghost use Rattle.std.specs.Iterator.{YieldsFirstBy, item_count};
    ghost use Rattle.recipe.specs.Placed.{placed_left, placed_says};

    type Item = Result<(usize, Line<'a>), Refusal>;

    ghost next_gives = { YieldsFirstBy placed_says placed_left };

    ghost remaining = { item_count placed_left };

    // A wide value, as in `read_line`.
    #[inline(always)]
    fn next(&mut self) -> Option<Result<(usize, Line<'a>), Refusal>> {
        if self.rest.is_empty() {
            return None;
        }
        let place = self.recipe.len() - self.rest.len();
        let Some((line, after)) = read_line(self.rest) else {
            self.rest = &[];
            return Some(Err(Refusal::BadLine(place)));
        };
        self.rest = after;
        Some(Ok((place, line)))
    }
}
