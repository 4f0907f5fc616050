//! What a recipe's bytes say, and whether they may be run.
#![tactic(auto)]

mod lines;
mod placed;
mod text;
mod trough;
mod verdict;

pub use lines::{Line, read_line, write_line};
pub use placed::PlacedLines;
pub use text::{NotALine, parse_line};
pub use trough::Phase;
pub use verdict::{Lawful, MOST_GRAMS, judge};

#[cfg(test)]
mod tests;
