//! Which card numbers, 0 to 4,095, are used: two registers behind one trait, and the number page.
#![tactic(auto)]

ghost use Rattle.std.specs.Prelude.{◌≡◌, ◌<◌, false, if◌then◌else◌, nat_lt, Ok, Err, OnOk};
ghost use Rattle.refusal.specs.declared.Refusal.TheVariants.{NumberTooLarge, NumberUsed};
ghost use Rattle.register.specs.Marked.{mark_answer, mark_after};
ghost use Rattle.register.specs.Runs.{FirstRun, Lawful, Meaning, next_run};

use refusal::Refusal;

mod chart;
pub mod page;
mod span;
mod spans;
#[cfg(test)]
mod tests;

pub use chart::ChartRegister;
pub use span::SpanRegister;

/// Numbers are below this.
pub const NUMBERS: u16 = 4096;

/// Refuses a number above 4,095, and then one that is used.
fn check_new(n: u16, used: bool) -> Result<(), Refusal>
    ensures answer { result ≡ (if nat_lt 4095 n then Err NumberTooLarge else if used then Err NumberUsed else Ok tt) }
    ensures small { OnOk result (n < 4096) }
    ensures new { OnOk result (used ≡ false) }
{
    if n >= NUMBERS {
        return Err(Refusal::NumberTooLarge);
    }
    if used {
        return Err(Refusal::NumberUsed);
    }
    Ok(())
}

/// Keeps which numbers are used. A run is a longest unbroken stretch of used numbers.
pub trait Register {
    ghost meaning: { Self → Meaning };

    /// Whether `n` is used.
    fn ask(&self, n: u16) -> bool
        ensures { result ≡ (meaning self.now).used n };

    /// Adds `n` to the used numbers, or refuses and changes nothing.
    fn mark(&mut self, n: u16) -> Result<(), Refusal>
        ensures answer { result ≡ mark_answer (meaning self.old) n }
        ensures after { meaning self.new ≡ mark_after (meaning self.old) n };

    /// The first run that begins at `n` or later, as first number and length.
    fn next_run(&self, n: u16) -> Option<(u16, u16)>
        ensures value { result ≡ next_run (meaning self.now).used n }
        ensures first { FirstRun (meaning self.now).used n result };

    /// The most runs that the register keeps.
    fn limit(&self) -> u16
        ensures { result ≡ (meaning self.now).limit };

    ghost lawful: { (s : Self) → Lawful (meaning s) };
}
