//! The chart register: one bit a number.
ghost use Rattle.std.specs.Prelude.{◌≡◌, ◌-◌, ◌≤◌};
ghost use Rattle.register.specs.Chart.{charted, chart_meaning};
ghost use Rattle.register.specs.LawfulRegisters.{chart_lawful};
ghost use Rattle.register.specs.Runs.{begins, blank_register, stretch, AtMost2048Runs};

use crate::{NUMBERS, Register, check_new};
use refusal::Refusal;

/// Number `n` is bit `n % 64` of word `n / 64`.
#[derive(Drop)]
pub struct ChartRegister {
    words: [u64; 64],
}

impl ChartRegister {
    /// No set of numbers has more runs.
    const LIMIT: u16 = 2048;

    /// A blank register. Its limit of 2,048 runs refuses nothing, since no set has more.
    pub fn new() -> ChartRegister
        ensures blank { chart_meaning result.words ≡ blank_register 2048 }
        ensures enough { AtMost2048Runs }
    {
        ChartRegister { words: [0; 64] }
    }

    /// Whether `n` is used.
    fn holds(&self, n: u16) -> bool
        ensures { result ≡ charted self.now.words n }
    {
        n < NUMBERS && self.words[usize::from(n / 64)] >> (n % 64) & 1 == 1
    }

    /// Whether a run begins at `n`.
    fn begins(&self, n: u16) -> bool
        ensures { result ≡ begins (charted self.now.words) n }
    {
        self.holds(n) && (n == 0 || !self.holds(n - 1))
    }

    /// How many used numbers follow one another from `first` on.
    fn stretch(&self, first: u16) -> u16
        requires { first ≤ 4096 }
        ensures { result ≡ stretch (charted self.now.words) (4096 - first) first }
    {
        let end = (first..NUMBERS)
            .find(|n| !self.holds(*n))
            .unwrap_or(NUMBERS);
        end - first
    }
}

impl Register for ChartRegister {
    ghost meaning = { λ s. chart_meaning s.words };

    ghost lawful = { λ s. chart_lawful s.words };

    fn ask(&self, n: u16) -> bool {
        self.holds(n)
    }

    fn mark(&mut self, n: u16) -> Result<(), Refusal> {
        check_new(n, self.holds(n))?;
        self.words[usize::from(n / 64)] |= 1 << (n % 64);
        Ok(())
    }

    fn next_run(&self, n: u16) -> Option<(u16, u16)> {
        let first = (n..NUMBERS).find(|first| self.begins(*first))?;
        Some((first, self.stretch(first)))
    }

    fn limit(&self) -> u16 {
        Self::LIMIT
    }
}
