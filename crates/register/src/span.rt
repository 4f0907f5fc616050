//! The span register: at most 64 spans, sorted by first number, with a gap between neighbours.
ghost use Rattle.std.specs.Prelude.{◌≡◌, ◌<◌, ◌≤◌, true, false};
ghost use Rattle.register.specs.LawfulRegisters.{span_lawful};
ghost use Rattle.register.specs.Marked.{mark_answer, mark_after};
ghost use Rattle.register.specs.Runs.{apart, blank_register, covered};
ghost use Rattle.register.specs.Spans.{listed, span_meaning};

use crate::spans::{SPANS, Span, Spans, before, covers, touches_at, touches_before};
use crate::{NUMBERS, Register, check_new};
use refusal::Refusal;

/// Keeps each run of used numbers as one span.
#[derive(Drop)]
pub struct SpanRegister {
    spans: Spans,
    ghost few: { spans.count ≤ 64 },
    ghost ordered: { apart 0 (listed spans) ≡ true },
}

impl SpanRegister {
    /// One run a span. `as`, since no `From` runs in a constant.
    const LIMIT: u16 = SPANS as u16;

    /// A blank register.
    pub fn new() -> SpanRegister
        ensures { span_meaning result.spans ≡ blank_register 64 }
    {
        SpanRegister {
            spans: Spans::new(),
        }
    }

    /// Whether `n` is used. No span is read for a number above 4,095.
    fn holds(&self, n: u16) -> bool
        ensures { result ≡ covered (listed self.now.spans) n }
    {
        n < NUMBERS && covers(self.spans.as_slice(), n)
    }

    /// Adds a number that no span holds. It looks for spans to join before it counts them.
    fn add(&mut self, n: u16) -> Result<(), Refusal>
        requires small { n < 4096 }
        requires new { covered (listed self.old.spans) n ≡ false }
        ensures answer { result ≡ mark_answer (span_meaning self.old.spans) n }
        ensures after { span_meaning self.new.spans ≡ mark_after (span_meaning self.old.spans) n }
    {
        let spans = self.spans.as_slice();
        let i = before(spans, n);
        match (touches_before(spans, i, n), touches_at(spans, i, n)) {
            (true, true) => self.spans.join(i - 1),
            (true, false) => self.spans.lengthen(i - 1, 1),
            (false, true) => self.spans.advance(i),
            (false, false) => {
                if spans.len() == SPANS {
                    return Err(Refusal::TooManyRuns);
                }
                self.spans.insert(i, Span { first: n, len: 1 });
            }
        }
        Ok(())
    }
}

impl Register for SpanRegister {
    ghost meaning = { λ s. span_meaning s.spans };

    ghost lawful = { λ s. span_lawful s.spans s.ordered };

    fn ask(&self, n: u16) -> bool {
        self.holds(n)
    }

    fn mark(&mut self, n: u16) -> Result<(), Refusal> {
        check_new(n, self.holds(n))?;
        self.add(n)
    }

    fn next_run(&self, n: u16) -> Option<(u16, u16)> {
        let spans = self.spans.as_slice();
        let span = spans.get(before(spans, n))?;
        Some((span.first, span.len))
    }

    fn limit(&self) -> u16 {
        Self::LIMIT
    }
}
