//! A table of spans. It keeps no order of its own: the span register around it does.
ghost use Rattle.std.specs.Prelude.{◌≡◌, ℕ, ◌+◌, ◌<◌, ◌≤◌, ◌==◌, [], length, slice_set, take, true};
ghost use Rattle.std.specs.List.{insert, remove};
ghost use Rattle.register.specs.Page.{pair_bytes, pair_in};
ghost use Rattle.register.specs.Runs.{apart, covered, fits, within};
ghost use Rattle.register.specs.Spans.{advanced, lengthened, listed, pair_at, pair_of, pairs_of, touches_at, touches_before};

use crate::NUMBERS;

/// How many spans a table holds.
pub(crate) const SPANS: usize = 64;

/// `len` numbers that follow one another from `first` on.
// Calls that lengthen a span ask that its numbers have room. A bound inside the span would be asked for in their place.
#[derive(Clone, Copy, Debug, PartialEq, Eq)]
pub(crate) struct Span {
    pub(crate) first: u16,
    pub(crate) len: u16,
}

impl Span {
    /// Whether `n` is one of the span's numbers.
    fn holds(&self, n: u16) -> bool
        ensures { result ≡ within (pair_of self.now) n }
    {
        self.first <= n && n - self.first < self.len
    }

    /// Whether the span begins at `least` or later, is not empty, and ends at 4,096 at the most.
    pub(crate) fn fits(&self, least: u16) -> bool
        ensures { result ≡ fits least (pair_of self.now) }
    {
        least <= self.first
            && 0 < self.len
            && self.first <= NUMBERS
            && self.len <= NUMBERS - self.first
    }

    /// Where the next span may begin at the earliest, with a gap between the two.
    pub(crate) fn least_after(&self) -> u16
        requires { self.now.first + self.now.len + 1 < 65536 }
        ensures { result ≡ self.now.first + self.now.len + 1 }
    {
        self.first + self.len + 1
    }

    /// Whether `n` is the number right after the span.
    fn ends_before(&self, n: u16) -> bool
        ensures { result ≡ (self.now.first + self.now.len == n) }
    {
        self.first <= n && n - self.first == self.len
    }

    /// Takes in `by` more numbers at the end.
    fn grow(&mut self, by: u16)
        requires { self.old.len + by < 65536 }
        ensures { pair_of self.new ≡ lengthened (pair_of self.old) by }
    {
        self.len += by;
    }

    /// Takes in the number before the first.
    fn advance(&mut self)
        requires some { 0 < self.old.first }
        requires short { self.old.len + 1 < 65536 }
        ensures { pair_of self.new ≡ advanced (pair_of self.old) }
    {
        self.first -= 1;
        self.len += 1;
    }
}

/// A span of the four bytes that stand for it on a number page.
impl From<[u8; 4]> for Span {
    ghost from_gives = { λ bytes span. pair_of span ≡ pair_in bytes };

    fn from([a, b, c, d]: [u8; 4]) -> Span {
        Span {
            first: u16::from_le_bytes([a, b]),
            len: u16::from_le_bytes([c, d]),
        }
    }
}

/// The span as it stands on a number page.
impl From<Span> for [u8; 4] {
    ghost from_gives = { λ span bytes. bytes ≡ pair_bytes (pair_of span) };

    fn from(span: Span) -> [u8; 4] {
        let [a, b] = span.first.to_le_bytes();
        let [c, d] = span.len.to_le_bytes();
        [a, b, c, d]
    }
}

/// Whether one of the spans holds `n`.
pub(crate) fn covers(spans: &[Span], n: u16) -> bool
    ensures { result ≡ covered (pairs_of spans.now) n }
{
    spans.iter().any(|span| span.holds(n))
}

/// How many of the spans, which are sorted, begin before `n`.
pub(crate) fn before(spans: &[Span], n: u16) -> usize
    requires { apart 0 (pairs_of spans.now) ≡ true }
    ensures bound { result ≤ length spans.now }
    ensures earlier { (k : ℕ) → k < result → (pair_at (pairs_of spans.now) k).0 < n }
    ensures later { result < length spans.now → n ≤ (pair_at (pairs_of spans.now) result).0 }
{
    spans.partition_point(|span| span.first < n)
}

/// Whether there is a span before place `i`, and `n` is the number right after it.
pub(crate) fn touches_before(spans: &[Span], i: usize, n: u16) -> bool
    requires { i ≤ length spans.now }
    ensures { result ≡ touches_before (pairs_of spans.now) i n }
{
    spans[..i].last().is_some_and(|span| span.ends_before(n))
}

/// Whether there is a span at place `i`, and `n` is the number right before it.
pub(crate) fn touches_at(spans: &[Span], i: usize, n: u16) -> bool
    requires { n < 4096 }
    ensures { result ≡ touches_at (pairs_of spans.now) i n }
{
    spans.get(i).is_some_and(|span| span.first == n + 1)
}

/// The first `count` spans of the table.
// A table and a count: there is no heap here, and so no `Vec`. It has no rule of its own, so calls ask that the count is
// at most 64; the register around it knows.
#[derive(Drop)]
pub(crate) struct Spans {
    table: [Span; SPANS],
    count: usize,
}

impl Spans {
    pub(crate) fn new() -> Spans
        ensures spans { listed result ≡ [] }
        ensures count { result.count ≡ 0 }
    {
        Spans {
            table: [Span { first: 0, len: 0 }; SPANS],
            count: 0,
        }
    }

    /// The spans.
    pub(crate) fn as_slice(&self) -> &[Span]
        requires { self.now.count ≤ 64 }
        ensures spans { result.now ≡ take self.now.count self.now.table }
        ensures count { length result.now ≡ self.now.count }
    {
        &self.table[..self.count]
    }

    /// Lengthens the span at `i`, and no other.
    pub(crate) fn lengthen(&mut self, i: usize, by: u16)
        requires inside { i < length (listed self.old) }
        requires short { (pair_at (listed self.old) i).1 + by < 65536 }
        ensures spans { listed self.new ≡ slice_set (listed self.old) i (lengthened (pair_at (listed self.old) i) by) }
        ensures count { self.new.count ≡ self.old.count }
    {
        let span = &mut self.table[i];
        span.grow(by);
    }

    /// Lets the span at `i`, and no other, begin one number earlier.
    pub(crate) fn advance(&mut self, i: usize)
        requires inside { i < length (listed self.old) }
        requires some { 0 < (pair_at (listed self.old) i).0 }
        requires short { (pair_at (listed self.old) i).1 + 1 < 65536 }
        ensures spans { listed self.new ≡ slice_set (listed self.old) i (advanced (pair_at (listed self.old) i)) }
        ensures count { self.new.count ≡ self.old.count }
    {
        let span = &mut self.table[i];
        span.advance();
    }

    /// Puts a span in at `i`.
    pub(crate) fn insert(&mut self, i: usize, span: Span)
        requires inside { i ≤ self.old.count }
        requires room { self.old.count < 64 }
        ensures spans { listed self.new ≡ insert (listed self.old) i (pair_of span) }
        ensures count { self.new.count ≡ self.old.count + 1 }
    {
        self.table[i..self.count + 1].rotate_right(1);
        self.table[i] = span;
        self.count += 1;
    }

    /// Takes the span at `i` out.
    fn remove(&mut self, i: usize)
        requires inside { i < self.old.count }
        requires few { self.old.count ≤ 64 }
        ensures spans { listed self.new ≡ remove (listed self.old) i }
        ensures count { self.new.count + 1 ≡ self.old.count }
    {
        self.table[i..self.count].rotate_left(1);
        self.count -= 1;
    }

    /// Makes one span of the spans at `i` and `i + 1` and the one number between them.
    pub(crate) fn join(&mut self, i: usize)
        requires inside { i + 1 < self.old.count }
        requires few { self.old.count ≤ 64 }
        requires short { (pair_at (listed self.old) i).1 + ((pair_at (listed self.old) (i + 1)).1 + 1) < 65536 }
        ensures spans { listed self.new ≡ remove (slice_set (listed self.old) i (lengthened (pair_at (listed self.old) i) ((pair_at (listed self.old) (i + 1)).1 + 1))) (i + 1) }
        ensures count { self.new.count + 1 ≡ self.old.count }
    {
        let more = self.table[i + 1].len + 1;
        self.lengthen(i, more);
        self.remove(i + 1);
    }
}
