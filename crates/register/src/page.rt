//! The number page: one text for every register.
//!
//! The count of runs in 2 bytes, then for each run its first number and its length, 2 bytes each,
//! sorted by first number; every number low byte first.
ghost use Rattle.std.specs.Prelude.{◌≡◌, ◌+◌, ◌*◌, ◌<◌, length, map, true, IfErr, IfOk, None, Ok, OnOk};
ghost use Rattle.std.specs.List.{flat_map};
ghost use Rattle.register.specs.Marked.{marks_answer, marks_after, numbers_of};
ghost use Rattle.register.specs.Page.{pair_bytes, page, write_answer, write_after, pair_in, page_count, page_pairs, pair_fault, page_fault, refused_at, load_answer, load_after, PagesTellSets, WrittenPagesLoad, BlankIsEmpty};
ghost use Rattle.register.specs.Runs.{runs, run_count, apart};
ghost use Rattle.register.specs.Spans.{pair_of};

use crate::Register;
use crate::spans::Span;
use refusal::Refusal;

/// How many runs the register has.
// Counting and writing both walk the runs: of a walk that lent each run to a closure, a caller would
// not know what the closure wrote.
fn count_runs<R: Register>(register: &R) -> u16
    ensures { result ≡ run_count (R.meaning register.now).used }
{
    let mut count = 0;
    let mut from = 0;
    while let Some((first, len)) = register.next_run(from) {
        count += 1;
        from = first + len;
    }
    count
}

/// Writes the register's runs, which fill the buffer.
fn put_runs<R: Register>(register: &R, out: &mut [u8])
    requires { length out.old ≡ 4 * run_count (R.meaning register.now).used }
    ensures { out.new ≡ flat_map pair_bytes (runs (R.meaning register.now).used) }
{
    // The place is counted: of a part of the buffer that moved along with the loop, nothing would be
    // known after it.
    let mut place = 0;
    let mut from = 0;
    while let Some((first, len)) = register.next_run(from) {
        out[place..place + 4].copy_from_slice(&<[u8; 4]>::from(Span { first, len }));
        place += 4;
        from = first + len;
    }
}

/// Writes the register's number page, and answers its length. Bytes past the page are left.
#[tactic(auto, using(crate::proofs::Pages::pages_tell_sets, crate::proofs::Writing::length_page))]
pub fn write<R: Register>(register: &R, out: &mut [u8]) -> Result<usize, Refusal>
    ensures answer { result ≡ write_answer (R.meaning register.now).used out.old }
    ensures after { out.new ≡ write_after (R.meaning register.now).used out.old }
    ensures law { PagesTellSets }
{
    let count = count_runs(register);
    let size = 2 + 4 * usize::from(count);
    if out.len() < size {
        return Err(Refusal::BufferTooShort);
    }
    out[..2].copy_from_slice(&count.to_le_bytes());
    put_runs(register, &mut out[2..size]);
    Ok(size)
}

/// Refuses the first pair that is empty, ends above 4,096 or leaves no gap after the pair before.
fn judge_pairs(pairs: &[[u8; 4]]) -> Result<(), Refusal>
    ensures { result ≡ refused_at (pair_fault 0 2 (map pair_in pairs.now)) }
{
    let mut least = 0;
    for (i, pair) in pairs.iter().enumerate() {
        let span = Span::from(*pair);
        if !span.fits(least) {
            return Err(Refusal::BadPage(2 + 4 * i));
        }
        least = span.least_after();
    }
    Ok(())
}

/// The pairs of a page with no fault, or its first fault from the left.
fn sound_pairs(bytes: &[u8]) -> Result<&[[u8; 4]], Refusal>
    ensures sound { OnOk result (page_fault bytes.now ≡ None) }
    ensures pairs { IfOk result (λ pairs. map pair_in pairs.now ≡ page_pairs bytes.now) }
    ensures count { IfOk result (λ pairs. length pairs.now ≡ page_count bytes.now) }
    ensures fault { IfErr result (λ refusal. Err refusal ≡ refused_at (page_fault bytes.now)) }
{
    let [low, high, rest @ ..] = bytes else {
        return Err(Refusal::BadPage(0));
    };
    let (pairs, []) = rest.as_chunks::<4>() else {
        return Err(Refusal::BadPage(0));
    };
    let count = u16::from_le_bytes([*low, *high]);
    if pairs.len() != usize::from(count) {
        return Err(Refusal::BadPage(0));
    }
    judge_pairs(pairs)?;
    Ok(pairs)
}

/// Marks the numbers of a span one after another, up to the first that is refused.
fn mark_span<R: Register>(register: &mut R, span: Span) -> Result<(), Refusal>
    requires { span.first + span.len < 65536 }
    ensures answer { result ≡ marks_answer (R.meaning register.old) (numbers_of (pair_of span)) }
    ensures after { R.meaning register.new ≡ marks_after (R.meaning register.old) (numbers_of (pair_of span)) }
{
    for n in span.first..span.first + span.len {
        register.mark(n)?;
    }
    Ok(())
}

/// Marks the numbers of the pairs one after another, up to the first that is refused.
fn mark_pairs<R: Register>(register: &mut R, pairs: &[[u8; 4]]) -> Result<(), Refusal>
    requires { apart 0 (map pair_in pairs.now) ≡ true }
    ensures answer { result ≡ marks_answer (R.meaning register.old) (flat_map numbers_of (map pair_in pairs.now)) }
    ensures after { R.meaning register.new ≡ marks_after (R.meaning register.old) (flat_map numbers_of (map pair_in pairs.now)) }
{
    for pair in pairs {
        mark_span(register, Span::from(*pair))?;
    }
    Ok(())
}

/// Gives a blank register the numbers of a page, or refuses and changes nothing.
#[tactic(auto, using(crate::proofs::Pages::written_pages_load, crate::proofs::Pages::blank_is_empty))]
pub fn load<R: Register>(register: &mut R, bytes: &[u8]) -> Result<(), Refusal>
    ensures answer { result ≡ load_answer (R.meaning register.old) bytes.now }
    ensures after { R.meaning register.new ≡ load_after (R.meaning register.old) bytes.now }
    ensures back { result ≡ Ok tt → page (R.meaning register.new).used ≡ bytes.now }
    ensures written { WrittenPagesLoad }
    ensures blank { BlankIsEmpty }
{
    if register.next_run(0).is_some() {
        return Err(Refusal::NotBlank);
    }
    let pairs = sound_pairs(bytes)?;
    if pairs.len() > usize::from(register.limit()) {
        return Err(Refusal::TooManyRuns);
    }
    mark_pairs(register, pairs)
}
