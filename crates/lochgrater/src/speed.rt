//! `lochgrater speed`: the engines against each other in one run.
use photon::{BenchEngine, CellEngine, Engine, TableEngine};
use std::io;
use std::num::nearest_u64_to_f64;
use std::rt::Clock;
use std::time::Instant;

/// How many times each engine is timed; the best counts.
const TRIES: u32 = 5;

/// What `turns` permutations took, one after the other on one state.
#[derive(Clone, Copy)]
struct Timing {
    label: &'static str,
    nanos: u64,
    turns: u32,
}

impl Timing {
    /// The best of the tries.
    fn best<E: Engine>(
        rt: &(impl Eprint + Clock),
        engine: &E,
        label: &'static str,
        turns: u32,
    ) -> io::Result<Timing> {
        let mut state = [0; 32];
        let mut nanos = u64::MAX;
        for number in 1..=TRIES {
            eprintln!(rt; "timing the {label} engine, {number} of {TRIES} ..")?;
            nanos = nanos.min(nanos_taken(rt, engine, &mut state, turns)?);
        }
        let last = state[0];
        eprintln!(rt; "  (first byte of the last state: {last})")?;
        Ok(Timing {
            label,
            nanos,
            turns,
        })
    }

    fn per_turn(&self) -> f64 {
        nearest_u64_to_f64(self.nanos.max(1)) / f64::from(self.turns.max(1))
    }
}

fn nanos_taken<E: Engine>(
    rt: &impl Clock,
    engine: &E,
    state: &mut [u8; 32],
    turns: u32,
) -> io::Result<u64> {
    let start = Instant::now(rt)?;
    for i in 0..turns {
        // Which byte changes depends on the state, so that no compiler can leave a permutation out.
        let at = usize::from(state[0] % 32);
        // `as` after a mask: the low byte is wanted.
        state[at] ^= (i & 0xff) as u8;
        engine.permute(state);
    }
    let spent = start.elapsed(rt)?.as_nanos();
    Ok(u64::try_from(spent).unwrap_or(u64::MAX))
}

/// Prints nanoseconds a permutation, and how many times as fast as the cell engine that is.
pub fn compare(rt: &(impl Print + Eprint + Clock)) -> io::Result<()> {
    let cell = Timing::best(rt, &CellEngine, "cell", 10_000)?;
    let table = Timing::best(rt, &TableEngine, "table", 500_000)?;
    let bench = Timing::best(rt, &BenchEngine, "bench", 500_000)?;
    for timing in [cell, table, bench] {
        let label = timing.label;
        let each = timing.per_turn();
        let ratio = cell.per_turn() / each;
        println!(rt;
            "{label:<6} {each:>10.1} ns a permutation, {ratio:>7.1} times as fast as the cell engine"
        )?;
    }
    Ok(())
}
