//! Runs the vectors of a file over the cell and the table engine.
use crate::layout::Vector;
use photon::{CellEngine, Engine, TableEngine};
use std::alloc::Global;
use std::io;

/// What the vectors of one kind are checked for.
pub trait Check {
    /// What is said of those that pass.
    const PASSED: &'static str;

    fn passes<E: Engine>(alloc: Global, engine: &E, vector: &Vector) -> anyhow::Result<bool>;
}

/// Whether every vector passes. Those that do are counted, and the others named.
/// Label, file and vectors stand apart: a struct for them would have this one use.
fn run_over<C: Check, E: Engine>(
    rt: &(impl Print + AllocGlobal),
    engine: &E,
    label: &str,
    file: &str,
    vectors: &[Vector],
) -> anyhow::Result<bool> {
    let mut passed = 0usize;
    for vector in vectors {
        if C::passes(rt.alloc(), engine, vector)? {
            passed = passed.saturating_add(1);
        } else {
            let count = vector.count.as_str();
            println!(rt; "{file}: Count = {count} disagrees over the {label} engine")?;
        }
    }
    let all = vectors.len();
    let what = C::PASSED;
    println!(rt; "{file}: {passed} of {all} {what} over the {label} engine")?;
    Ok(passed == all)
}

/// Whether every vector passes over both engines.
pub fn run<C: Check>(
    rt: &(impl Print + AllocGlobal),
    file: &str,
    vectors: &[Vector],
) -> anyhow::Result<bool> {
    let cell = run_over::<C, _>(rt, &CellEngine, "cell", file, vectors)?;
    let table = run_over::<C, _>(rt, &TableEngine, "table", file, vectors)?;
    Ok(cell && table)
}
