//! Runs test vectors in the layout of the designers' known-answer files: blocks of lines `NAME = VALUE`, a blank line after each.
//!
//! The files in `data/` were computed by an independent model of the published text. They are a cross-check of two
//! implementations, not the designers' word; the designers' own files run here unchanged.
#![tactic(auto)]

mod checking;
mod hashes;
mod layout;
mod sealings;

use anyhow::{bail, ensure};
use beetle::{Rate32, Rate128};
use hashes::Digests;
use sealings::Sealings;
use std::{env, fs};

const HELP: &str = "usage: vectors KIND FILE ..  (KIND: hash, seal128, seal32)";

/// Runs every vector of a file, and names those that disagree.
fn run_file(rt: &HostRuntime, kind: &str, name: &str) -> anyhow::Result<bool> {
    let text = fs::read_to_string(rt, name)?;
    let vectors = layout::parse(rt.alloc(), text.as_str())?;
    match kind {
        "hash" => checking::run::<Digests>(rt, name, vectors.as_slice()),
        "seal128" => checking::run::<Sealings<Rate128>>(rt, name, vectors.as_slice()),
        "seal32" => checking::run::<Sealings<Rate32>>(rt, name, vectors.as_slice()),
        _ => bail!("{HELP}"),
    }
}

fn main(rt: HostRuntime) -> anyhow::Result<()> {
    let rows = figures::rows();
    println!(rt; "figures: {rows} worked figures, each proved")?;
    let words: Vec<String> = env::args(&rt)?.skip(1).collect(rt.alloc())?;
    let mut all_agree = true;
    for pair in words.as_slice().chunks(2) {
        let [kind, name] = pair else {
            bail!("{HELP}");
        };
        all_agree &= run_file(&rt, kind.as_str(), name.as_str())?;
    }
    ensure!(all_agree, "some vectors disagree");
    Ok(())
}
