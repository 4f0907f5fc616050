//! `lochgrater page FILE`: the runs of a number page.
use crate::failure::{Failure, InFile};
use crate::input::read_up_to;
use register::{ChartRegister, NUMBERS, Register, SpanRegister, page};
use std::{io, iter};

/// The bytes of the longest page that a count of two bytes can ask for.
const LONGEST_PAGE: usize = 2 + 4 * 65_535;

pub fn run<'a>(rt: &HostRuntime, words: &'a [String]) -> Result<(), Failure<'a>> {
    let (kind, name) = match words {
        [name] => ("chart", name.as_str()),
        [option, kind, name] | [name, option, kind] if option.as_str() == "--register" => {
            (kind.as_str(), name.as_str())
        }
        _ => return Err(Failure::Usage),
    };
    match kind {
        "chart" => show(rt, name, ChartRegister::new()),
        "span" => show(rt, name, SpanRegister::new()),
        _ => Err(Failure::Usage),
    }
}

/// Loads a page into a blank register and prints what the register tells.
fn show<'a, R: Register + Drop>(
    rt: &HostRuntime,
    name: &'a str,
    mut register: R,
) -> Result<(), Failure<'a>> {
    let bytes = read_up_to(rt, name, LONGEST_PAGE)?;
    page::load(&mut register, bytes.as_slice()).in_file(name)?;
    print_runs(rt, &register)?;
    Ok(())
}

fn print_runs<R: Register>(rt: &impl Print, register: &R) -> io::Result<()> {
    let runs = iter::successors(register.next_run(0), |run| {
        let (first, len) = *run;
        register.next_run(first.saturating_add(len))
    });
    let mut used = 0u16;
    let mut count = 0u16;
    for (first, len) in runs.take(usize::from(NUMBERS)) {
        let last = first.saturating_add(len).saturating_sub(1);
        println!(rt; "{first}-{last} {len}")?;
        used = used.saturating_add(len);
        count = count.saturating_add(1);
    }
    let free = NUMBERS.saturating_sub(used);
    println!(rt; "{used} used, {free} free, {count} runs")
}
