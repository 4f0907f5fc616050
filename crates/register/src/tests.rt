//! Marks and pages, run on both registers.
use crate::{ChartRegister, NUMBERS, Register, SpanRegister, page};
use refusal::Refusal;
use std::process::Abort;
use std::test::Fail;

/// A page of 64 runs.
const FULL: usize = 258;

/// Marks each number in turn, and compares the answers.
fn mark_all<R: Register>(rt: &impl Abort, register: &mut R, marks: &[(u16, Result<(), Refusal>)]) {
    for &(n, answer) in marks {
        assert_eq!(rt; register.mark(n), answer);
    }
}

fn ends<R: Register>(rt: &impl Abort, register: &mut R) {
    let marks = [
        (4095, Ok(())),
        (4096, Err(Refusal::NumberTooLarge)),
        (u16::MAX, Err(Refusal::NumberTooLarge)),
        (4095, Err(Refusal::NumberUsed)),
        (4094, Ok(())),
    ];
    mark_all(rt, register, &marks);
    assert_eq!(rt; register.next_run(0), Some((4094, 2)));
    assert_eq!(rt; register.next_run(4095), None);
}

#[test]
fn the_last_number(rt: HostRuntime) {
    ends(&rt, &mut ChartRegister::new());
    ends(&rt, &mut SpanRegister::new());
}

#[test]
fn full_spans(rt: HostRuntime) {
    let mut register = SpanRegister::new();
    for i in 0..64 {
        assert_eq!(rt; register.mark(3 * i), Ok(()));
    }
    let marks = [
        // A 65th lone number.
        (4000, Err(Refusal::TooManyRuns)),
        // One that touches the span before it, and one that touches the span after it.
        (1, Ok(())),
        (8, Ok(())),
        // One that joins two spans makes room for one more.
        (2, Ok(())),
        (4000, Ok(())),
        (4002, Err(Refusal::TooManyRuns)),
    ];
    mark_all(&rt, &mut register, &marks);
}

/// The answer that the rules give, but for too many runs.
fn expected(plain: &[bool; 4096], n: u16) -> Result<(), Refusal> {
    match plain.get(usize::from(n)) {
        None => Err(Refusal::NumberTooLarge),
        Some(true) => Err(Refusal::NumberUsed),
        Some(false) => Ok(()),
    }
}

#[test]
fn random_marks(rt: HostRuntime) -> Result<(), Fail> {
    let mut plain = [false; 4096];
    let mut chart = ChartRegister::new();
    let mut span = SpanRegister::new();
    let mut seed: u32 = 1;
    for _ in 0..2000 {
        seed = seed.wrapping_mul(1664525).wrapping_add(1013904223);
        let n = (seed >> 16) as u16 % 4200;
        let answer = span.mark(n);
        if answer == Err(Refusal::TooManyRuns) {
            continue;
        }
        assert_eq!(rt; answer, expected(&plain, n));
        assert_eq!(rt; chart.mark(n), answer);
        if let Some(used) = plain.get_mut(usize::from(n)) {
            *used = true;
        }
    }
    for (n, used) in (0..NUMBERS).zip(plain) {
        assert!(rt; chart.ask(n) == used && span.ask(n) == used);
    }
    let mut left = [0u8; FULL];
    let mut right = [0u8; FULL];
    assert_eq!(rt;
        page::write(&chart, &mut left)?,
        page::write(&span, &mut right)?
    );
    assert!(rt; left == right);
    Ok(())
}

/// Loads each page into a blank register of its own, and compares the answers.
#[test]
fn pages(rt: HostRuntime) {
    let pages: [(&[u8], Result<(), Refusal>); 13] = [
        (&[0, 0], Ok(())),
        (&[2, 0, 0, 0, 3, 0, 7, 0, 1, 0], Ok(())),
        // It ends at 4,096.
        (&[1, 0, 0xff, 0x0f, 1, 0], Ok(())),
        // Too short for a count, too short for its pairs, too long.
        (&[], Err(Refusal::BadPage(0))),
        (&[0], Err(Refusal::BadPage(0))),
        (&[1, 0, 5, 0, 1], Err(Refusal::BadPage(0))),
        (&[0, 0, 0], Err(Refusal::BadPage(0))),
        // A run length of 0, and ends above 4,096.
        (&[1, 0, 5, 0, 0, 0], Err(Refusal::BadPage(2))),
        (&[1, 0, 0xff, 0x0f, 2, 0], Err(Refusal::BadPage(2))),
        (&[1, 0, 0xff, 0xff, 0xff, 0xff], Err(Refusal::BadPage(2))),
        // No gap after the pair before, pairs that overlap, pairs out of order.
        (&[2, 0, 0, 0, 3, 0, 3, 0, 1, 0], Err(Refusal::BadPage(6))),
        (&[2, 0, 0, 0, 3, 0, 2, 0, 9, 0], Err(Refusal::BadPage(6))),
        (&[2, 0, 7, 0, 1, 0, 0, 0, 3, 0], Err(Refusal::BadPage(6))),
    ];
    for (bytes, answer) in pages {
        let mut chart = ChartRegister::new();
        let mut span = SpanRegister::new();
        assert_eq!(rt; page::load(&mut chart, bytes), answer);
        assert_eq!(rt; page::load(&mut span, bytes), answer);
        assert_eq!(rt; chart.next_run(0), span.next_run(0));
        assert!(rt; answer.is_ok() || chart.next_run(0).is_none());
    }
}

#[test]
fn refused_loadings(rt: HostRuntime) {
    let mut chart = ChartRegister::new();
    for i in 0..65 {
        assert_eq!(rt; chart.mark(2 * i), Ok(()));
    }
    let mut bytes = [7u8; 263];
    assert_eq!(rt;
        page::write(&chart, &mut bytes[0..261]),
        Err(Refusal::BufferTooShort)
    );
    assert!(rt; bytes == [7; 263]);
    assert_eq!(rt; page::write(&chart, &mut bytes), Ok(262));
    assert!(rt; bytes[0] == 65 && bytes[262] == 7);
    assert_eq!(rt; page::load(&mut chart, &bytes), Err(Refusal::NotBlank));
    let mut span = SpanRegister::new();
    assert_eq!(rt;
        page::load(&mut span, &bytes[0..262]),
        Err(Refusal::TooManyRuns)
    );
    assert_eq!(rt; span.next_run(0), None);
}
