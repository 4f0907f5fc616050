//! Figures on the bench engine, which turns the state end for end, worked on paper.
use crate::{Rate, Rate32, Rate128, hash, open, seal};
use photon::BenchEngine;
use std::process::Abort;

const KEY: &[u8; 16] = b"\x10\x11\x12\x13\x14\x15\x16\x17\x18\x19\x1a\x1b\x1c\x1d\x1e\x1f";

const NONCE: &[u8; 16] = b"\x00\x01\x02\x03\x04\x05\x06\x07\x08\x09\x0a\x0b\x0c\x0d\x0e\x0f";

const OF_NOTHING: &[u8; 32] =
    b"\x20\x00\x00\x00\x00\x00\x00\x00\x00\x00\x00\x00\x00\x00\x00\x00\x00\x00\x00\x00\x00\x00\x00\x00\x00\x00\x00\x00\x00\x00\x00\x00";

const OF_41: &[u8; 32] =
    b"\x20\x00\x00\x00\x00\x00\x00\x00\x00\x00\x00\x00\x00\x00\x00\x00\x41\x01\x00\x00\x00\x00\x00\x00\x00\x00\x00\x00\x00\x00\x00\x00";

const OF_17_BYTES: &[u8; 32] =
    b"\x40\x01\x02\x03\x04\x05\x06\x07\x08\x09\x0a\x0b\x0c\x0d\x0e\x0f\x41\x01\x00\x00\x00\x00\x00\x00\x00\x00\x00\x00\x00\x00\x00\x00";

#[test]
fn digests(rt: HostRuntime) {
    let text = b"\x00\x01\x02\x03\x04\x05\x06\x07\x08\x09\x0a\x0b\x0c\x0d\x0e\x0f\x41";
    let cases = [
        (&text[0..0], OF_NOTHING),
        (&text[16..17], OF_41),
        (&text[0..17], OF_17_BYTES),
    ];
    for (text, expected) in cases {
        let mut out = [7u8; 33];
        assert!(rt; hash(&BenchEngine, text, &mut out).is_ok());
        assert!(rt; &out[0..32] == &expected[0..32]);
        assert_eq!(rt; out[32], 7);
    }
}

const TAG_OF_NOTHING: &[u8; 16] =
    b"\x3f\x1e\x1d\x1c\x1b\x1a\x19\x18\x17\x16\x15\x14\x13\x12\x11\x10";

const SEALED_41: &[u8; 17] =
    b"\x56\xc0\x01\x02\x03\x04\x05\x06\x07\x08\x09\x0a\x0b\x0c\x0d\x0e\x0f";

#[test]
fn sealed_texts(rt: HostRuntime) {
    let cases: [(&[u8], &[u8]); 2] = [(b"", TAG_OF_NOTHING), (b"A", SEALED_41)];
    for (text, expected) in cases {
        let mut out = [7u8; 17];
        assert!(rt;
            seal::<Rate128, BenchEngine>(&BenchEngine, KEY, NONCE, b"", text, &mut out).is_ok()
        );
        assert!(rt; expected.len() <= 17);
        assert!(rt; &out[0..expected.len()] == expected);
        let mut back = [7u8; 3];
        assert!(rt;
            open::<Rate128, BenchEngine>(
                &BenchEngine,
                KEY,
                NONCE,
                b"",
                expected,
                &mut back,
            ).is_ok()
        );
        assert!(rt; back[2] == 0 && (text.is_empty() || back[0] == 0x41));
    }
}

/// What is sealed opens again, and with any byte of its tag changed it is refused and the output is zeros.
fn opens_by_its_tag<R: Rate>(rt: &impl Abort, ad: &[u8], text: &[u8; 9]) {
    let mut sealed = [0u8; 25];
    let mut out = [7u8; 9];
    assert!(rt; seal::<R, BenchEngine>(&BenchEngine, KEY, NONCE, ad, text, &mut sealed).is_ok());
    assert!(rt; open::<R, BenchEngine>(&BenchEngine, KEY, NONCE, ad, &sealed, &mut out).is_ok());
    assert!(rt; &out[0..9] == &text[0..9]);
    // By index: a byte is changed, and changed back.
    for i in 9..25 {
        sealed[i] ^= 1;
        assert!(rt;
            open::<R, BenchEngine>(&BenchEngine, KEY, NONCE, ad, &sealed, &mut out).is_err()
        );
        assert!(rt; &out[0..9] == b"\0\0\0\0\0\0\0\0\0".as_slice());
        sealed[i] ^= 1;
    }
}

#[test]
fn both_rates(rt: HostRuntime) {
    opens_by_its_tag::<Rate128>(&rt, b"", b"nine byte");
    opens_by_its_tag::<Rate128>(&rt, b"heading", b"nine byte");
    opens_by_its_tag::<Rate32>(&rt, b"", b"nine byte");
    opens_by_its_tag::<Rate32>(&rt, b"heading", b"nine byte");
}
