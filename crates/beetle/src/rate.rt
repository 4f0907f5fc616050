//! The rate: how many bytes of the state meet the text between two permutations.
ghost use Rattle.std.specs.Prelude.{ℕ};
ghost use Rattle.beetle.specs.Rates.{Lawful};
ghost use Rattle.beetle.specs.LawfulRates.{lawful_4, lawful_16};

/// A choice with one constant, which is even and from 2 to 16.
pub trait Rate {
    ghost BYTES: { ℕ };

    /// The rate in bytes.
    const BYTES: usize;

    ghost lawful: { Lawful BYTES };
}

/// 16 bytes, 128 bits.
pub struct Rate128;

impl Rate for Rate128 {
    ghost BYTES = { 16 };

    ghost lawful = { lawful_16 };

    const BYTES: usize = 16;
}

/// 4 bytes, 32 bits.
pub struct Rate32;

impl Rate for Rate32 {
    ghost BYTES = { 4 };

    ghost lawful = { lawful_4 };

    const BYTES: usize = 4;
}
