//! The field of sixteen elements. A cell of 4 bits is one of them; a sum is XOR.
ghost use Rattle.std.specs.Prelude.{◌≡◌, ◌%◌, if◌then◌else◌, bit_xor, nat_eq};
ghost use Rattle.photon.specs.Field.{times_z, times};

use std::marker::Model;
use std::ops::{Add, Mul};

/// A cell of 4 bits: digit k is the coefficient of z^k.
#[derive(Clone, Copy)]
pub struct Cell(pub u8);

impl Model for Cell {
    ghost use Rattle.std.specs.Prelude.{ℕ, ◌<◌};

    ghost Value = { ℕ };

    ghost view = { λ cell. cell.0 };

    ghost invariant = { λ cell. cell.0 < 16 };

    ghost inverse = { λ n. record { 0 = n } };
}

impl Add for Cell {
    type Output = Cell;

    ghost add_gives = { λ a b sum. sum ≡ bit_xor a b };

    #[tactic(auto, using(crate::specs::Bounds::xor_small))]
    fn add(self, other: Cell) -> Cell {
        Cell(self.0 ^ other.0)
    }
}

/// The element that has the four lowest digits of a number, times a cell.
impl Mul<Cell> for u8 {
    type Output = Cell;

    ghost mul_gives = { λ a b product. product ≡ times a b };

    #[tactic(auto, using(crate::proofs::Product::by_digits))]
    fn mul(self, cell: Cell) -> Cell {
        let twice = cell.times_z();
        let fourfold = twice.times_z();
        let eightfold = fourfold.times_z();
        cell.if_odd(self)
            + (twice.if_odd(self / 2) + (fourfold.if_odd(self / 4) + eightfold.if_odd(self / 8)))
    }
}

impl Cell {
    /// z times the cell: moved up by one place, and z^4 + z + 1 = 19 taken off where z^4 arose.
    fn times_z(self) -> Cell
        ensures { result ≡ times_z self }
    {
        Cell(if self.0 < 8 {
            2 * self.0
        } else {
            (2 * self.0) ^ 19
        })
    }

    /// The cell if the lowest of the digits is 1, and 0 if it is 0.
    fn if_odd(self, digits: u8) -> Cell
        ensures { result ≡ (if nat_eq (digits % 2) 1 then self else 0) }
    {
        if digits % 2 == 1 { self } else { Cell(0) }
    }
}
