//! The cell engine: PHOTON256 as it is published, cell by cell. The one to read; the table engine is the one to ship.
ghost use Rattle.std.specs.Prelude.{◌≡◌, ℕ, ◌<◌, map, slice_index};
ghost use Rattle.std.specs.List.{range_with_len};
ghost use Rattle.photon.specs.Field.{dot};
ghost use Rattle.photon.specs.Photon.{round_constants, row_constants, s_box, square, cell, half, add_constant, sub_cells, shift_rows, transposed, by_m, by_ms, mix_column_serial, a_round, square_of, bytes_of, photon256};
ghost use Rattle.photon.specs.Cells.{GivesCells, GivesRow, byte_of, last_row};
ghost use Rattle.photon.specs.Bounds.{bytes_photon256};

use crate::Engine;
use crate::field::Cell;
use std::array;

/// The constant of each round.
const RC: [u8; 12] = [1, 3, 7, 14, 13, 11, 6, 12, 9, 2, 5, 10];

/// The constant of each row.
const IC: [u8; 8] = [0, 1, 3, 7, 15, 14, 12, 8];

/// S.
const SBOX: [u8; 16] = [12, 5, 6, 11, 9, 0, 10, 13, 3, 14, 15, 8, 4, 7, 1, 2];

/// The last row of M. Its other rows move a column up by one cell.
const LAST_ROW: [u8; 8] = [2, 4, 2, 11, 2, 8, 5, 6];

/// Eight rows of eight cells; cell (i, j) stands in row i, column j. Both go by plain numbers below 8, since a type for
/// such a number would have to be made at each call.
#[derive(Clone, Copy)]
struct Square {
    rows: [[Cell; 8]; 8],
}

impl Square {
    /// The square whose cell (i, j) is what the rule gives.
    fn from_cells<F: Fn(usize, usize) -> Cell>(rule: F) -> Self
        requires callable { (i j : ℕ) → i < 8 → j < 8 → F.pre rule i j }
        ensures { (f : ℕ → ℕ → ℕ) → GivesCells (F.post rule) f → result.rows ≡ square f }
    {
        Square {
            rows: array::from_fn(
                |i| -> [Cell; 8]
                    requires row { i < 8 }
                    requires callable { (j : ℕ) → j < 8 → F.pre rule i j }
                    ensures { (f : ℕ → ℕ) → GivesRow (F.post rule i) f → result ≡ map f (range_with_len 0 8) }
                { row_of(&rule, i) },
            ),
        }
    }

    /// Byte k of the state: cell 2k in its low half, cell 2k + 1 in its high half.
    fn byte(&self, k: usize) -> u8
        requires { k < 32 }
        ensures { result ≡ byte_of self.now.rows k }
    {
        let low = self.at(2 * k / 8, 2 * k % 8);
        let high = self.at((2 * k + 1) / 8, (2 * k + 1) % 8);
        low.0 + 16 * high.0
    }

    /// The cell in row i, column j.
    fn at(&self, i: usize, j: usize) -> Cell
        requires row { i < 8 }
        requires column { j < 8 }
        ensures { result ≡ cell self.now.rows i j }
    {
        self.rows[i][j]
    }

    /// The round that has this constant.
    #[tactic(auto, unfolding(crate::specs::Photon::a_round))]
    fn round(self, constant: Cell) -> Self
        ensures { (k : ℕ) → constant ≡ slice_index round_constants k → result.rows ≡ a_round self.rows k }
    {
        self.add_constant(constant)
            .sub_cells()
            .shift_rows()
            .mix_columns()
    }

    /// Adds the constants of a round and of the rows to the first column.
    fn add_constant(self, constant: Cell) -> Self
        ensures { (k : ℕ) → constant ≡ slice_index round_constants k → result.rows ≡ add_constant self.rows k }
    {
        Square::from_cells(|i, j| {
            if j == 0 {
                self.at(i, 0) + constant + row_constant(i)
            } else {
                self.at(i, j)
            }
        })
    }

    /// Sends every cell through S.
    fn sub_cells(self) -> Self
        ensures { result.rows ≡ sub_cells self.rows }
    {
        Square::from_cells(|i, j| substituted(self.at(i, j)))
    }

    /// Turns row i by i cells.
    fn shift_rows(self) -> Self
        ensures { result.rows ≡ shift_rows self.rows }
    {
        Square::from_cells(|i, j| self.at(i, (j + i) % 8))
    }

    /// Multiplies every column by M eight times.
    fn mix_columns(self) -> Self
        ensures { result.rows ≡ mix_column_serial self.rows }
    {
        let columns = self.transposed().rows;
        let mixed = Square {
            rows: columns.map(mix_column),
        };
        mixed.transposed()
    }

    /// The columns as rows.
    fn transposed(self) -> Self
        ensures { result.rows ≡ transposed self.rows }
    {
        Square::from_cells(|i, j| self.at(j, i))
    }
}

/// Row i of a square made by a rule.
fn row_of<F: Fn(usize, usize) -> Cell>(rule: &F, i: usize) -> [Cell; 8]
    requires row { i < 8 }
    requires callable { (j : ℕ) → j < 8 → F.pre rule.now i j }
    ensures { (f : ℕ → ℕ) → GivesRow (F.post rule.now i) f → result ≡ map f (range_with_len 0 8) }
{
    array::from_fn(
        |j| -> Cell
            requires { F.pre rule.now i j }
            ensures { F.post rule.entry.now i j result }
        { rule(i, j) },
    )
}

fn row_constant(i: usize) -> Cell
    requires { i < 8 }
    ensures { result ≡ slice_index row_constants i }
{
    Cell(IC[i])
}

/// S of a cell.
fn substituted(cell: Cell) -> Cell
    ensures { result ≡ slice_index s_box cell }
{
    Cell(SBOX[usize::from(cell.0)])
}

/// M times a column, eight times.
fn mix_column(column: [Cell; 8]) -> [Cell; 8]
    ensures { result ≡ by_ms 8 column }
{
    let mut mixed = column;
    for _ in 0..8u32 {
        mixed = times_m(mixed);
    }
    mixed
}

/// M times a column: cells 1 to 7 move up by one, and the last row of M gives the new cell 7.
#[tactic(auto, using(crate::proofs::Product::by_m_cells))]
fn times_m(column: [Cell; 8]) -> [Cell; 8]
    ensures { result ≡ by_m column }
{
    let [_, b, c, d, e, f, g, h] = column;
    [b, c, d, e, f, g, h, last_cell(&column)]
}

/// The last row of M times a column.
fn last_cell(column: &[Cell; 8]) -> Cell
    ensures { result ≡ dot last_row column.now }
{
    LAST_ROW
        .iter()
        .zip(column)
        .fold(Cell(0), |sum, (factor, cell)| sum + *factor * *cell)
}

/// Cell c of the state: byte k holds cell 2k in its low half and cell 2k + 1 in its high half.
fn half_of(state: &[u8; 32], c: usize) -> Cell
    requires { c < 64 }
    ensures { result ≡ half state.now c }
{
    let byte = state[c / 2];
    Cell(if c % 2 == 0 { byte % 16 } else { byte / 16 })
}

impl From<&[u8; 32]> for Square {
    ghost from_gives = { λ state x. x.rows ≡ square_of state.now };

    fn from(state: &[u8; 32]) -> Self {
        Square::from_cells(|i, j| half_of(state, 8 * i + j))
    }
}

impl From<Square> for [u8; 32] {
    ghost from_gives = { λ x state. state ≡ bytes_of x.rows };

    fn from(square: Square) -> Self {
        array::from_fn(|k| square.byte(k))
    }
}

/// PHOTON256 cell by cell.
#[derive(Clone, Copy)]
pub struct CellEngine;

impl Engine for CellEngine {
    ghost permutes = { λ _ s. photon256 s };

    ghost stays = { λ e. bytes_photon256 };

    fn permute(&self, state: &mut [u8; 32]) {
        let mut square = Square::from(&*state);
        for constant in RC {
            square = square.round(Cell(constant));
        }
        *state = square.into();
    }
}
