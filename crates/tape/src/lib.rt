//! Tapes: where the cells of noise come from.

#![tactic(auto)]

ghost use Rattle.std.specs.Prelude.{◌≡◌, List, [], length, ℤ, FitsSigned, slice_index};
ghost use Rattle.std.specs.Int.{w32};
ghost use Rattle.std.specs.List.{AllByRecursion};
ghost use Rattle.tape.specs.Tapes.{drawn, undrawn, byte_cells, cell_of_coins, coin_cells, on_byte_tape, on_coin_tape};
ghost use Rattle.tape.specs.Examples.{WorkedTapes};
ghost use Rattle.tape.specs.Narrow.{byte-cells-fit, coin-cells-fit};

use fault::{Cause, Fault, Layer};

/// A tape means the list of cells still on it.
pub trait Tape {
    ghost cells: { Self → List ℤ };

    /// Each cell is a signed number of 32 bits.
    ghost narrow: { (t : Self) → AllByRecursion (FitsSigned w32) (cells t) };

    /// How many cells are left.
    fn left(&self) -> usize
        ensures { result ≡ length (cells self.now) };

    /// Takes the first cell off; refused, with nothing changed, where there is none.
    fn draw(&mut self) -> Result<i32, Fault>
        ensures answer { result ≡ drawn (cells self.old) }
        ensures moved { cells self.new ≡ undrawn (cells self.old) }
        ensures refused { cells self.old ≡ [] → self.new ≡ self.old };
}

/// The refusal of a draw where no cell is left.
const SHORT: Fault = Fault {
    cause: Cause::TapeShort(0),
    layer: Layer::Tape,
};

/// Four bytes make a cell, the lowest first, negative ones in two's complement.
#[derive(Drop)]
pub struct ByteTape<'a> {
    bytes: &'a [u8],
}

impl<'a> ByteTape<'a> {
    /// A tape with the cells of `bytes`.
    pub fn new(bytes: &'a [u8]) -> Self
        ensures { on_byte_tape result ≡ byte_cells bytes.now }
    {
        ByteTape { bytes }
    }
}

impl<'a> Tape for ByteTape<'a> {
    ghost cells = { on_byte_tape };

    ghost narrow = { λ t. byte-cells-fit t.bytes.now };

    fn left(&self) -> usize {
        self.bytes.len() / 4
    }

    fn draw(&mut self) -> Result<i32, Fault> {
        let Some((four, rest)) = self.bytes.split_first_chunk() else {
            return Err(SHORT);
        };
        let cell = i32::from_le_bytes(*four);
        self.bytes = rest;
        Ok(cell)
    }
}

// Not one type with the byte tape: they differ in how bytes make a cell, and one type over that is a trait more, and longer.
/// The caller's bytes in eights, each the number of its one bits, less 32.
#[derive(Drop)]
pub struct CoinTape<'a> {
    bytes: &'a [u8],
}

impl<'a> CoinTape<'a> {
    /// A tape with the cells of `bytes`.
    pub fn new(bytes: &'a [u8]) -> Self
        ensures { on_coin_tape result ≡ coin_cells bytes.now }
    {
        CoinTape { bytes }
    }
}

impl<'a> Tape for CoinTape<'a> {
    ghost cells = { on_coin_tape };

    ghost narrow = { λ t. coin-cells-fit t.bytes.now };

    fn left(&self) -> usize {
        self.bytes.len() / 8
    }

    fn draw(&mut self) -> Result<i32, Fault> {
        let Some((eight, more)) = self.bytes.split_first_chunk() else {
            return Err(SHORT);
        };
        let coins = coin_cell(*eight);
        self.bytes = more;
        Ok(coins)
    }
}

/// The cell of eight bytes.
fn coin_cell(eight: [u8; 8]) -> i32
    ensures { result ≡ cell_of_coins (slice_index eight 0) (slice_index eight 1) (slice_index eight 2) (slice_index eight 3) (slice_index eight 4) (slice_index eight 5) (slice_index eight 6) (slice_index eight 7) }
{
    u64::from_le_bytes(eight).count_ones() as i32 - 32
}

/// The worked examples hold.
pub fn worked_tapes()
    ensures { WorkedTapes }
{}
