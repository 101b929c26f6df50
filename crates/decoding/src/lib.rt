// Models, and what decoding gives, as definitions (specs/) with their laws (proofs/); the lengths that both go by, and a map's cell looked up.
#![tactic(auto)]

ghost use Rattle.std.specs.Prelude.{◌≡◌};
ghost use Rattle.decoding.specs.Lookups.{cell_of};

use machine::Machine;
use records::Layout;

// Bytes of work memory that a record of a table needs.
pub const WORK: usize = 32;

// Cells that a model may list.
pub const MODEL_CELLS: usize = Machine::MAP_CELLS;

// Bytes of the longest map that decoding writes.
pub const MAP_BYTES: usize = Layout::CELL * MODEL_CELLS;

// What a decoding gives: how many steps its run has, and how many cells the map.
#[derive(Clone, Copy, Debug, PartialEq, Eq)]
pub struct Decoded {
    pub steps: u16,
    pub cells: u16,
}

// The value of a map's cell at an address, None where there is no such cell.
pub fn cell_of(map: &[u8], a: u16) -> Option<u16>
    ensures { result ≡ cell_of map.now a }
{
    let (cells, _) = map.as_chunks::<{ Layout::CELL }>();
    let k = cells.iter().position(|cell| base::word_at(cell, 0) == a)?;
    Some(base::word_at(&cells[k], 2))
}
