// Map records: the cells that they give, and which maps are accepted (refusal 9).
ghost use Rattle.std.specs.Prelude.{◌≡◌, ◌<◌};
ghost use Rattle.records.specs.Maps.{cells, address_at, value_at, ascends_at, map_accepted};

use crate::{Layout, word};

// The address of cell k; a byte past the end is 0.
pub fn address_at(map: &[u8], k: u32) -> u16
    ensures { result ≡ address_at map.now k }
{
    base::word_at(map, Layout::CELL * (k as usize))
}

// The value of cell k; a byte past the end is 0.
pub fn value_at(map: &[u8], k: u32) -> u16
    ensures { result ≡ value_at map.now k }
{
    base::word_at(map, Layout::CELL * (k as usize) + 2)
}

// Whether cell k's address is above that of the cell before it.
fn ascends(map: &[u8], k: usize) -> bool
    requires { k < cells map.now }
    ensures { result ≡ ascends_at map.now k }
{
    if k == 0 {
        return true;
    }
    if word(map, Layout::CELL * k) <= word(map, Layout::CELL * (k - 1)) {
        return false;
    }
    true
}

// Whether a map is accepted: whole records, at most `limit` of them, addresses that strictly ascend.
pub fn map_accepted(map: &[u8], limit: usize) -> bool
    ensures { result ≡ map_accepted limit map.now }
{
    let n = map.len() / Layout::CELL;
    if map.len() % Layout::CELL != 0 {
        return false;
    }
    if limit < n {
        return false;
    }
    for k in 0..n {
        if !ascends(map, k) {
            return false;
        }
    }
    true
}
