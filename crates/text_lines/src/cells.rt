// What a line of the map holds: "address value".
ghost use Rattle.std.specs.Prelude.{◌≡◌};
ghost use Rattle.text_lines.specs.Lines.{cell_of, valued as valued_of, addressed as addressed_of, cell as cell_in, map_line};

use crate::items;
use records::{Cell, Refusal};

// The cell of two numbers.
#[tactic(auto, unfolding(crate::specs::Lines::cell_of))]
fn pair(address: u32, value: u32) -> Result<Cell, Refusal>
    ensures { result ≡ cell_of address value }
{
    let address = u16::try_from(address).map_err(|_| Refusal::Number)?;
    let value = u16::try_from(value).map_err(|_| Refusal::Number)?;
    Ok(Cell { address, value })
}

// The value, and nothing after it.
#[tactic(auto, unfolding(crate::specs::Lines::valued))]
fn valued(address: u32, s: &[u8]) -> Result<Cell, Refusal>
    ensures { result ≡ valued_of address s.now }
{
    pair(address, items::last_number(s)?)
}

// The address, blanks, and what follows them; s starts with no blank.
#[tactic(auto, unfolding(crate::specs::Lines::addressed))]
fn addressed(s: &[u8]) -> Result<Cell, Refusal>
    ensures { result ≡ addressed_of s.now }
{
    let (address, rest) = items::number(s)?;
    if !items::is_blank(base::byte_at(rest, 0)) {
        return Err(Refusal::Malformed);
    }
    valued(address, items::skip(rest))
}

// A line without its comment.
#[tactic(auto, unfolding(crate::specs::Lines::cell))]
fn cell(s: &[u8]) -> Result<Option<Cell>, Refusal>
    ensures { result ≡ cell_in s.now }
{
    if items::only_blanks(s) {
        return Ok(None);
    }
    addressed(items::skip(s)).map(Some)
}

// What a line of the map holds; an empty one holds nothing.
#[tactic(auto, unfolding(crate::specs::Lines::map_line))]
pub fn map_line(l: &[u8]) -> Result<Option<Cell>, Refusal>
    ensures { result ≡ map_line l.now }
{
    if !items::is_allowed(l) {
        return Err(Refusal::Malformed);
    }
    cell(items::uncommented(l))
}
