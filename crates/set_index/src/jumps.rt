// The jumps of a thread by the statement that they name, as the table lists them.
ghost use Rattle.std.specs.Prelude.{◌≡◌, ◌+◌, ◌*◌, get_or};
ghost use Rattle.set_index.specs.ListTables.{onward, first_jumps, next_jumps};

use crate::lists::{FIRST_JUMPS, NEXT_JUMPS, STATEMENT_ROW};
use crate::numbers;

// The first jump of thread t to statement j, NONE if there is none.
pub fn first(table: &[u8], t: u8, j: u16) -> u16
    ensures { result ≡ get_or table.now (first_jumps t + j) 0 }
{
    numbers::number(table, FIRST_JUMPS + STATEMENT_ROW * u16::from(t), j)
}

// The jump of thread t after jump i to the same statement, NONE if there is none.
pub fn following(table: &[u8], t: u8, i: u16) -> u16
    ensures { result ≡ onward i (get_or table.now (next_jumps t + i) 0) }
{
    numbers::next(table, NEXT_JUMPS + STATEMENT_ROW * u16::from(t), i)
}
