// The CHECKs of a thread by checkpoint, as the table lists them.
ghost use Rattle.std.specs.Prelude.{◌≡◌, List, ℕ, ◌+◌, ◌*◌, ◌<◌, length, get_or};
ghost use Rattle.records.specs.Sets.{Set};
ghost use Rattle.machine.specs.Machine.{contains as contains_of};
ghost use Rattle.set_index.specs.ListTables.{ListTable, onward, first_checks, next_checks};

use crate::lists::{NEXT_CHECKS, NONE, POINT_ROW, STATEMENT_ROW};
use crate::numbers;

// The first CHECK of thread t for checkpoint p, NONE if there is none.
pub fn first(table: &[u8], t: u8, p: u16) -> u16
    ensures { result ≡ get_or table.now (first_checks t + p) 0 }
{
    numbers::number(table, POINT_ROW * u16::from(t), p)
}

// The CHECK of thread t after CHECK i for the same checkpoint, NONE if there is none.
pub fn following(table: &[u8], t: u8, i: u16) -> u16
    ensures { result ≡ onward i (get_or table.now (next_checks t + i) 0) }
{
    numbers::next(table, NEXT_CHECKS + STATEMENT_ROW * u16::from(t), i)
}

// Whether thread t contains checkpoint p.
pub fn contains(table: &[u8], t: u8, p: u16) -> bool
    ensures { (S : Set) (cs : List ℕ) → ListTable S cs table.now → t < S.threads → p < length cs → result ≡ contains_of S t (get_or cs p 0) }
{
    first(table, t, p) < NONE
}
