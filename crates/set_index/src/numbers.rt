// The numbers of the table: of each list its first statement, and of each statement the next one of its list; NONE where there is none.
ghost use Rattle.std.specs.Prelude.{◌≡◌, ◌+◌, ◌<◌, MatchOption, length, get_or};
ghost use Rattle.set_index.specs.ListTables.{onward, put};
ghost use Rattle.records.specs.Sets.{most_statements};

use crate::lists::{NONE, STATEMENT_ROW};

// The number that stands in a row at place i.
pub fn number(table: &[u8], row: u16, i: u16) -> u16
    ensures { result ≡ get_or table.now (row + i) 0 }
{
    u16::from(base::byte_at(table, usize::from(row) + usize::from(i)))
}

// The next one after statement i, by its number in a row. A number that is not greater counts as none, so that a loop over a list ends for every table.
pub fn next(table: &[u8], row: u16, i: u16) -> u16
    ensures { result ≡ onward i (get_or table.now (row + i) 0) }
{
    let it = number(table, row, i);
    if i < it {
        return it;
    }
    NONE
}

// Puts statement i before the others of a list, if it is of one. The first ones stand from `heads` on, the next ones from `nexts` on.
pub fn add(table: &mut [u8], heads: u16, nexts: u16, list: Option<u16>, i: u16)
    ensures length { length table.new ≡ length table.old }
    ensures added { MatchOption list (table.new ≡ table.old)
        (λ list. i < most_statements → heads + list < length table.old → nexts + i < length table.old
        → table.new ≡ put table.old (heads + list) (nexts + i) i) }
{
    let Some(list) = list else {
        return;
    };
    let head = usize::from(heads) + usize::from(list);
    let after = usize::from(nexts) + usize::from(i);
    if STATEMENT_ROW <= i || table.len() <= head || table.len() <= after {
        return;
    }
    table[after] = table[head];
    table[head] = i as u8;
}
