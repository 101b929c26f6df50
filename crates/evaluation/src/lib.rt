// The values of a table's records under the assignment of a model, in work memory behind the table's bytes: each record's as a word.
#![tactic(auto)]

ghost use Rattle.std.specs.Prelude.{◌≡◌, true, ◌+◌, ◌*◌, ◌≤◌, ◌<◌, length};
ghost use Rattle.records.specs.Maps.{map_value, map_accepted, run_cells};
ghost use Rattle.decoding.specs.Lookups.{cell_of};
ghost use Rattle.decoding.specs.Models.{assigned, work_length};
ghost use Rattle.evaluation.specs.Evaluations.{formula_in, value_in, stored, memory_behind, cell_back, word_in, is_false, given_by, false_in};

use decoding::{MODEL_CELLS, WORK};
use records::Layout;
use table::{Formula, Operation};

// Record i, no operation past the last.
fn formula(work: &[u8], n: u32, i: u64) -> Formula
    requires { work_length * n ≤ length work.now }
    ensures { result ≡ formula_in work.now n i }
{
    if i < u64::from(n) {
        return table::formula_at(work, i as u32).unwrap();
    }
    Formula {
        operation: 0,
        sort: 0,
        constant: 0,
        a: 0,
        b: 0,
        c: 0,
    }
}

// The word of record i's value, 0 past the last.
fn value(work: &[u8], n: u32, i: u64) -> u16
    requires { work_length * n ≤ length work.now }
    ensures { result ≡ value_in work.now n i }
{
    if i < u64::from(n) {
        return base::word_at(work, Formula::BYTES * (n as usize) + 2 * (i as usize));
    }
    0
}

// Stores the word of record i's value.
fn store(work: &mut [u8], n: u32, i: u32, word: u16)
    requires { (work_length * n ≤ length work.old) × (i < n) }
    ensures { work.new ≡ stored work.old n i word }
{
    let at = Formula::BYTES * (n as usize) + 2 * (i as usize);
    let [low, high] = word.to_le_bytes();
    work[at] = low;
    work[at + 1] = high;
}

// The cell at address x where addresses ascend, by halves: a check of a model reads cells very often.
fn search(cells: &[u8], x: u16) -> Option<u16>
    requires { map_accepted run_cells cells.now ≡ true }
    ensures { result ≡ cell_of cells.now x }
{
    let (cells, _) = cells.as_chunks::<{ Layout::CELL }>();
    match cells.binary_search_by_key(&x, |cell| base::word_at(cell, 0)) {
        Ok(k) => Some(base::word_at(&cells[k], 2)),
        Err(_) => None,
    }
}

// The assignment that a model gives. Whether its cells are in order is asked once for all look-ups.
#[derive(Clone, Copy)]
struct Given<'a> {
    threads: u8,
    bound: u8,
    bits: &'a [u8],
    cells: &'a [u8],
    ordered: bool,
    ghost in_order: { ordered ≡ true → map_accepted run_cells cells.now ≡ true },
}

impl<'a> Given<'a> {
    // A choice bit: step k, kind 0 to execute or 1 to flush, thread t.
    #[tactic(auto, unfolding(decoding::specs::Models::assigned))]
    fn choice(self, k: u64, kind: u64, t: u64) -> bool
        ensures { result ≡ (assigned self.entry.threads self.entry.bound self.entry.bits.now).choice k kind t }
    {
        let threads = u64::from(self.threads);
        if k < u64::from(self.bound) && kind < 2 && t < threads {
            let row = 2 * threads * k;
            let at = row + (threads * kind + t);
            return base::byte_at(self.bits, at as usize) == 1;
        }
        false
    }

    // The first cell at address x: the model's, 0 where it is unlisted.
    fn first(self, x: u16) -> u16
        ensures { result ≡ map_value self.entry.cells.now x }
    {
        let cell = if self.ordered {
            search(self.cells, x)
        } else {
            decoding::cell_of(self.cells, x)
        };
        cell.unwrap_or(0)
    }
}

// The memory behind a write, and the one that an if of memories chooses.
fn behind(work: &[u8], n: u32, f: Formula) -> u64
    requires { work_length * n ≤ length work.now }
    ensures { result ≡ memory_behind (value_in work.now n) f.operation f.a f.b f.c }
{
    if f.is(Operation::Write) {
        return f.a;
    }
    if value(work, n, f.a) == 1 {
        return f.b;
    }
    f.c
}

// The cell at address x of memory m, from the last write back. In each turn `memory` is the record that is looked at, and `f` what it says.
// In a table the memory behind is an earlier record, so `memory` falls from turn to turn, each memory is looked at once, and the turns do
// not run out: claim `LooksBackOnce`. docs/ARCHITECTURE.md has an example, turn by turn.
fn read_back(work: &[u8], n: u32, given: Given, m: u64, x: u16) -> u16
    requires { work_length * n ≤ length work.now }
    ensures { result ≡ cell_back (map_value given.entry.cells.now) (formula_in work.now n) (value_in work.now n) n m x }
{
    let mut memory = m;
    for _ in 0..n {
        let f = formula(work, n, memory);
        let writes = f.is(Operation::Write);
        // a write at this address: the cell is what it wrote
        if writes & (x == value(work, n, f.b)) {
            return value(work, n, f.c);
        }
        // first memory: the cell is the model's
        if !(writes | f.is(Operation::If)) {
            return given.first(x);
        }
        // a write at another address, or an if of memories: on to the memory behind
        memory = behind(work, n, f);
    }
    // no look-up in a table comes here; bytes that are no table could
    0
}

// The word of a record's value, from those of the records before it.
#[tactic(auto, unfolding(crate::specs::Evaluations::word_of, crate::specs::Evaluations::given_by))]
fn word_of(work: &[u8], n: u32, f: Formula, given: Given) -> u16
    requires { work_length * n ≤ length work.now }
    ensures { result ≡ word_in (given_by given.entry.threads given.entry.bound given.entry.bits.now given.entry.cells.now) n work.now f }
{
    let Ok(operation) = Operation::try_from(f.operation) else {
        return 0;
    };
    match operation {
        Operation::Choice => u16::from(given.choice(f.a, f.b, f.c)),
        Operation::Constant => f.constant,
        Operation::Not => u16::from(value(work, n, f.a) == 0),
        Operation::And => u16::from((value(work, n, f.a) == 1) & (value(work, n, f.b) == 1)),
        Operation::Or => u16::from((value(work, n, f.a) == 1) | (value(work, n, f.b) == 1)),
        Operation::Equal => u16::from(value(work, n, f.a) == value(work, n, f.b)),
        Operation::If => {
            if value(work, n, f.a) == 1 {
                value(work, n, f.b)
            } else {
                value(work, n, f.c)
            }
        }
        Operation::Plus => base::sum(value(work, n, f.a), value(work, n, f.b)),
        Operation::Minus => base::difference(value(work, n, f.a), value(work, n, f.b)),
        Operation::Times => base::product(value(work, n, f.a), value(work, n, f.b)),
        Operation::Read => read_back(work, n, given, f.a, value(work, n, f.b)),
        Operation::Top => u16::from(32768 <= value(work, n, f.a)),
        Operation::First | Operation::Write | Operation::Constraint | Operation::Goal => 0,
    }
}

// Whether a record is a constraint or goal that is 0.
fn is_false(work: &[u8], n: u32, f: Formula) -> bool
    requires { work_length * n ≤ length work.now }
    ensures { result ≡ is_false (value_in work.now n) f.operation f.a }
{
    if f.is(Operation::Constraint) | f.is(Operation::Goal) {
        return value(work, n, f.a) != 1;
    }
    false
}

// The first constraint or goal that is 0 among n records, n where there is none. The table's bytes stand in work memory; the values of
// its records go behind them.
#[tactic(auto, unfolding(crate::specs::Evaluations::false_in))]
pub fn evaluate(work: &mut [u8], n: u32, model: &[u8], cells: &[u8], threads: u8, bound: u8) -> u32
    ensures { result ≡ false_in (given_by threads bound model.now cells.now) n work.old }
{
    if work.len() < WORK * (n as usize) {
        return n;
    }
    let given = Given {
        threads,
        bound,
        bits: model,
        cells,
        // the cells of an accepted model are in order
        ordered: records::map::map_accepted(cells, MODEL_CELLS),
    };
    for i in 0..n {
        let f = formula(work, n, u64::from(i));
        if is_false(work, n, f) {
            return i;
        }
        let word = word_of(work, n, f, given);
        store(work, n, i, word);
    }
    n
}
