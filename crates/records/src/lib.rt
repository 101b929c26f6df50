// Statement records and map records: which are accepted (refusal 9), and what they hold.
#![tactic(auto)]

pub mod instructions;
pub mod map;
pub mod refusals;
pub mod set;

ghost use Rattle.std.specs.Prelude.{◌≡◌, ◌+◌, ◌<◌, ◌&&◌, true, false, MatchResult, eqb, length, get_or};
ghost use Rattle.base.specs.Bytes.{word_at};
ghost use Rattle.records.specs.Maps.{map_accepted};
ghost use Rattle.records.specs.Numbers.{number};
ghost use Rattle.records.specs.Sets.{statement_at, set_by, set_accepted, layout_of};

pub use instructions::{Instruction, is_memory};
pub use refusals::{Refusal, Refused};

// A statement as its record has it; mode 1 is indirect.
#[derive(Clone, Copy)]
pub struct Statement {
    pub number: u8,
    pub mode: u8,
    pub argument: u16,
}

// The threads of an accepted set, with the place and the number of each one's statements.
#[derive(Clone, Copy)]
pub struct Layout {
    pub threads: u8,
    pub starts: [u16; Layout::THREADS],
    pub counts: [u16; Layout::THREADS],
}

// An address with its word.
#[derive(Clone, Copy, Debug, PartialEq, Eq)]
pub struct Cell {
    pub address: u16,
    pub value: u16,
}

impl Statement {
    // How many instructions there are; as a number it names none.
    pub const INSTRUCTIONS: u8 = 20;
    // Bytes of a statement record.
    pub const SIZE: usize = 8;

    // Whether it is one of this instruction.
    pub fn is(self, instruction: Instruction) -> bool
        ensures { result ≡ eqb self.number (number instruction) }
    {
        self.number == instruction.number()
    }
}

impl Layout {
    // The most threads of a set.
    pub const THREADS: usize = 4;
    // The most statements of a thread.
    pub const STATEMENTS: u16 = 32;
    // The most statements of a set.
    pub const RECORDS: usize = Layout::THREADS * (Layout::STATEMENTS as usize);
    // Bytes of the longest set.
    pub const SET: usize = Statement::SIZE * Layout::RECORDS;
    // The most cells of a set's map.
    pub const MAP_CELLS: usize = 128;
    // Bytes of a map cell.
    pub const CELL: usize = 4;
    // Bytes of the longest map of a set.
    pub const MAP: usize = Layout::CELL * Layout::MAP_CELLS;
    // The most different checkpoints of a set.
    pub const CHECKPOINTS: u8 = 8;
}

// The word from index at on, of a record that is known to be there.
fn word(s: &[u8], at: usize) -> u16
    requires { at + 1 < length s.now }
    ensures { result ≡ word_at s.now at }
{
    u16::from_le_bytes([s[at], s[at + 1]])
}

// The statement in record k; a byte past the end is 0.
pub fn statement_at(set: &[u8], k: u32) -> Statement
    ensures { result ≡ statement_at set.now k }
{
    let at = Statement::SIZE * (k as usize);
    // One test for the whole statement, so that its argument is read at once.
    if at + 5 < set.len() {
        return Statement {
            number: set[at + 1],
            mode: set[at + 2],
            argument: word(set, at + 4),
        };
    }
    Statement {
        number: base::byte_at(set, at + 1),
        mode: base::byte_at(set, at + 2),
        argument: base::word_at(set, at + 4),
    }
}

// How many statements thread t has, 0 where there is no such thread.
pub fn count(layout: Layout, t: u8) -> u16
    ensures { result ≡ get_or layout.counts t 0 }
{
    let thread = usize::from(t);
    if thread < Layout::THREADS {
        return layout.counts[thread];
    }
    0
}

// The record of thread t's first statement, 0 where there is no such thread.
pub fn first(layout: Layout, t: u8) -> u32
    ensures { (result ≡ get_or layout.starts t 0) × (result < 65536) }
{
    let thread = usize::from(t);
    if thread < Layout::THREADS {
        return u32::from(layout.starts[thread]);
    }
    0
}

// Thread t's statement p, or no instruction where there is none.
pub fn fetch(set: &[u8], layout: Layout, t: u8, p: u16) -> Statement
    ensures { result ≡ (set_by set.now layout).statement t p }
{
    let thread = usize::from(t);
    if thread < Layout::THREADS {
        if p < layout.counts[thread] {
            let k = u32::from(layout.starts[thread]) + u32::from(p);
            return statement_at(set, k);
        }
    }
    Statement {
        number: Statement::INSTRUCTIONS,
        mode: 0,
        argument: 0,
    }
}

// The layout of a set that is given with a map of at most `cells` cells; 9 where either is not accepted.
pub fn accept(set: &[u8], map: &[u8], cells: usize) -> Result<Layout, Refusal>
    ensures { let accepted = set_accepted set.now && map_accepted cells map.now in
        MatchResult result (λ layout. (accepted ≡ true) × (layout ≡ layout_of set.now)) (λ refusal. (accepted ≡ false) × (refusal ≡ Refusal.Records)) }
{
    let layout = set::layout(set);
    if layout.threads == 0 {
        return Err(Refusal::Records);
    }
    if !map::map_accepted(map, cells) {
        return Err(Refusal::Records);
    }
    Ok(layout)
}
