// A table of the statements of each class, made once for a set: most statements give a chain no link, and are not visited by it.
ghost use Rattle.std.specs.Prelude.{◌≡◌, ℕ, ◌+◌, ◌≤◌, ◌<◌, length, get_or, replicate};
ghost use Rattle.records.specs.Sets.{Set, set_by, most_threads, most_statements};
ghost use Rattle.set_index.specs.Members.{in_class, members_of, Members, Filled, class_count, class_number, row_index, members_length};

use crate::classes::{is_conditional, loads, sets_accu};
use machine::choices::needs_empty;
use records::instructions::is_jump;
use records::{Instruction, Layout};

// The classes of statements, by instruction.
#[derive(Clone, Copy, Debug, PartialEq, Eq)]
pub enum Class {
    Store,
    Mem,
    SetsAccu,
    Halt,
    Cas,
    Exit,
    NeedsEmpty,
    Check,
    Jump,
    Loads,
    Conditional,
}

impl Class {
    // How many classes there are.
    pub const COUNT: usize = 11;

    // Whether instruction n is of the class.
    fn has(self, n: u8) -> bool
        ensures { result ≡ in_class (class_number self) n }
    {
        match self {
            Class::Store => n == Instruction::Store.number(),
            Class::Mem => n == Instruction::Mem.number(),
            Class::SetsAccu => sets_accu(n),
            Class::Halt => n == Instruction::Halt.number(),
            Class::Cas => n == Instruction::Cas.number(),
            Class::Exit => n == Instruction::Exit.number(),
            Class::NeedsEmpty => needs_empty(n),
            Class::Check => n == Instruction::Check.number(),
            Class::Jump => is_jump(n),
            Class::Loads => loads(n),
            Class::Conditional => is_conditional(n),
        }
    }

    // Where the row of a class and a thread begins.
    fn row(self, t: u8) -> usize
        ensures { result ≡ row_index (class_number self) t }
    {
        CLASS * (self as usize) + ROW * usize::from(t)
    }
}

// What names a class: the class itself, or its number. A number past the last one names none, and its rows lie past the table.
pub trait NamesClass {
    ghost number: { Self → ℕ };

    // Where the row of the class and a thread begins.
    fn begin(self, t: u8) -> usize
        ensures row { result ≡ row_index (number self) t }
        ensures small { result < 65536 };
}

impl NamesClass for Class {
    ghost number = { class_number };

    fn begin(self, t: u8) -> usize {
        self.row(t)
    }
}

impl NamesClass for u8 {
    ghost number = { λ n. n };

    fn begin(self, t: u8) -> usize {
        CLASS * usize::from(self) + ROW * usize::from(t)
    }
}

// The length of a row, which is of a class and a thread: how many members, then the members.
const ROW: usize = 1 + (Layout::STATEMENTS as usize);

// The length of the rows of a class.
const CLASS: usize = Layout::THREADS * ROW;

// The length of the table.
pub const LENGTH: usize = Class::COUNT * CLASS;

// The most members of a row.
const STATEMENTS: u8 = Layout::STATEMENTS as u8;

const THREADS: u8 = Layout::THREADS as u8;

// How many statements of thread t are of a class.
pub fn count_of<C: NamesClass>(members: &[u8], class: C, t: u8) -> u16
    ensures { ((S : Set) → Members S members.now → C.number class < class_count → t < most_threads → result ≡ length (members_of S (C.number class) t)) × (result ≤ most_statements) }
{
    let many = base::byte_at(members, class.begin(t));
    u16::from(many).min(Layout::STATEMENTS)
}

// Which statement is the one of number j among them.
pub fn member<C: NamesClass>(members: &[u8], class: C, t: u8, j: u16) -> u16
    ensures { (S : Set) → Members S members.now → C.number class < class_count → t < most_threads → j < length (members_of S (C.number class) t)
        → result ≡ get_or (members_of S (C.number class) t) j 0 }
{
    let row = class.begin(t);
    u16::from(base::byte_at(members, row + 1 + usize::from(j)))
}

// Adds statement i of thread t to the members of a class, where it belongs to them.
fn visit(members: &mut [u8], class: Class, t: u8, i: u8, belongs: bool)
    ensures { (length members.new ≡ length members.old)
        × ((S : Set) → class_number class < class_count → t < most_threads → i < most_statements → belongs ≡ in_class (class_number class) (S.statement t i).number
        → Filled S t i (class_number class) members.old → Filled S t i (class_number class + 1) members.new) }
{
    if belongs {
        let row = class.row(t);
        let many = base::byte_at(members, row);
        if many < STATEMENTS {
            let at = row + 1 + usize::from(many);
            if at < members.len() {
                members[at] = i;
                members[row] = many + 1;
            }
        }
    }
}

// Visits the first five classes for statement i of thread t, of instruction n. Each class is named, so that the compiler leaves out the choice of its test:
// a loop over all classes took over a quarter of the time of `encode` for 128 jumps and the bound 1. A proof allows five calls that lend one buffer.
fn visit_first(members: &mut [u8], t: u8, i: u8, n: u8)
    ensures { (length members.new ≡ length members.old)
        × ((S : Set) → t < most_threads → i < most_statements → n ≡ (S.statement t i).number → Filled S t i 0 members.old → Filled S t i 5 members.new) }
{
    visit(members, Class::Store, t, i, Class::Store.has(n));
    visit(members, Class::Mem, t, i, Class::Mem.has(n));
    visit(members, Class::SetsAccu, t, i, Class::SetsAccu.has(n));
    visit(members, Class::Halt, t, i, Class::Halt.has(n));
    visit(members, Class::Cas, t, i, Class::Cas.has(n));
}

// Visits the next four classes.
fn visit_next(members: &mut [u8], t: u8, i: u8, n: u8)
    ensures { (length members.new ≡ length members.old)
        × ((S : Set) → t < most_threads → i < most_statements → n ≡ (S.statement t i).number → Filled S t i 5 members.old → Filled S t i 9 members.new) }
{
    visit(members, Class::Exit, t, i, Class::Exit.has(n));
    visit(members, Class::NeedsEmpty, t, i, Class::NeedsEmpty.has(n));
    visit(members, Class::Check, t, i, Class::Check.has(n));
    visit(members, Class::Jump, t, i, Class::Jump.has(n));
}

// Visits the last two classes.
fn visit_last(members: &mut [u8], t: u8, i: u8, n: u8)
    ensures { (length members.new ≡ length members.old)
        × ((S : Set) → t < most_threads → i < most_statements → n ≡ (S.statement t i).number → Filled S t i 9 members.old → Filled S t i 11 members.new) }
{
    visit(members, Class::Loads, t, i, Class::Loads.has(n));
    visit(members, Class::Conditional, t, i, Class::Conditional.has(n));
}

// How many of a thread's statements the table is of.
fn listed_count(count: u16) -> u8
    ensures { (result ≤ most_statements) × (count ≤ most_statements → result ≡ count) }
{
    if count < Layout::STATEMENTS {
        return count as u8;
    }
    STATEMENTS
}

// Makes the table for a thread.
fn make_thread(set: &[u8], layout: Layout, members: &mut [u8], t: u8)
    ensures { (length members.new ≡ length members.old)
        × (t < most_threads → Filled (set_by set.now layout) t 0 0 members.old
        → Filled (set_by set.now layout) (t + 1) 0 0 members.new) }
{
    // With these known, the compiler drops the tests of places in the loop.
    if THREADS <= t {
        return;
    }
    if members.len() != LENGTH {
        return;
    }
    let start = records::first(layout, t);
    let end = listed_count(records::count(layout, t));
    for i in 0..end {
        let s = records::statement_at(set, start + u32::from(i));
        visit_first(members, t, i, s.number);
        visit_next(members, t, i, s.number);
        visit_last(members, t, i, s.number);
    }
}

// Makes the table.
pub fn make(set: &[u8], layout: Layout, members: &mut [u8])
    ensures { (length members.new ≡ length members.old)
        × (members.old ≡ replicate members_length 0 → ((t : ℕ) → t < most_threads → get_or layout.counts t 0 ≤ most_statements)
        → Members (set_by set.now layout) members.new) }
{
    for t in 0..THREADS {
        make_thread(set, layout, members, t);
    }
}
