// Lists of a set's statements, in a table that is made once for a set: the CHECKs of each thread by checkpoint, and its jumps by the statement that they name.
ghost use Rattle.std.specs.Prelude.{◌≡◌, ℕ, ◌+◌, ◌≤◌, ◌<◌, MatchOption, length, get_or, replicate};
ghost use Rattle.records.specs.Sets.{set_by, most_threads, most_checkpoints};
ghost use Rattle.set_index.specs.Points.{listed};
ghost use Rattle.set_index.specs.Members.{Members, class_count, class_number};
ghost use Rattle.set_index.specs.ListTables.{ListTable, Distinct, many, name, all_of, Listing, Made, lists_length, no_statement};

use crate::members::{Class, count_of, member};
use crate::numbers::add;
use crate::points::Points;
use records::Layout;

// No statement: a number after those of all statements, so that one comparison asks whether there is a next one and whether it comes before an end.
pub const NONE: u16 = Layout::STATEMENTS;

// The numbers of a thread in a part of the table: a number for each checkpoint or for each statement.
pub const POINT_ROW: u16 = Layout::CHECKPOINTS as u16;

pub const STATEMENT_ROW: u16 = Layout::STATEMENTS;

const THREADS: u8 = Layout::THREADS as u8;

const THREADS_OF: u16 = Layout::THREADS as u16;

// Where the parts of the table begin: the CHECK after each CHECK, the first jump to each statement, the jump after each jump.
// The part with the first CHECK of each checkpoint comes first.
pub const NEXT_CHECKS: u16 = POINT_ROW * THREADS_OF;

pub const FIRST_JUMPS: u16 = NEXT_CHECKS + STATEMENT_ROW * THREADS_OF;

pub const NEXT_JUMPS: u16 = FIRST_JUMPS + STATEMENT_ROW * THREADS_OF;

// The length of the table.
pub const LENGTH: usize = (NEXT_JUMPS + STATEMENT_ROW * THREADS_OF) as usize;

// Which list of its class a statement with this argument is of, if it is of one: a CHECK of its checkpoint's, a jump of that of the statement it names.
fn list_of(points: &[u16], class: Class, argument: u16) -> Option<u16>
    requires { length points.now ≤ most_checkpoints }
    ensures { MatchOption result ((p : ℕ) → p < many points.now (class_number class) → name points.now (class_number class) p ≡ argument → ⊥)
        (λ list. (list < no_statement) × (list < many points.now (class_number class)) × (name points.now (class_number class) list ≡ argument)) }
{
    match class {
        Class::Check => {
            let at = points.iter().position(|point| *point == argument)?;
            Some(at as u16)
        }
        _ => (argument < NONE).then_some(argument),
    }
}

// Lists the statements of a class of thread t, from the last to the first. The first ones of the lists stand from `heads` on, the next ones from `nexts` on.
fn list_members(
    set: &[u8],
    layout: Layout,
    points: Points,
    members: &[u8],
    table: &mut [u8],
    class: Class,
    heads: u16,
    nexts: u16,
    t: u8,
)
    ensures { (length table.new ≡ length table.old)
        × (class_number class < class_count → t < most_threads → Members (set_by set.now layout) members.now → Distinct (listed points)
        → heads + many (listed points) (class_number class) ≤ nexts → nexts + 32 ≤ length table.old
        → ((p : ℕ) → p < many (listed points) (class_number class) → get_or table.old (heads + p) 0 ≡ no_statement)
        → Listing (set_by set.now layout) (listed points) (class_number class) t (all_of (set_by set.now layout) t) heads nexts table.old table.new) }
{
    let first = records::first(layout, t);
    let count = count_of(members, class, t);
    for k in 0..count {
        let i = member(members, class, t, count - 1 - k);
        let s = records::statement_at(set, first + u32::from(i));
        add(
            table,
            heads,
            nexts,
            list_of(points.as_slice(), class, s.argument),
            i,
        );
    }
}

// Makes the lists of thread t.
fn make_thread(set: &[u8], layout: Layout, points: Points, members: &[u8], table: &mut [u8], t: u8)
    ensures { (length table.new ≡ length table.old)
        × (t < most_threads → Members (set_by set.now layout) members.now → Distinct (listed points)
        → Made (set_by set.now layout) (listed points) t table.old
        → Made (set_by set.now layout) (listed points) (t + 1) table.new) }
{
    let row = STATEMENT_ROW * u16::from(t);
    let checks = POINT_ROW * u16::from(t);
    list_members(
        set,
        layout,
        points,
        members,
        table,
        Class::Check,
        checks,
        NEXT_CHECKS + row,
        t,
    );
    list_members(
        set,
        layout,
        points,
        members,
        table,
        Class::Jump,
        FIRST_JUMPS + row,
        NEXT_JUMPS + row,
        t,
    );
}

// Makes the table, from one whose numbers are all NONE.
pub fn make(set: &[u8], layout: Layout, points: Points, members: &[u8], table: &mut [u8])
    ensures { (length table.new ≡ length table.old)
        × (table.old ≡ replicate lists_length no_statement → layout.threads ≤ most_threads → Members (set_by set.now layout) members.now → Distinct (listed points)
        → ListTable (set_by set.now layout) (listed points) table.new) }
{
    let threads = layout.threads;
    if THREADS < threads {
        return;
    }
    for t in 0..threads {
        make_thread(set, layout, points, members, table, t);
    }
}
