// Checkpoints: which threads contain a CHECK, when a checkpoint is open, and the marks that a step clears.
ghost use Rattle.std.specs.Prelude.{◌≡◌, cond, not, ◌&&◌, ◌||◌, is_some, eqb, get_or};
ghost use Rattle.records.specs.Instructions.{CHECK as check};
ghost use Rattle.records.specs.Sets.{set_by};
ghost use Rattle.machine.specs.Machine.{unmarked, checkpoint_of, contains as contains_of, marked_at, opened as opened_of, cleared as cleared_of};

use records::{Instruction, Layout, Statement};

// Whether a statement is CHECK c.
fn checks(i: Statement, c: u16) -> bool
    ensures { result ≡ (eqb i.number check && eqb i.argument c) }
{
    i.is(Instruction::Check) && i.argument == c
}

// Whether thread t contains CHECK c.
fn contains(set: &[u8], layout: Layout, t: u8, c: u16) -> bool
    ensures { result ≡ contains_of (set_by set.now layout) t c }
{
    let n = records::count(layout, t);
    let first = records::first(layout, t);
    for p in 0..n {
        let i = records::statement_at(set, first + u32::from(p));
        if checks(i, c) {
            return true;
        }
    }
    false
}

// Whether a mark is one at checkpoint c.
fn marked_at(m: Option<u16>, c: u16) -> bool
    ensures { result ≡ marked_at m c }
{
    m == Some(c)
}

// Thread t's mark.
fn mark_of(marks: [Option<u16>; Layout::THREADS], t: u8) -> Option<u16>
    ensures { result ≡ get_or marks t unmarked }
{
    marks.get(usize::from(t)).copied().flatten()
}

// Whether thread t keeps checkpoint c shut: it contains CHECK c and is not marked there.
fn shuts(set: &[u8], layout: Layout, m: Option<u16>, t: u8, c: u16) -> bool
    ensures { not result ≡ (not (contains_of (set_by set.now layout) t c) || marked_at m c) }
{
    if marked_at(m, c) {
        return false;
    }
    contains(set, layout, t, c)
}

// Whether checkpoint c is open: every thread containing CHECK c is marked there.
pub fn opened(set: &[u8], layout: Layout, marks: [Option<u16>; Layout::THREADS], c: u16) -> bool
    ensures { result ≡ opened_of (set_by set.now layout) (λ t. get_or marks t unmarked) c }
{
    for t in 0..layout.threads {
        if shuts(set, layout, mark_of(marks, t), t, c) {
            return false;
        }
    }
    true
}

// Whether a mark is at an open checkpoint.
fn clears(set: &[u8], layout: Layout, marks: [Option<u16>; Layout::THREADS], m: Option<u16>) -> bool
    ensures { result ≡ (is_some m && opened_of (set_by set.now layout) (λ t. get_or marks t unmarked) (checkpoint_of m)) }
{
    match m {
        Some(c) => opened(set, layout, marks, c),
        None => false,
    }
}

// The same where it is known of another mark, which is often the same one.
fn clears_too(
    set: &[u8],
    layout: Layout,
    marks: [Option<u16>; Layout::THREADS],
    m: Option<u16>,
    other: Option<u16>,
    known: bool,
) -> bool
    requires { known ≡ (is_some other && opened_of (set_by set.now layout) (λ t. get_or marks t unmarked) (checkpoint_of other)) }
    ensures { result ≡ (is_some m && opened_of (set_by set.now layout) (λ t. get_or marks t unmarked) (checkpoint_of m)) }
{
    match m {
        Some(c) if marked_at(other, c) => known,
        Some(c) => opened(set, layout, marks, c),
        None => false,
    }
}

// A mark, or none once it is cleared.
fn kept(cleared: bool, m: Option<u16>) -> Option<u16>
    ensures { result ≡ cond cleared unmarked m }
{
    if cleared { None } else { m }
}

// The marks once those of open checkpoints are cleared.
pub fn clear(
    set: &[u8],
    layout: Layout,
    marks: [Option<u16>; Layout::THREADS],
) -> [Option<u16>; Layout::THREADS]
    ensures { (λ t. get_or result t unmarked) ≡ cleared_of (set_by set.now layout) (λ t. get_or marks t unmarked) }
{
    let a = clears(set, layout, marks, marks[0]);
    let b = clears_too(set, layout, marks, marks[1], marks[0], a);
    let c = clears_too(set, layout, marks, marks[2], marks[1], b);
    let d = clears_too(set, layout, marks, marks[3], marks[2], c);
    [
        kept(a, marks[0]),
        kept(b, marks[1]),
        kept(c, marks[2]),
        kept(d, marks[3]),
    ]
}
