// The size of a table in closed form (docs/TABLE.md, "The size"): of one step, and of the whole table.
#![tactic(auto)]

ghost use Rattle.std.specs.Prelude.{◌≡◌, cond, ℕ, ◌+◌, ◌*◌, ◌≤◌, eqb, length, get_or};
ghost use Rattle.base.specs.Below.{number as number_below};
ghost use Rattle.records.specs.Maps.{cells, set_cells};
ghost use Rattle.records.specs.Sets.{set_by, most_checkpoints, most_records};
ghost use Rattle.machine.specs.Machine.{contains};
ghost use Rattle.table.specs.Programs.{next_after};
ghost use Rattle.encoding.specs.Encodings.{encoded as encoded_of};
ghost use Rattle.encoding.specs.Slots.{same};
ghost use Rattle.encoding.specs.Steps.{step as step_of};
ghost use Rattle.set_index.specs.Points.{listed};
ghost use Rattle.encoder_size.specs.Seen.{is_seen, checks_at, Notes};
ghost use Rattle.encoder_size.specs.Sizes.{Limits, total, own_records, within as within_of, lead_records, check_records, statement_records, thread_records, table_room};
ghost use Rattle.machine.specs.Runs.{most_steps};

use records::{Instruction, Layout, Statement};
use set_index::points::Points;

// The most checkpoints.
const POINTS: usize = Layout::CHECKPOINTS as usize;

const INDIRECT: u8 = 1;

// Records of a load, which an indirect statement has more.
const LOAD: u64 = 4;

// Records of a mark.
const MARK: u64 = 4;

// Records of a thread besides those of its statements and marks, and of a step besides those of its threads and checkpoints.
const THREAD: u64 = 15;

const STEP: u64 = 5;

// Records before the arguments, of a map cell, and of the goal.
const FIRST: u64 = 5;

const CELL: u64 = 5;

const GOAL: u64 = 3;

// ---- statements

// The records of a direct statement of instruction n, without those of the links that lead from it and that raise its mark.
#[tactic(auto, unfolding(crate::specs::Sizes::own_list))]
fn own(n: u8) -> u64
    ensures { (result ≡ own_records n) × (result ≤ 10) }
{
    // The bytes of a literal lie in the program: an array would be made anew for each statement. By instruction:
    // LOAD STORE FENCE, ADD ADDI SUB SUBI MUL MULI, JMP JZ JNZ JS JNS JNZNS, MEM CAS, HALT EXIT CHECK.
    let records =
        b"\x07\x06\x03\x08\x04\x08\x04\x08\x04\x02\x04\x04\x04\x04\x06\x08\x0a\x03\x03\x02";
    u64::from(records.get(usize::from(n)).copied().unwrap_or(2))
}

// 1 for a statement j that a thread of `count` statements has.
fn within(j: u32, count: u16) -> u64
    ensures { (result ≡ within_of j count) × (result ≤ 1) }
{
    u64::from(j < u32::from(count))
}

// To how many statements of its thread statement i leads.
fn leads(n: u8, target: u16, i: u16, count: u16) -> u64
    ensures { (result ≡ lead_records n target i count) × (result ≤ 2) }
{
    if set_index::rests(n) {
        return 0;
    }
    let next = u32::from(i) + 1;
    let there = u32::from(target);
    let conditional = set_index::is_conditional(n);
    // A jump to the next statement goes there either way.
    if (n == Instruction::Jmp as u8) | (conditional & (there == next)) {
        return within(there, count);
    }
    if conditional {
        return within(there, count) + within(next, count);
    }
    within(next, count)
}

// How many of the checkpoints have number c; each of them is noted as seen.
fn checks(points: Points, c: u16, seen: &mut [u8]) -> u64
    requires { length seen.old ≡ most_checkpoints }
    ensures { (result ≡ number_below (length (listed points)) (λ p. eqb c (get_or (listed points) p 0))) × (result ≤ most_checkpoints)
        × (length seen.new ≡ length seen.old)
        × Notes (length (listed points)) (λ p. eqb c (get_or (listed points) p 0)) seen.old seen.new }
{
    // With this known, the compiler drops the tests of places in the loop.
    if seen.len() != POINTS {
        return 0;
    }
    let mut found = 0;
    for p in 0..set_index::points::points_count(points) {
        if c == set_index::points::checkpoint(points, p) {
            found += 1;
            seen[usize::from(p)] = 1;
        }
    }
    found
}

// How many of them a statement is a CHECK of; each of them is noted as seen.
fn raises(points: Points, n: u8, argument: u16, seen: &mut [u8]) -> u64
    requires { length seen.old ≡ most_checkpoints }
    ensures { (result ≡ check_records (listed points) n argument) × (result ≤ most_checkpoints)
        × (length seen.new ≡ length seen.old)
        × Notes (length (listed points)) (checks_at (listed points) n argument) seen.old seen.new }
{
    if n == Instruction::Check as u8 {
        return checks(points, argument, seen);
    }
    0
}

// What an indirect statement has more.
fn indirect(mode: u8) -> u64
    ensures { (result ≡ cond (eqb mode 1) 4 0) × (result ≤ 4) }
{
    if mode == INDIRECT {
        return LOAD;
    }
    0
}

// The records of statement i in a thread of `count`; the checkpoints that it is a CHECK of are noted as seen.
fn statement(points: Points, s: Statement, i: u16, count: u16, seen: &mut [u8]) -> u64
    requires { length seen.old ≡ most_checkpoints }
    ensures { (result ≡ statement_records (listed points) count i s) × (result ≤ 24)
        × (length seen.new ≡ length seen.old)
        × Notes (length (listed points)) (checks_at (listed points) s.number s.argument) seen.old seen.new }
{
    own(s.number)
        + indirect(s.mode)
        + leads(s.number, s.argument, i, count)
        + raises(points, s.number, s.argument, seen)
}

// ---- threads

// The records of the statements of thread t, which has `count` of them; the checkpoints that it contains are noted as seen.
fn statements(set: &[u8], layout: Layout, points: Points, t: u8, count: u16, seen: &mut [u8]) -> u64
    requires { (count ≡ get_or layout.counts t 0) × (length seen.old ≡ most_checkpoints) }
    ensures { (result ≡ total (λ i. statement_records (listed points) count i ((set_by set.now layout).statement t i)) count) × (result ≤ 24 * count)
        × (length seen.new ≡ length seen.old)
        × Notes (length (listed points)) (λ p. contains (set_by set.now layout) t (get_or (listed points) p 0)) seen.old seen.new }
{
    let first = records::first(layout, t);
    let mut n = 0;
    for i in 0..count {
        let s = records::statement_at(set, first + u32::from(i));
        n += statement(points, s, i, count, seen);
    }
    n
}

// How many checkpoints are noted as seen.
fn marks(seen: &[u8; POINTS]) -> u64
    ensures { (result ≡ number_below most_checkpoints (is_seen seen.now)) × (result ≤ most_checkpoints) }
{
    seen.iter().filter(|&&mark| mark != 0).count() as u64
}

// The records of thread t.
fn thread(set: &[u8], layout: Layout, points: Points, t: u8) -> u64
    ensures { (result ≡ thread_records (set_by set.now layout) (listed points) t) × (result ≤ 24 * get_or layout.counts t 0 + 47) × (result ≤ 1572887) }
{
    let count = records::count(layout, t);
    let mut seen = [0u8; POINTS];
    let all = statements(set, layout, points, t, count, &mut seen);
    all + MARK * marks(&seen) + THREAD
}

// ---- steps and tables

// How many records a step has, whichever it is and wherever it starts.
fn step_records(set: &[u8], layout: Layout, points: Points) -> u64
    ensures { ((m k : ℕ) → next_after same m (step_of (set_by set.now layout) (listed points) k) ≡ m + result)
        × (Limits layout → result ≤ 3273)
        × (result ≤ 401086198) }
{
    let mut n = 0;
    for t in 0..layout.threads {
        n += thread(set, layout, points, t);
    }
    n + u64::from(set_index::points::points_count(points)) + STEP
}

// How many statements there are.
fn all_statements(layout: Layout) -> u64
    ensures { (result ≡ total (λ t. get_or layout.counts t 0) layout.threads)
        × (Limits layout → result ≤ most_records)
        × (result ≤ 16711425) }
{
    let mut n = 0;
    for t in 0..layout.threads {
        n += u64::from(records::count(layout, t));
    }
    n
}

// How many records the table of a set, a map and a bound has.
pub fn table_records(set: &[u8], layout: Layout, points: Points, map: &[u8], bound: u8) -> u64
    ensures { (result ≡ length (encoded_of (set_by set.now layout) (listed points) map.now bound))
        × (Limits layout → cells map.now ≤ set_cells → bound ≤ most_steps → result ≤ table_room) }
{
    let step = step_records(set, layout, points);
    let before = FIRST + all_statements(layout) + CELL * ((map.len() / Layout::CELL) as u64);
    before + u64::from(bound) * step + GOAL
}
