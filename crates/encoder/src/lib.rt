// The encoder: the size of a table, and its bytes.
#![tactic(auto)]

ghost use Rattle.std.specs.Prelude.{◌≡◌, cond, Result, MatchResult, List, [], ◌∷◌, ◌++◌, ℕ, ◌+◌, ◌-◌, ◌*◌, ◌≤◌, ◌<◌, ltb, length};
ghost use Rattle.records.specs.Maps.{cells, set_cells};
ghost use Rattle.records.specs.Refusals.{of_call};
ghost use Rattle.records.specs.Sets.{Set, set_by, most_threads};
ghost use Rattle.table.specs.Formulas.{written_at, formula_length};
ghost use Rattle.table.specs.Repeats.{moved_by, last_index};
ghost use Rattle.table.specs.Programs.{leaf_formula, choice_bit, aims, upto, compiled, next_after};
ghost use Rattle.encoding.specs.Encodings.{map_demand, starting, goal_tree, firsts as firsts_of, encoded as encoded_of};
ghost use Rattle.encoding.specs.Slots.{Slot, same, code as code_kind};
ghost use Rattle.encoding.specs.Steps.{only, word0, step as step_of};
ghost use Rattle.encoder_slots.specs.Places.{place_of};
ghost use Rattle.set_index.specs.Points.{listed};
ghost use Rattle.set_index.specs.ListTables.{Distinct};
ghost use Rattle.encoder.specs.Answers.{checked, size_answer, encode_answer, table_output};
ghost use Rattle.encoder_slots.specs.Pieces.{Writes, Ready};
ghost use Rattle.encoder.specs.Accepted.{IsAccepted};
ghost use Rattle.encoder.specs.Repeating.{Started, Stepped, Ended, early_room, steps_room};
ghost use Rattle.encoder_size.specs.Sizes.{Limits};
ghost use Rattle.machine.specs.Runs.{most_steps};

use encoder_slots::{Kind, start};
use machine::Machine;
use records::{Layout, Refusal, Refused};
use set_index::points::Points;
use table::{Formula, Operation, Sort};

// The greatest bound.
const STEPS: u64 = Machine::STEPS as u64;

// Bytes of a record.
const BYTES: u64 = Formula::BYTES as u64;

// No statement, in the table of lists.
const NONE: u8 = set_index::lists::NONE as u8;

// ---- the parts of a table

// Writes the steps.
fn steps(
    set: &[u8],
    layout: Layout,
    points: Points,
    members: &[u8],
    lists: &[u8],
    slots: &mut [u32],
    out: &mut [u8],
    bound: u8,
    n: u32,
) -> u32
    requires { (Ready (set_by set.now layout) (listed points) members.now lists.now slots.old n) × (n ≤ early_room) × (bound ≤ most_steps) }
    ensures { (Writes (upto (step_of (set_by set.now layout) (listed points)) bound)
        out.old slots.old n out.new slots.new result)
        × (result ≤ n + steps_room) }
{
    let mut next = n;
    for k in 0..bound {
        next = encoder_step::one_step(set, layout, points, members, lists, slots, out, k, next);
    }
    next
}

// Writes records 0 to 3: bits 0 and 1, the word 0, the first memory.
fn firsts(out: &mut [u8])
    ensures { out.new ≡ written_at out.old 0 firsts_of }
{
    let bit0 = Formula::known(Sort::Bit, 0);
    let bit1 = Formula::known(Sort::Bit, 1);
    let word0 = Formula::known(Sort::Word, 0);
    let memory = Formula::new(Operation::First, Sort::Memory, 0, 0, 0);
    table::put(out, 0, bit0);
    table::put(out, 1, bit1);
    table::put(out, 2, word0);
    table::put(out, 3, memory);
}

// Writes the constraint of map cell j.
fn demand(map: &[u8], slots: &[u32], out: &mut [u8], j: u32, n: u32) -> u32
    requires { n ≤ last_index }
    ensures { (Writes (map_demand map.now j)
        out.old slots.now n out.new slots.now result)
        × (result ≡ n + 5) }
{
    let at = u64::from(n);
    let address = Formula::known(Sort::Word, records::map::address_at(map, j));
    let read = Formula::new(
        Operation::Read,
        Sort::Word,
        encoder_slots::place(slots, Kind::SharedMemory, 0, 0, start::MEMORY),
        at,
        0,
    );
    let value = Formula::known(Sort::Word, records::map::value_at(map, j));
    let equal = Formula::new(Operation::Equal, Sort::Bit, at + 1, at + 2, 0);
    let constraint = Formula::new(Operation::Constraint, Sort::None, at + 3, 0, 0);
    table::put(out, n, address);
    table::put(out, n + 1, read);
    table::put(out, n + 2, value);
    table::put(out, n + 3, equal);
    table::put(out, n + 4, constraint);
    n + 5
}

// Writes the constraints of the map.
fn demands(map: &[u8], slots: &[u32], out: &mut [u8], n: u32) -> u32
    requires { (n ≤ early_room) × (cells map.now ≤ set_cells) }
    ensures { (Writes (upto (map_demand map.now) (cells map.now))
        out.old slots.now n out.new slots.now result)
        × (result ≤ n + 640) }
{
    let mut next = n;
    for j in 0..map.len() / Layout::CELL {
        next = demand(map, slots, out, j as u32, next);
    }
    next
}

// Writes what stands before the steps, from record 4 on.
fn before_steps(
    set: &[u8],
    layout: Layout,
    points: Points,
    members: &[u8],
    map: &[u8],
    slots: &mut [u32],
    out: &mut [u8],
) -> u32
    requires { cells map.now ≤ set_cells }
    ensures { ((lists : List ℕ) → Ready (set_by set.now layout) (listed points) members.now lists slots.old 4
        → Writes (starting (set_by set.now layout) (listed points) ++ upto (map_demand map.now) (cells map.now))
        out.old slots.old 4 out.new slots.new result)
        × (result ≤ early_room) }
{
    let all = encoder_step::shared(set, layout, members, slots, out, 4);
    demands(map, slots, out, all)
}

// Writes the goal: the code is not 0.
fn goal(out: &mut [u8], n: u32, code: u64, zero: u64)
    requires { n ≤ last_index }
    ensures { (places : Slot → ℕ) → code ≡ places (only code_kind) → zero ≡ places word0
        → out.new ≡ written_at out.old n (compiled same places n (aims goal_tree ∷ [])) }
{
    let at = u64::from(n);
    let equal = Formula::new(Operation::Equal, Sort::Bit, code, zero, 0);
    let not = Formula::new(Operation::Not, Sort::Bit, at, 0, 0);
    let aim = Formula::new(Operation::Goal, Sort::None, at + 1, 0, 0);
    table::put(out, n, equal);
    table::put(out, n + 1, not);
    table::put(out, n + 2, aim);
}

// ---- steps that repeat the one before

// Choice bit j of a step: executes by thread, then flushes by thread.
fn choice_bit(threads: u8, step: u8, j: u8) -> Formula
    ensures { result ≡ leaf_formula (cond (ltb j threads) (choice_bit step 0 j) (choice_bit step 1 (j - threads))) }
{
    let (row, t) = if j < threads {
        (0, j)
    } else {
        (1, j - threads)
    };
    Formula::new(
        Operation::Choice,
        Sort::Bit,
        u64::from(step),
        row,
        u64::from(t),
    )
}

// Writes the choice bits of a step.
fn choice_bits(threads: u8, out: &mut [u8], step: u8, n: u32)
    requires { (n + (threads + threads) ≤ last_index) × (threads ≤ most_threads) }
    ensures { out.new ≡ written_at out.old n
        (upto (λ j. leaf_formula (cond (ltb j threads) (choice_bit step 0 j) (choice_bit step 1 (j - threads))) ∷ []) (threads + threads)) }
{
    for j in 0..threads + threads {
        table::put(out, n + u32::from(j), choice_bit(threads, step, j));
    }
}

// Writes step k by repeating the one before it: its choice bits, and the other records with their operands moved on.
fn repeated_step(threads: u8, out: &mut [u8], k: u8, first: u32, stride: u32, n: u32)
    requires { (n + stride ≤ last_index) × (threads ≤ most_threads) × (threads + threads ≤ stride) }
    ensures { (S : Set) (cs : List ℕ) (start : Slot → ℕ) (begun : List ℕ) → Started S cs start threads first stride → 2 ≤ k
        → formula_length * (n + stride) ≤ length begun → Stepped S cs start first k begun out.old n
        → Stepped S cs start first (k + 1) begun out.new (n + stride) }
{
    choice_bits(threads, out, k, n);
    let bits = 2 * u32::from(threads);
    table::repeats::repeat(out, n + bits, stride - bits, first, stride);
}

// Writes the steps after the second. On its own, so that what the loop over records needs stays in registers: with `few_steps` too, 0.92 in place of
// 1.03 times the second implementation's time of `encode` for the bound 64.
#[inline(never)]
fn repeated_steps(threads: u8, out: &mut [u8], bound: u8, first: u32, stride: u32, n: u32) -> u32
    requires { (n ≤ early_room + steps_room) × (threads ≤ most_threads) × (threads + threads ≤ stride) × (stride ≤ steps_room) × (2 ≤ bound) × (bound ≤ most_steps) }
    ensures { ((S : Set) (cs : List ℕ) (start : Slot → ℕ) (begun : List ℕ) → Started S cs start threads first stride
        → formula_length * (first + bound * stride) ≤ length begun → Stepped S cs start first 2 begun out.old n
        → Stepped S cs start first bound begun out.new result)
        × (result ≤ n + steps_room * bound) }
{
    let mut next = n;
    for k in 2..bound {
        repeated_step(threads, out, k, first, stride, next);
        next += stride;
    }
    next
}

// Where a value lies that stays where it lies before record `first`, and else lies further by a distance.
fn further(x: u64, first: u32, distance: u64) -> u64
    requires { (x ≤ 4294967296) × (distance ≤ 4294967296) }
    ensures { result ≡ moved_by first distance x }
{
    if x < u64::from(first) {
        x
    } else {
        x + distance
    }
}

// The steps written: the next index, and where the code and the word 0 lie.
#[derive(Clone, Copy)]
struct Last {
    next: u32,
    code: u64,
    zero: u64,
}

// Writes steps for themselves. On its own, so that it takes no registers of the loops beside it.
#[inline(never)]
fn few_steps(
    set: &[u8],
    layout: Layout,
    points: Points,
    members: &[u8],
    lists: &[u8],
    slots: &mut [u32],
    out: &mut [u8],
    bound: u8,
    first: u32,
) -> Last
    requires { (Ready (set_by set.now layout) (listed points) members.now lists.now slots.old first) × (first ≤ early_room) × (bound ≤ most_steps) }
    ensures { (Ended (set_by set.now layout) (listed points) (place_of slots.old) first bound
        out.old out.new result.next result.code result.zero)
        × (result.next ≤ early_room + steps_room) }
{
    let next = steps(
        set, layout, points, members, lists, slots, out, bound, first,
    );
    Last {
        next,
        code: encoder_slots::place(slots, Kind::Code, 0, 0, start::WORD0),
        zero: encoder_slots::place(slots, Kind::WordZero, 0, 0, start::WORD0),
    }
}

// Writes the steps after the second, which repeat the one before.
fn later_steps(threads: u8, out: &mut [u8], bound: u8, first: u32, second: Last) -> Last
    requires { (threads ≤ most_threads) × (2 ≤ bound) × (bound ≤ most_steps) × (first + 4 * threads ≤ second.next) × (second.next ≤ early_room + steps_room)
        × (second.code ≤ 4294967296) × (second.zero ≤ 4294967296) }
    ensures { ((S : Set) (cs : List ℕ) (start : Slot → ℕ) (begun : List ℕ) → S.threads ≡ threads → ((s : Slot) → start s < first)
        → formula_length * next_after same first (upto (step_of S cs) bound) ≤ length begun
        → Ended S cs start first 2 begun out.old second.next second.code second.zero
        → Ended S cs start first bound begun out.new result.next result.code result.zero)
        × (result.next ≤ last_index) }
{
    let next = second.next;
    let stride = (next - first) / 2;
    let distance = u64::from(bound - 2) * u64::from(stride);
    Last {
        next: repeated_steps(threads, out, bound, first, stride, next),
        code: further(second.code, first, distance),
        zero: further(second.zero, first, distance),
    }
}

// Writes the steps.
fn all_steps(
    set: &[u8],
    layout: Layout,
    points: Points,
    members: &[u8],
    lists: &[u8],
    slots: &mut [u32],
    out: &mut [u8],
    bound: u8,
    first: u32,
) -> Last
    requires { (Ready (set_by set.now layout) (listed points) members.now lists.now slots.old first) × (first ≤ early_room) × (bound ≤ most_steps)
        × (formula_length * next_after same first (upto (step_of (set_by set.now layout) (listed points)) bound) ≤ length out.old) }
    ensures { (Ended (set_by set.now layout) (listed points) (place_of slots.old) first bound
        out.old out.new result.next result.code result.zero)
        × (result.next ≤ last_index) }
{
    let own = few_steps(
        set,
        layout,
        points,
        members,
        lists,
        slots,
        out,
        bound.min(2),
        first,
    );
    if bound <= 2 {
        own
    } else {
        later_steps(layout.threads, out, bound, first, own)
    }
}

// ---- whole tables

// Writes a table that fits.
fn write(set: &[u8], layout: Layout, points: Points, map: &[u8], bound: u8, table: &mut [u8])
    requires { (Limits layout) × (cells map.now ≤ set_cells) × (bound ≤ most_steps)
        × (formula_length * length (encoded_of (set_by set.now layout) (listed points) map.now bound) ≤ length table.old)
        × (Distinct (listed points)) }
    ensures { table.new ≡ written_at table.old 0 (encoded_of (set_by set.now layout) (listed points) map.now bound) }
{
    let mut members = [0u8; set_index::members::LENGTH];
    set_index::members::make(set, layout, &mut members);
    let mut lists = [NONE; set_index::lists::LENGTH];
    set_index::lists::make(set, layout, points, &members, &mut lists);
    let mut slots = [0u32; encoder_slots::SIZE];
    firsts(table);
    let first = before_steps(set, layout, points, &members, map, &mut slots, table);
    let last = all_steps(
        set, layout, points, &members, &lists, &mut slots, table, bound, first,
    );
    goal(table, last.next, last.code, last.zero);
}

// ---- the calls

// What both calls ask first: an accepted set and map, and a bound from 1 to 64, which is the number of steps.
fn accept(set: &[u8], map: &[u8], bound: u64) -> Result<(Layout, u8), Refusal>
    ensures { MatchResult result (λ accepted. IsAccepted set.now map.now bound accepted.0 accepted.1)
        (λ refusal. (rest : Result ℕ Refused) → Err (of_call refusal) ≡ checked set.now map.now bound rest) }
{
    let layout = records::accept(set, map, Layout::MAP_CELLS)?;
    if bound == 0 || STEPS < bound {
        return Err(Refusal::Bound);
    }
    Ok((layout, bound as u8))
}

// How many records the table of a set, a map and a bound has.
pub fn table_size(set: &[u8], map: &[u8], bound: u64) -> Result<u32, Refused>
    ensures { result ≡ size_answer set.now map.now bound }
{
    let (layout, steps) = accept(set, map, bound)?;
    let points = set_index::points::of_set(set, layout);
    Ok(encoder_size::table_records(set, layout, points, map, steps) as u32)
}

// Writes the table of a set, a map and a bound.
pub fn encode(set: &[u8], map: &[u8], bound: u64, table: &mut [u8]) -> Result<u32, Refused>
    ensures { (result ≡ encode_answer set.now map.now bound (length table.old))
        × (table.new ≡ table_output result set.now map.now bound table.old) }
{
    let (layout, steps) = accept(set, map, bound)?;
    let points = set_index::points::of_set(set, layout);
    let records = encoder_size::table_records(set, layout, points, map, steps);
    if (table.len() as u64) < BYTES * records {
        return Err(Refused::from(Refusal::Room));
    }
    write(set, layout, points, map, steps, table);
    Ok(records as u32)
}
