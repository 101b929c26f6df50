// The loop that `follow` and `retrace` share: over the steps of a schedule or of a trace.
ghost use Rattle.std.specs.Prelude.{◌≡◌, true, cond, ◌&&◌, ℕ, ◌+◌, ◌*◌, ◌≤◌, ◌<◌, None, MatchResult, leb, length};
ghost use Rattle.records.specs.Maps.{cells, address_at, value_at, holds, content, map_value};
ghost use Rattle.records.specs.Sets.{set_by, most_threads};
ghost use Rattle.machine.specs.Held.{state_of, held_of, memory_of, known_of, known_in, cells_of};
ghost use Rattle.machine.specs.Machine.{start, no_write};
ghost use Rattle.machine.specs.Maps.{begin as begin_of};
ghost use Rattle.machine.specs.Runs.{can_act, most_steps};
ghost use Rattle.machine.specs.Traces.{step_bytes, step_length, trace as trace_of};
ghost use Rattle.step.specs.Ends.{end_for};
ghost use Rattle.step.specs.Runs.{Begins, Lacks, StopsAt, answered, unknown as unknown_of};
ghost use Rattle.step.specs.Walks.{step_refusal, walked, walked_lacks, walked_over, choices_from};

use crate::inputs::Steps;
use crate::{Stopped, acting};
use machine::{Choice, End, Machine, Outcome, Read, Run, Thread, memory};
use records::{Cell, Layout, Refusal, Refused, Statement};

// Fresh threads and no marks.
fn fresh_machine() -> Machine
    ensures { (memory : ℕ → ℕ) → state_of result memory ≡ start memory }
{
    let x = Thread::fresh();
    Machine {
        threads: [x; Layout::THREADS],
        marks: [None; Layout::THREADS],
        ended: false,
        code: 0,
    }
}

// Puts a map's cells into the sparse memory, if there is room, and gives the filled count.
fn begin(map: &[u8], addresses: &mut [u16], values: &mut [u16]) -> usize
    ensures { (result ≡ cond (leb (cells map.now) (length addresses.old) && leb (cells map.now) (length values.old)) (cells map.now) 0)
        × (memory_of addresses.new values.new result ≡ content (address_at map.now) (value_at map.now) result)
        × (known_of addresses.new result ≡ holds (address_at map.now) result) }
{
    let n = map.len() / Layout::CELL;
    if addresses.len() < n {
        return 0;
    }
    if values.len() < n {
        return 0;
    }
    for k in 0..n {
        addresses[k] = base::word_at(map, Layout::CELL * k);
        values[k] = base::word_at(map, Layout::CELL * k + 2);
    }
    n
}

// Whether thread t may execute or flush.
fn acts(set: &[u8], layout: Layout, m: Machine, t: u8) -> bool
    ensures { (memory : ℕ → ℕ) → result ≡ (leb layout.threads most_threads && can_act (set_by set.now layout) (state_of m memory) t) }
{
    if machine::choices::permits(set, layout, m, Choice::Execute(t)) {
        return true;
    }
    machine::choices::permits(set, layout, m, Choice::Flush(t))
}

// How a run stands.
fn end_of(set: &[u8], layout: Layout, m: Machine) -> End
    ensures { (memory : ℕ → ℕ) → result ≡ end_for layout (set_by set.now layout) (state_of m memory) }
{
    if m.ended {
        return End::Code(m.code);
    }
    for t in 0..layout.threads {
        if acts(set, layout, m, t) {
            return End::Open;
        }
    }
    End::Stuck
}

// A trace step's bytes: thread t with registers x at statement i, after a step that wrote w.
fn step_bytes(t: u8, i: Statement, x: Thread, w: Option<Cell>) -> [u8; Machine::STEP]
    ensures { result ≡ step_bytes t i x w }
{
    let [pc, pc_high] = x.pc.to_le_bytes();
    let [argument, argument_high] = i.argument.to_le_bytes();
    let [accu, accu_high] = x.accu.to_le_bytes();
    let [mem, mem_high] = x.mem.to_le_bytes();
    let [adr, adr_high] = x.adr.to_le_bytes();
    let [val, val_high] = x.val.to_le_bytes();
    let cell = w.unwrap_or(Cell {
        address: 0,
        value: 0,
    });
    let [address, address_high] = cell.address.to_le_bytes();
    let [value, value_high] = cell.value.to_le_bytes();
    [
        t,
        i.number,
        pc,
        pc_high,
        argument,
        argument_high,
        i.mode,
        u8::from(x.full),
        accu,
        accu_high,
        mem,
        mem_high,
        adr,
        adr_high,
        val,
        val_high,
        u8::from(w.is_some()),
        0,
        address,
        address_high,
        value,
        value_high,
        0,
        0,
    ]
}

// A refusal at a step.
fn refused(refusal: Refusal, step: usize) -> Stopped
    requires { step < most_steps }
    ensures { result ≡ Stopped.Refused (record { refusal = refusal; place = step }) }
{
    Stopped::Refused(Refused {
        refusal,
        place: step as u32,
    })
}

// Whether a step stands: 12 before 13 before 14, which names the first of the cells read that is not among these.
fn judge(
    outcome: Outcome,
    agreed: bool,
    step: usize,
    addresses: &[u16],
    read: Read,
) -> Result<(), Stopped>
    requires { step < most_steps }
    ensures { MatchResult result (λ _. step_refusal outcome agreed ≡ None)
        (StopsAt (step_refusal outcome agreed) step (unknown_of (known_in addresses.now) (cells_of read))) }
{
    match outcome {
        Outcome::NotPermitted => Err(refused(Refusal::NotPermitted, step)),
        Outcome::Taken if agreed => Ok(()),
        Outcome::Lacking if agreed => Err(Stopped::Lacking {
            step: step as u32,
            cell: unknown(addresses, read),
        }),
        _ => Err(refused(Refusal::Differs, step)),
    }
}

// Whether the cell at address a is among these.
fn knows(addresses: &[u16], a: u16) -> bool
    ensures { result ≡ known_in addresses.now a }
{
    memory::cell_at(addresses, a) < addresses.len()
}

// The first of the cells read that is not known; 0 where all are.
fn unknown(addresses: &[u16], read: Read) -> u16
    ensures { result ≡ unknown_of (known_in addresses.now) (cells_of read) }
{
    if let Some(a) = read.argument {
        if !knows(addresses, a) {
            return a;
        }
    }
    if let Some(a) = read.word {
        if !knows(addresses, a) {
            return a;
        }
    }
    0
}

// Takes the steps from a first machine over a sparse memory, and puts each one's record into the lent bytes.
// The machine is changed in place: a step copies it nowhere.
fn run<T: Steps>(
    set: &[u8],
    layout: Layout,
    first: Machine,
    steps: &T,
    addresses: &mut [u16],
    values: &mut [u16],
    cells: usize,
    trace: &mut [u8],
) -> Result<Run, Stopped>
    requires { (layout.threads ≤ most_threads) × (T.count steps.now ≤ most_steps)
        × (cells + T.count steps.now ≤ length addresses.old) × (cells + T.count steps.now ≤ length values.old) }
    ensures { (answered result ≡ walked (set_by set.now layout) (T.choice steps.now) (T.agrees steps.now) (held_of first addresses.old values.old cells) no_write 0 (T.count steps.now))
        × Lacks result (walked_lacks (set_by set.now layout) (T.choice steps.now) (held_of first addresses.old values.old cells) 0 (T.count steps.now))
        × (step_length * T.count steps.now ≤ length trace.old →
        Begins result (trace_of (set_by set.now layout) (state_of first (memory_of addresses.old values.old cells)) no_write (choices_from (T.choice steps.now) 0 (T.count steps.now))) trace.new) }
{
    let mut m = first;
    let mut filled = cells;
    let mut wrote = None;
    let count = steps.count();
    for step in 0..count {
        let choice = steps.choice(step);
        let t = machine::choices::actor(choice);
        let at = usize::from(t % Machine::THREADS);
        let x = m.threads[at];
        let marks = m.marks;
        let mark = m.marks[at];
        let s = acting::advance(
            set, layout, marks, mark, m.ended, x, addresses, values, filled, choice,
        );
        let i = s.statement;
        let y = s.thread;
        let bytes = step_bytes(t, i, x, wrote);
        base::place(trace, Machine::STEP * step, &bytes);
        let agreed = steps.agrees(step, &bytes);
        judge(s.outcome, agreed, step, &addresses[..s.filled], s.read)?;
        m.threads[at] = y;
        filled = s.filled;
        wrote = s.wrote;
        if !acting::quiet(marks, i, y) {
            let threads = m.threads;
            let after = acting::marks_after(set, layout, marks, t, i);
            m.marks = after;
            m.ended = acting::ended_after(layout.threads, threads, i, m.ended);
            m.code = acting::code_after(i, m.code);
        }
    }
    let end = end_of(set, layout, m);
    Ok(Run {
        steps: count as u16,
        end,
    })
}

// Takes the steps from the start over a map, and puts their trace into the lent bytes where there is room; 17 past the limits of a run.
pub fn walk<T: Steps>(
    set: &[u8],
    layout: Layout,
    map: &[u8],
    steps: &T,
    trace: &mut [u8],
) -> Result<Run, Stopped>
    ensures { (answered result ≡ walked_over (set_by set.now layout) map.now (T.choice steps.now) (T.agrees steps.now) (T.count steps.now))
        × Lacks result (walked_lacks (set_by set.now layout) (T.choice steps.now) (begin_of map.now) 0 (T.count steps.now))
        × (step_length * T.count steps.now ≤ length trace.old →
        Begins result (trace_of (set_by set.now layout) (start (map_value map.now)) no_write (choices_from (T.choice steps.now) 0 (T.count steps.now))) trace.new) }
{
    let within = (layout.threads <= Machine::THREADS)
        & (map.len() / Layout::CELL <= Machine::MAP_CELLS)
        & (steps.count() <= Machine::STEPS);
    if !within {
        return Err(Stopped::Refused(Refusal::Length.into()));
    }
    let mut addresses = [0u16; Machine::CELLS];
    let mut values = [0u16; Machine::CELLS];
    let filled = begin(map, &mut addresses, &mut values);
    run(
        set,
        layout,
        fresh_machine(),
        steps,
        &mut addresses,
        &mut values,
        filled,
        trace,
    )
}
