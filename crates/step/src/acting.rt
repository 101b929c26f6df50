// One step: the acting thread's registers, the memory, the marks and the end.
ghost use Rattle.std.specs.Prelude.{◌≡◌, true, false, cond, ◌&&◌, ◌||◌, [], ◌∷◌, ◌+◌, ◌≤◌, ◌<◌, eqb, ltb, length, get_or};
ghost use Rattle.base.specs.Below.{every};
ghost use Rattle.records.specs.Instructions.{CAS as cas, EXIT as exit};
ghost use Rattle.records.specs.Sets.{Set, set_by, most_threads};
ghost use Rattle.machine.specs.Held.{no_read, memory_of, memory_in, known_of, known_in, cells_of};
ghost use Rattle.step.specs.Acting.{marks_settled, quiet as quiet_of, can_step, waits, thread_by, thread_from, PcFits, Operands, statement_by, written_by, reads_by, not_taken, Advances};
ghost use Rattle.machine.specs.Machine.{State, actor, acted as acted_of, fresh, unmarked, row as row_of, next_pc, with_pc, memory_after, wrote as wrote_of, address, cells_read, executed as executed_of, cas_matches, no_write, flushed};
ghost use Rattle.machine.specs.Maps.{knows_all, known_after};

use machine::operands::Operand;
use machine::{
    Choice, Machine, Outcome, Read, Thread, checkpoints, choices, memory, operands, registers,
};
use records::{Cell, Instruction, Layout, Statement};

// What a step gave: its outcome; the statement executed, none in a flush; the acting thread's registers afterwards;
// the filled count; what was written and read.
#[derive(Clone, Copy)]
pub struct Stepped {
    pub outcome: Outcome,
    pub statement: Statement,
    pub thread: Thread,
    pub filled: usize,
    pub wrote: Option<Cell>,
    pub read: Read,
}

// The pc after a statement.
fn next_pc(i: Statement, x: Thread) -> u16
    requires { PcFits i x }
    ensures { result ≡ next_pc i x }
{
    if i.is(Instruction::Halt) | i.is(Instruction::Exit) | (Statement::INSTRUCTIONS <= i.number) {
        return x.pc;
    }
    if registers::jumps(i.number, x.accu) {
        return i.argument;
    }
    x.pc + 1
}

// The registers after a statement.
#[inline(always)]
fn executed(i: Statement, o: Operand, x: Thread) -> Thread
    requires { PcFits i x }
    ensures { result ≡ with_pc (next_pc i x) (row_of i.number i.argument o.address o.word x) }
{
    let pc = next_pc(i, x);
    let y = registers::row(i.number, i.argument, o.address, o.word, x);
    Thread { pc, ..y }
}

// Whether each of n threads has halted. None is there after four.
fn all_halted(n: u8, threads: [Thread; Layout::THREADS]) -> bool
    ensures { result ≡ every n (λ t. (get_or threads t fresh).halted) }
{
    for t in 0..n {
        let thread = usize::from(t);
        if Layout::THREADS <= thread {
            return false;
        }
        if !threads[thread].halted {
            return false;
        }
    }
    true
}

// Whether the machine has ended after statement i, which left these threads.
pub fn ended_after(n: u8, threads: [Thread; Layout::THREADS], i: Statement, ended: bool) -> bool
    ensures { result ≡ (ended || eqb i.number exit || every n (λ t. (get_or threads t fresh).halted)) }
{
    ended | i.is(Instruction::Exit) | all_halted(n, threads)
}

// Whether a taken step changes neither marks nor end: no thread is marked, and its statement i with the registers y afterwards
// neither checks, exits nor halts.
pub fn quiet(marks: [Option<u16>; Layout::THREADS], i: Statement, y: Thread) -> bool
    ensures { result ≡ quiet_of (λ t. get_or marks t unmarked) i y }
{
    let marked = marks[0].is_some() | marks[1].is_some() | marks[2].is_some() | marks[3].is_some();
    !marked & !y.halted & !i.is(Instruction::Check) & !i.is(Instruction::Exit)
}

// The machine's code after statement i.
pub fn code_after(i: Statement, code: u16) -> u16
    ensures { result ≡ cond (eqb i.number exit) i.argument code }
{
    if i.is(Instruction::Exit) {
        return i.argument;
    }
    code
}

// The marks after statement i of thread t, one of four: open checkpoints' are cleared, and then a CHECK sets its own.
fn marks_settled(
    set: &[u8],
    layout: Layout,
    marks: [Option<u16>; Layout::THREADS],
    t: u8,
    i: Statement,
) -> [Option<u16>; Layout::THREADS]
    requires { t < most_threads }
    ensures { (λ u. get_or result u unmarked) ≡ marks_settled (set_by set.now layout) (λ v. get_or marks v unmarked) t i }
{
    let mut after = checkpoints::clear(set, layout, marks);
    if i.is(Instruction::Check) {
        after[usize::from(t)] = Some(i.argument);
    }
    after
}

// The marks after statement i of thread t; as they were where it is not one of four.
pub fn marks_after(
    set: &[u8],
    layout: Layout,
    marks: [Option<u16>; Layout::THREADS],
    t: u8,
    i: Statement,
) -> [Option<u16>; Layout::THREADS]
    ensures { (λ u. get_or result u unmarked) ≡ cond (ltb t most_threads) (marks_settled (set_by set.now layout) (λ v. get_or marks v unmarked) t i) (λ v. get_or marks v unmarked) }
{
    if t < Machine::THREADS {
        return marks_settled(set, layout, marks, t, i);
    }
    marks
}

// Writes v at address a, and gives the filled count.
fn put(addresses: &mut [u16], values: &mut [u16], filled: usize, a: u16, v: u16) -> usize
    requires { (filled < length addresses.old) × (filled < length values.old) }
    ensures { (memory_of addresses.new values.new result ≡ memory_after (wrote_of a v) (memory_of addresses.old values.old filled))
        × (known_of addresses.new result ≡ known_after (wrote_of a v) (known_of addresses.old filled))
        × (result ≤ filled + 1) }
{
    let i = memory::cell_at(&addresses[..filled], a);
    values[i] = v;
    if i < filled {
        return filled;
    }
    addresses[i] = a;
    filled + 1
}

// Writes what a step writes, if it writes, and gives the filled count.
fn write(addresses: &mut [u16], values: &mut [u16], filled: usize, w: Option<Cell>) -> usize
    requires { (filled < length addresses.old) × (filled < length values.old) }
    ensures { (memory_of addresses.new values.new result ≡ memory_after w (memory_of addresses.old values.old filled))
        × (known_of addresses.new result ≡ known_after w (known_of addresses.old filled))
        × (result ≤ filled + 1) }
{
    match w {
        Some(cell) => put(addresses, values, filled, cell.address, cell.value),
        None => filled,
    }
}

// Whether a statement is a CAS whose cell equals mem.
fn matches(i: Statement, o: Operand, x: Thread) -> bool
    ensures { result ≡ (eqb i.number cas && eqb o.word x.mem) }
{
    i.is(Instruction::Cas) && o.word == x.mem
}

// What the acting thread's choice does: whether the cells it reads are known, the thread's registers afterwards,
// and the cells written and read. No option: the cells read are told also where one of them is not known.
#[derive(Clone, Copy)]
pub struct Effect {
    pub known: bool,
    pub thread: Thread,
    pub wrote: Option<Cell>,
    pub read: Read,
}

// The registers after a choice.
#[inline(always)]
fn acted(x: Thread, choice: Choice, i: Statement, o: Operand) -> Thread
    requires { PcFits i x }
    ensures { result ≡ thread_from choice i o.address o.word x }
{
    match choice {
        Choice::Execute(_) => executed(i, o, x),
        Choice::Flush(_) => Thread { full: false, ..x },
    }
}

// Updates the acting thread's registers: to those after the machine's step, in every state where it has these registers and takes this operand.
#[inline(always)]
fn update(x: &mut Thread, choice: Choice, i: Statement, o: Operand)
    requires { PcFits i x.old }
    ensures { (S : Set) (s : State) → x.old ≡ s.threads (actor choice) → Operands S s choice i o.address o.word → x.new ≡ acted_of S s choice }
{
    *x = acted(*x, choice, i, o);
}

// A copy of the acting thread's registers, lent to `update`: a thread is not lent out of the array of a machine.
#[inline(always)]
fn updated(x: Thread, choice: Choice, i: Statement, o: Operand) -> Thread
    requires { PcFits i x }
    ensures { (S : Set) (s : State) → x ≡ s.threads (actor choice) → Operands S s choice i o.address o.word → result ≡ acted_of S s choice }
{
    let mut y = x;
    update(&mut y, choice, i, o);
    y
}

// What thread t's executing of statement i does.
#[inline(always)]
fn executing(t: u8, i: Statement, x: Thread, addresses: &[u16], values: &[u16]) -> Effect
    requires { PcFits i x }
    ensures { (result.known ≡ knows_all (known_in addresses.now) (cells_read i x (memory_in addresses.now values.now)))
        × (result.thread ≡ executed_of i (memory_in addresses.now values.now) x)
        × (result.wrote ≡ cond (cas_matches i x (memory_in addresses.now values.now)) (wrote_of (address i x (memory_in addresses.now values.now)) x.accu) no_write)
        × (cells_of result.read ≡ cells_read i x (memory_in addresses.now values.now)) }
{
    let o = operands::operands(i, x, addresses, values);
    let thread = updated(x, Choice::Execute(t), i, o);
    let read = o.read;
    let cell = Cell {
        address: o.address,
        value: x.accu,
    };
    let wrote = matches(i, o, x).then_some(cell);
    Effect {
        known: o.known,
        thread,
        wrote,
        read,
    }
}

// What thread t's flushing does; it takes nothing.
#[inline(always)]
fn flushing(t: u8, i: Statement, x: Thread) -> Effect
    requires { PcFits i x }
    ensures { (result.known ≡ true) × (result.thread ≡ flushed x) × (result.wrote ≡ wrote_of x.adr x.val) × (result.read ≡ no_read) }
{
    let o = operands::none();
    let thread = updated(x, Choice::Flush(t), i, o);
    let read = o.read;
    let wrote = Some(Cell {
        address: x.adr,
        value: x.val,
    });
    Effect {
        known: o.known,
        thread,
        wrote,
        read,
    }
}

// What a choice does.
#[inline(always)]
fn effect_of(choice: Choice, i: Statement, x: Thread, addresses: &[u16], values: &[u16]) -> Effect
    requires { PcFits i x }
    ensures { (result.known ≡ knows_all (known_in addresses.now) (reads_by choice i x (memory_in addresses.now values.now)))
        × (result.thread ≡ thread_by choice i x (memory_in addresses.now values.now))
        × (result.wrote ≡ written_by choice i x (memory_in addresses.now values.now))
        × (cells_of result.read ≡ reads_by choice i x (memory_in addresses.now values.now)) }
{
    match choice {
        Choice::Execute(t) => executing(t, i, x, addresses, values),
        Choice::Flush(t) => flushing(t, i, x),
    }
}

// The statement that a choice executes, none for a flush; x are the acting thread's registers.
fn statement_of(set: &[u8], layout: Layout, x: Thread, choice: Choice) -> Statement
    ensures { result ≡ statement_by (set_by set.now layout) choice x }
{
    match choice {
        Choice::Execute(t) => records::fetch(set, layout, t, x.pc),
        Choice::Flush(_) => Statement {
            number: Statement::INSTRUCTIONS,
            mode: 0,
            argument: 0,
        },
    }
}

// A step that is not taken.
fn not_taken(outcome: Outcome, statement: Statement, filled: usize, read: Read) -> Stepped
    ensures { result ≡ not_taken outcome statement filled read }
{
    let thread = Thread::fresh();
    Stepped {
        outcome,
        statement,
        thread,
        filled,
        wrote: None,
        read,
    }
}

// A step that is not permitted: it reads nothing.
fn not_permitted(statement: Statement, filled: usize) -> Stepped
    ensures { result ≡ not_taken Outcome.NotPermitted statement filled no_read }
{
    let read = Read {
        argument: None,
        word: None,
    };
    not_taken(Outcome::NotPermitted, statement, filled, read)
}

// One step of the acting thread over a sparse memory: x are its registers, mark its mark. Where it is not taken the memory is as it was.
// The caller puts what it gives into its machine, so that a step copies no machine.
// It and what it calls are inlined into each of its callers, so that registers stay in registers: 64 steps took 1.2 times as long without.
#[inline(always)]
pub fn advance(
    set: &[u8],
    layout: Layout,
    marks: [Option<u16>; Layout::THREADS],
    mark: Option<u16>,
    ended: bool,
    x: Thread,
    addresses: &mut [u16],
    values: &mut [u16],
    filled: usize,
    choice: Choice,
) -> Stepped
    ensures { Advances (can_step layout ended (length addresses.old) (length values.old) filled choice)
        choice (statement_by (set_by set.now layout) choice x) x (waits (set_by set.now layout) (λ u. get_or marks u unmarked) mark)
        (memory_of addresses.old values.old filled) (known_of addresses.old filled) filled
        result (memory_of addresses.new values.new result.filled) (known_of addresses.new result.filled) }
{
    let t = choices::actor(choice);
    let i = statement_of(set, layout, x, choice);
    let room = (filled < addresses.len()) & (filled < values.len());
    let there = room & (t < layout.threads) & !ended;
    if there {
        if choices::may(set, layout, marks, mark, i, x, choice) {
            let e = effect_of(choice, i, x, &addresses[..filled], &values[..filled]);
            if e.known {
                let thread = e.thread;
                let wrote = e.wrote;
                let read = e.read;
                let count = write(addresses, values, filled, wrote);
                return Stepped {
                    outcome: Outcome::Taken,
                    statement: i,
                    thread,
                    filled: count,
                    wrote,
                    read,
                };
            }
            let read = e.read;
            return not_taken(Outcome::Lacking, i, filled, read);
        }
        return not_permitted(i, filled);
    }
    not_permitted(i, filled)
}
