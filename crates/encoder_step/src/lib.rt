// One step of a table, written kind by kind, and what the steps share.
#![tactic(auto)]

ghost use Rattle.std.specs.Prelude.{◌≡◌, true, false, List, [], ◌∷◌, ℕ, ◌+◌, ◌*◌, ◌≤◌, ◌<◌, length};
ghost use Rattle.records.specs.Sets.{Set, set_by, most_threads, most_checkpoints};
ghost use Rattle.table.specs.Programs.{needs};
ghost use Rattle.encoding.specs.Encodings.{starting};
ghost use Rattle.encoding.specs.Slots.{kind_at, kind_number, kind_count, may_execute, flag};
ghost use Rattle.encoding.specs.Steps.{single, shape, rows as rows_of, columns as columns_of, entry as entry_of, block as block_of, blocks as blocks_of, ruled, step as step_of};
ghost use Rattle.set_index.specs.Points.{listed};
ghost use Rattle.encoder_slots.specs.Kinds.{number_of};
ghost use Rattle.encoder_slots.specs.Pieces.{Writes, Ready, tree_room, entry_room, block_room};
ghost use Rattle.encoder_slots.specs.Places.{of_statement, most_columns};
ghost use Rattle.encoder_chains.specs.Chained.{chained};
ghost use Rattle.encoder_step.specs.Entries.{step_room, BareEntry, GivenEntry, ByThread, AfterThread};
ghost use Rattle.table.specs.Repeats.{last_index};

use encoder_slots::{BLOCK, Kind, SIZE, THREADS, start};
use records::Layout;
use set_index::points::Points;
use table::{Formula, Operation, Sort};

// The most records of a step: of the values of its kinds, and its constraint.
const STEP: u32 = 36 * BLOCK + 2;

// The last index from which there is room for a step.
const LIMIT: u32 = Formula::LAST - STEP;

// ---- the values of a kind

// Each block below is one loop of three lines: a function that they share would take those lines as a closure, the thread as a number to be cast.

// Writes the value of a kind for a and b, which is there and has no links.
fn bare_entry(
    slots: &mut [u32],
    out: &mut [u8],
    threads: u8,
    step: u8,
    kind: Kind,
    a: u8,
    b: u16,
    n: u32,
) -> u32
    requires { (n + tree_room ≤ last_index) × (a < most_threads) × (b < most_columns) }
    ensures { ((S : Set) (cs members lists : List ℕ) → S.threads ≡ threads → BareEntry S cs (number_of kind) a b → Ready S cs members lists slots.old n
        → Writes (entry_of S cs step (kind_at (number_of kind)) a b) out.old slots.old n out.new slots.new result)
        × (result ≤ n + tree_room) }
{
    let base = encoder_bases::put_base(slots, out, threads, step, kind, a, b, n);
    encoder_slots::set_place(slots, kind, a, b, base.root);
    n + base.count
}

// Writes the values of a kind that has one row and no links, at most nine of them.
fn bare_line(
    slots: &mut [u32],
    out: &mut [u8],
    threads: u8,
    step: u8,
    kind: Kind,
    columns: u16,
    n: u32,
) -> u32
    requires { (n + most_columns * tree_room ≤ last_index) × (columns ≤ most_columns) }
    ensures { ((S : Set) (cs members lists : List ℕ) → S.threads ≡ threads → ((b : ℕ) → BareEntry S cs (number_of kind) 0 b) → rows_of S cs step (shape (kind_at (number_of kind))) ≡ 1
        → columns ≡ columns_of S cs step (shape (kind_at (number_of kind))) 0 → Ready S cs members lists slots.old n
        → Writes (block_of S cs step (kind_at (number_of kind))) out.old slots.old n out.new slots.new result)
        × (result ≤ n + most_columns * tree_room) }
{
    let mut next = n;
    for b in 0..columns {
        next = bare_entry(slots, out, threads, step, kind, 0, b, next);
    }
    next
}

// Writes for each thread whether it may execute.
fn may_execute_block(slots: &mut [u32], out: &mut [u8], threads: u8, step: u8, n: u32) -> u32
    requires { (n + most_threads * tree_room ≤ last_index) × (threads ≤ most_threads) }
    ensures { ((S : Set) (cs members lists : List ℕ) → S.threads ≡ threads → Ready S cs members lists slots.old n
        → Writes (block_of S cs step may_execute) out.old slots.old n out.new slots.new result)
        × (result ≤ n + most_threads * tree_room) }
{
    let mut next = n;
    for t in 0..threads {
        next = bare_entry(slots, out, threads, step, Kind::MayExecute, t, 0, next);
    }
    next
}

// Writes a value that there is one of, whose links the choices or the threads give.
fn single_block(slots: &mut [u32], out: &mut [u8], threads: u8, step: u8, kind: Kind, n: u32) -> u32
    requires { (n + entry_room ≤ last_index) × (number_of kind < kind_count) × (of_statement (number_of kind) ≡ false) × (number_of kind ≡ kind_number flag → ⊥) }
    ensures { ((S : Set) (cs members lists : List ℕ) → S.threads ≡ threads → chained (number_of kind) ≡ true → shape (kind_at (number_of kind)) ≡ single → Ready S cs members lists slots.old n
        → Writes (block_of S cs step (kind_at (number_of kind))) out.old slots.old n out.new slots.new result)
        × (result ≤ n + entry_room) }
{
    let base = encoder_bases::put_base(slots, out, threads, step, kind, 0, 0, n);
    let next = n + base.count;
    let tree = encoder_chains::chains::single_chain(slots, out, threads, kind, next, base.root);
    encoder_slots::set_place(slots, kind, 0, 0, tree.at);
    tree.next
}

// Writes the value of a kind for a and b, whose links the statements of thread t give.
fn given_entry(
    members: &[u8],
    slots: &mut [u32],
    out: &mut [u8],
    threads: u8,
    step: u8,
    kind: Kind,
    a: u8,
    b: u16,
    t: u8,
    n: u32,
) -> u32
    requires { (n + entry_room ≤ last_index) × (a < most_threads) × (b < most_columns) }
    ensures { ((S : Set) (cs lists : List ℕ) → S.threads ≡ threads → t < S.threads → GivenEntry S cs (number_of kind) a b t → Ready S cs members.now lists slots.old n
        → Writes (entry_of S cs step (kind_at (number_of kind)) a b) out.old slots.old n out.new slots.new result)
        × (result ≤ n + entry_room) }
{
    let base = encoder_bases::put_base(slots, out, threads, step, kind, a, b, n);
    let next = n + base.count;
    let tree = encoder_chains::given_chain(members, slots, out, kind, t, next, base.root);
    encoder_slots::set_place(slots, kind, a, b, tree.at);
    tree.next
}

// Writes a register of each thread, or what else it has one value of, whose links its own statements give.
fn register_block(
    members: &[u8],
    slots: &mut [u32],
    out: &mut [u8],
    threads: u8,
    step: u8,
    kind: Kind,
    n: u32,
) -> u32
    requires { (n + most_threads * entry_room ≤ last_index) × (threads ≤ most_threads) }
    ensures { ((S : Set) (cs lists : List ℕ) → S.threads ≡ threads → ByThread S cs (number_of kind) → Ready S cs members.now lists slots.old n
        → Writes (block_of S cs step (kind_at (number_of kind))) out.old slots.old n out.new slots.new result)
        × (result ≤ n + most_threads * entry_room) }
{
    let mut next = n;
    for t in 0..threads {
        next = given_entry(members, slots, out, threads, step, kind, t, 0, t, next);
    }
    next
}

// Writes a value before the first thread, and one after each thread whose links its statements give.
fn running_block(
    members: &[u8],
    slots: &mut [u32],
    out: &mut [u8],
    threads: u8,
    step: u8,
    kind: Kind,
    n: u32,
) -> u32
    requires { (n + tree_room + most_threads * entry_room ≤ last_index) × (threads ≤ most_threads) }
    ensures { ((S : Set) (cs lists : List ℕ) → S.threads ≡ threads → AfterThread S cs (number_of kind) → Ready S cs members.now lists slots.old n
        → Writes (block_of S cs step (kind_at (number_of kind))) out.old slots.old n out.new slots.new result)
        × (result ≤ n + tree_room + most_threads * entry_room) }
{
    let mut next = bare_entry(slots, out, threads, step, kind, 0, 0, n);
    for t in 0..threads {
        let b = u16::from(t) + 1;
        next = given_entry(members, slots, out, threads, step, kind, 0, b, t, next);
    }
    next
}

// Writes the values that each statement has of a kind.
fn statement_block(
    set: &[u8],
    layout: Layout,
    members: &[u8],
    slots: &mut [u32],
    out: &mut [u8],
    kind: Kind,
    n: u32,
) -> u32
    requires { (n + block_room ≤ last_index) × (layout.threads ≤ most_threads) × (number_of kind < kind_count) × (of_statement (number_of kind) ≡ true) }
    ensures { ((cs lists : List ℕ) (step : ℕ) → Ready (set_by set.now layout) cs members.now lists slots.old n
        → Writes (block_of (set_by set.now layout) cs step (kind_at (number_of kind))) out.old slots.old n out.new slots.new result)
        × (result ≤ n + block_room) }
{
    let threads = layout.threads;
    let mut next = n;
    for t in 0..threads {
        next = encoder_statements::statement_line(set, layout, members, slots, out, kind, t, next);
    }
    next
}

// Writes the flags.
fn flag_block(
    set: &[u8],
    layout: Layout,
    lists: &[u8],
    slots: &mut [u32],
    out: &mut [u8],
    n: u32,
) -> u32
    requires { (n + block_room ≤ last_index) × (layout.threads ≤ most_threads) }
    ensures { ((cs members : List ℕ) (step : ℕ) → Ready (set_by set.now layout) cs members lists.now slots.old n
        → Writes (block_of (set_by set.now layout) cs step flag) out.old slots.old n out.new slots.new result)
        × (result ≤ n + block_room) }
{
    let threads = layout.threads;
    let mut next = n;
    for t in 0..threads {
        next = encoder_flags::flags(set, layout, lists, slots, out, t, next);
    }
    next
}

// ---- the kinds of a step, five at a time

// The choice bits, which statements execute, which checkpoints are open and which are not, and which threads need an empty buffer.
fn choice_kinds(
    set: &[u8],
    layout: Layout,
    points: Points,
    members: &[u8],
    lists: &[u8],
    slots: &mut [u32],
    out: &mut [u8],
    step: u8,
    n: u32,
) -> u32
    requires { (n + 5 * block_room ≤ last_index) × (layout.threads ≤ most_threads) × (length (listed points) ≤ most_checkpoints) }
    ensures { (Ready (set_by set.now layout) (listed points) members.now lists.now slots.old n
        → Writes (blocks_of (set_by set.now layout) (listed points) step 0 5) out.old slots.old n out.new slots.new result)
        × (result ≤ n + 5 * block_room) }
{
    let threads = layout.threads;
    let choices = 2 * u16::from(threads);
    let checkpoints = set_index::points::points_count(points);
    let taken = bare_line(slots, out, threads, step, Kind::Choice, choices, n);
    let active = statement_block(set, layout, members, slots, out, Kind::Active, taken);
    let open = encoder_marks::openings(lists, slots, out, threads, checkpoints, step, active);
    let shut = bare_line(slots, out, threads, step, Kind::Shut, checkpoints, open);
    register_block(members, slots, out, threads, step, Kind::Barred, shut)
}

// Which marks hold a thread up, which threads wait, which may execute; what comes before each choice, and which choices are permitted.
fn permit_kinds(
    layout: Layout,
    points: Points,
    lists: &[u8],
    slots: &mut [u32],
    out: &mut [u8],
    step: u8,
    n: u32,
) -> u32
    requires { (n + 5 * block_room ≤ last_index) × (layout.threads ≤ most_threads) }
    ensures { ((bytes members : List ℕ) → Ready (set_by bytes layout) (listed points) members lists.now slots.old n
        → Writes (blocks_of (set_by bytes layout) (listed points) step 5 5) out.old slots.old n out.new slots.new result)
        × (result ≤ n + 5 * block_room) }
{
    let threads = layout.threads;
    let choices = 2 * u16::from(threads);
    let checkpoints = set_index::points::points_count(points);
    let held = encoder_marks::marks(lists, slots, out, threads, checkpoints, step, Kind::Held, n);
    let waiting = encoder_marks::waits(lists, slots, out, threads, checkpoints, step, held);
    let may = may_execute_block(slots, out, threads, step, waiting);
    let none = bare_line(slots, out, threads, step, Kind::None, choices + 1, may);
    bare_line(
        slots,
        out,
        threads,
        step,
        Kind::PermittedFirst,
        choices,
        none,
    )
}

// What a step is decided by.
fn deciding_kinds(
    set: &[u8],
    layout: Layout,
    points: Points,
    members: &[u8],
    lists: &[u8],
    slots: &mut [u32],
    out: &mut [u8],
    step: u8,
    n: u32,
) -> u32
    requires { (n + 11 * block_room ≤ last_index) × (layout.threads ≤ most_threads) × (length (listed points) ≤ most_checkpoints) }
    ensures { (Ready (set_by set.now layout) (listed points) members.now lists.now slots.old n
        → Writes (blocks_of (set_by set.now layout) (listed points) step 0 11) out.old slots.old n out.new slots.new result)
        × (result ≤ n + 11 * block_room) }
{
    let chosen = choice_kinds(set, layout, points, members, lists, slots, out, step, n);
    let permitted = permit_kinds(layout, points, lists, slots, out, step, chosen);
    single_block(
        slots,
        out,
        layout.threads,
        step,
        Kind::OnePermitted,
        permitted,
    )
}

// Of the statements: addresses, words loaded, swaps, results and tests.
fn statement_kinds(
    set: &[u8],
    layout: Layout,
    members: &[u8],
    slots: &mut [u32],
    out: &mut [u8],
    n: u32,
) -> u32
    requires { (n + 5 * block_room ≤ last_index) × (layout.threads ≤ most_threads) }
    ensures { ((cs lists : List ℕ) (step : ℕ) → Ready (set_by set.now layout) cs members.now lists slots.old n
        → Writes (blocks_of (set_by set.now layout) cs step 11 5) out.old slots.old n out.new slots.new result)
        × (result ≤ n + 5 * block_room) }
{
    let addresses = statement_block(set, layout, members, slots, out, Kind::Address, n);
    let loaded = statement_block(set, layout, members, slots, out, Kind::Loaded, addresses);
    let swaps = statement_block(set, layout, members, slots, out, Kind::Swaps, loaded);
    let results = statement_block(set, layout, members, slots, out, Kind::Result, swaps);
    statement_block(set, layout, members, slots, out, Kind::Test, results)
}

// Which tests do not hold, and the cell that is written: its address and its value.
fn write_kinds(
    set: &[u8],
    layout: Layout,
    members: &[u8],
    slots: &mut [u32],
    out: &mut [u8],
    step: u8,
    n: u32,
) -> u32
    requires { (n + 5 * block_room ≤ last_index) × (layout.threads ≤ most_threads) }
    ensures { ((cs lists : List ℕ) → Ready (set_by set.now layout) cs members.now lists slots.old n
        → Writes (blocks_of (set_by set.now layout) cs step 16 5) out.old slots.old n out.new slots.new result)
        × (result ≤ n + 5 * block_room) }
{
    let threads = layout.threads;
    let not_tests = statement_block(set, layout, members, slots, out, Kind::NotTest, n);
    let flush_to = single_block(slots, out, threads, step, Kind::FlushTo, not_tests);
    let write_to = running_block(members, slots, out, threads, step, Kind::WriteTo, flush_to);
    let flush_value = single_block(slots, out, threads, step, Kind::FlushValue, write_to);
    running_block(
        members,
        slots,
        out,
        threads,
        step,
        Kind::WriteValue,
        flush_value,
    )
}

// The marks before open checkpoints are cleared, the EXITs with their codes, the memory, and the words in the buffers.
fn exit_kinds(
    layout: Layout,
    points: Points,
    members: &[u8],
    lists: &[u8],
    slots: &mut [u32],
    out: &mut [u8],
    step: u8,
    n: u32,
) -> u32
    requires { (n + 5 * block_room ≤ last_index) × (layout.threads ≤ most_threads) }
    ensures { ((bytes : List ℕ) → Ready (set_by bytes layout) (listed points) members.now lists.now slots.old n
        → Writes (blocks_of (set_by bytes layout) (listed points) step 21 5) out.old slots.old n out.new slots.new result)
        × (result ≤ n + 5 * block_room) }
{
    let threads = layout.threads;
    let checkpoints = set_index::points::points_count(points);
    let raised = encoder_marks::marks(
        lists,
        slots,
        out,
        threads,
        checkpoints,
        step,
        Kind::Raised,
        n,
    );
    let exits = running_block(members, slots, out, threads, step, Kind::Exits, raised);
    let codes = running_block(members, slots, out, threads, step, Kind::Codes, exits);
    let memory = bare_entry(slots, out, threads, step, Kind::SharedMemory, 0, 0, codes);
    register_block(members, slots, out, threads, step, Kind::Val, memory)
}

// The other registers.
fn register_kinds(
    members: &[u8],
    slots: &mut [u32],
    out: &mut [u8],
    threads: u8,
    step: u8,
    n: u32,
) -> u32
    requires { (n + 5 * block_room ≤ last_index) × (threads ≤ most_threads) }
    ensures { ((S : Set) (cs lists : List ℕ) → S.threads ≡ threads → Ready S cs members.now lists slots.old n
        → Writes (blocks_of S cs step 26 5) out.old slots.old n out.new slots.new result)
        × (result ≤ n + 5 * block_room) }
{
    let adr = register_block(members, slots, out, threads, step, Kind::Adr, n);
    let mem = register_block(members, slots, out, threads, step, Kind::Mem, adr);
    let accu = register_block(members, slots, out, threads, step, Kind::Accu, mem);
    let full = register_block(members, slots, out, threads, step, Kind::Full, accu);
    register_block(members, slots, out, threads, step, Kind::Halted, full)
}

// The flags, the marks, and whether and how the machine has ended.
fn end_kinds(
    set: &[u8],
    layout: Layout,
    points: Points,
    lists: &[u8],
    slots: &mut [u32],
    out: &mut [u8],
    step: u8,
    n: u32,
) -> u32
    requires { (n + 5 * block_room ≤ last_index) × (layout.threads ≤ most_threads) }
    ensures { ((members : List ℕ) → Ready (set_by set.now layout) (listed points) members lists.now slots.old n
        → Writes (blocks_of (set_by set.now layout) (listed points) step 31 5) out.old slots.old n out.new slots.new result)
        × (result ≤ n + 5 * block_room) }
{
    let threads = layout.threads;
    let checkpoints = set_index::points::points_count(points);
    let flags = flag_block(set, layout, lists, slots, out, n);
    let marked = encoder_marks::marks(
        lists,
        slots,
        out,
        threads,
        checkpoints,
        step,
        Kind::Mark,
        flags,
    );
    let halts = single_block(slots, out, threads, step, Kind::Halts, marked);
    let ended = bare_entry(slots, out, threads, step, Kind::Ended, 0, 0, halts);
    bare_entry(slots, out, threads, step, Kind::Code, 0, 0, ended)
}

// What a step does.
fn acting_kinds(
    set: &[u8],
    layout: Layout,
    points: Points,
    members: &[u8],
    lists: &[u8],
    slots: &mut [u32],
    out: &mut [u8],
    step: u8,
    n: u32,
) -> u32
    requires { (n + 25 * block_room ≤ last_index) × (layout.threads ≤ most_threads) }
    ensures { (Ready (set_by set.now layout) (listed points) members.now lists.now slots.old n
        → Writes (blocks_of (set_by set.now layout) (listed points) step 11 25) out.old slots.old n out.new slots.new result)
        × (result ≤ n + 25 * block_room) }
{
    let statements = statement_kinds(set, layout, members, slots, out, n);
    let written = write_kinds(set, layout, members, slots, out, step, statements);
    let exits = exit_kinds(layout, points, members, lists, slots, out, step, written);
    let registers = register_kinds(members, slots, out, layout.threads, step, exits);
    end_kinds(set, layout, points, lists, slots, out, step, registers)
}

// ---- steps

// Writes the constraint of a step: before the end exactly one choice, and it permitted; none after.
fn rule(layout: Layout, slots: &[u32], out: &mut [u8], n: u32) -> u32
    requires { (n + 2 ≤ last_index) × (layout.threads ≤ most_threads) }
    ensures { ((bytes cs : List ℕ) (step : ℕ) → Writes (needs (ruled (set_by bytes layout) cs step) ∷ [])
        out.old slots.now n out.new slots.now result)
        × (result ≡ n + 2) }
{
    let choices = 2 * u16::from(layout.threads);
    let ended = encoder_slots::place(slots, Kind::Ended, 0, 0, start::BIT0);
    let none = encoder_slots::place(slots, Kind::None, 0, choices, start::BIT0);
    let one = encoder_slots::place(slots, Kind::OnePermitted, 0, 0, start::BIT0);
    let test = Formula::new(Operation::If, Sort::Bit, ended, none, one);
    table::put(out, n, test);
    let constraint = Formula::new(Operation::Constraint, Sort::None, u64::from(n), 0, 0);
    table::put(out, n + 1, constraint);
    n + 2
}

// Writes a step. The limits are tested here once; with the length known, the compiler drops the tests of places.
pub fn one_step(
    set: &[u8],
    layout: Layout,
    points: Points,
    members: &[u8],
    lists: &[u8],
    slots: &mut [u32],
    out: &mut [u8],
    step: u8,
    n: u32,
) -> u32
    ensures { (Ready (set_by set.now layout) (listed points) members.now lists.now slots.old n → n + step_room ≤ last_index
        → Writes (step_of (set_by set.now layout) (listed points) step) out.old slots.old n out.new slots.new result)
        × (result ≤ n + step_room) }
{
    if slots.len() != SIZE || LIMIT < n || THREADS < layout.threads {
        return n;
    }
    let decided = deciding_kinds(set, layout, points, members, lists, slots, out, step, n);
    let next = rule(layout, slots, out, decided);
    acting_kinds(set, layout, points, members, lists, slots, out, step, next)
}

// Writes what the steps share, from index n on: the word 1, and the argument of each statement.
pub fn shared(
    set: &[u8],
    layout: Layout,
    members: &[u8],
    slots: &mut [u32],
    out: &mut [u8],
    n: u32,
) -> u32
    ensures { ((cs lists : List ℕ) → Ready (set_by set.now layout) cs members.now lists slots.old n → n + step_room ≤ last_index
        → Writes (starting (set_by set.now layout) cs) out.old slots.old n out.new slots.new result)
        × (result ≤ n + tree_room + block_room) }
{
    if LIMIT < n || THREADS < layout.threads {
        return n;
    }
    let one = bare_entry(slots, out, layout.threads, 0, Kind::WordOne, 0, 0, n);
    statement_block(set, layout, members, slots, out, Kind::Argument, one)
}
