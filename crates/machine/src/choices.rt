// Which choices are permitted.
ghost use Rattle.std.specs.Prelude.{◌≡◌, not, ◌&&◌, ℕ, is_some, leb, get_or};
ghost use Rattle.records.specs.Sets.{set_by, most_threads};
ghost use Rattle.machine.specs.Held.{state_of, permitted_by};
ghost use Rattle.machine.specs.Machine.{unmarked, checkpoint_of, needs_empty, opened, actor as actor_of, permitted};

use crate::{Choice, Machine, Thread, checkpoints};
use records::{Instruction, Layout, Statement};

// STORE, FENCE, CAS and HALT.
pub fn needs_empty(n: u8) -> bool
    ensures { result ≡ needs_empty n }
{
    (n == Instruction::Store.number())
        | (n == Instruction::Fence.number())
        | (n == Instruction::Cas.number())
        | (n == Instruction::Halt.number())
}

// Whether the acting thread may make its choice: i is its statement, x its registers, mark its mark.
// Whether a checkpoint is open is asked only where the thread is marked.
pub fn may(
    set: &[u8],
    layout: Layout,
    marks: [Option<u16>; Layout::THREADS],
    mark: Option<u16>,
    i: Statement,
    x: Thread,
    choice: Choice,
) -> bool
    ensures { result ≡ permitted_by choice i x (is_some mark && not (opened (set_by set.now layout) (λ u. get_or marks u unmarked) (checkpoint_of mark))) }
{
    match choice {
        Choice::Execute(_) => {
            let blocked = x.halted | (x.full & needs_empty(i.number));
            if blocked {
                return false;
            }
            match mark {
                Some(c) => checkpoints::opened(set, layout, marks, c),
                None => true,
            }
        }
        Choice::Flush(_) => x.full,
    }
}

// The acting thread.
pub fn actor(choice: Choice) -> u8
    ensures { result ≡ actor_of choice }
{
    match choice {
        Choice::Execute(t) => t,
        Choice::Flush(t) => t,
    }
}

// Whether a choice is permitted, whether or not the machine has ended; none is of more than four threads.
pub fn permits(set: &[u8], layout: Layout, m: Machine, choice: Choice) -> bool
    ensures { (memory : ℕ → ℕ) → result ≡ (leb layout.threads most_threads && permitted (set_by set.now layout) (state_of m memory) choice) }
{
    let t = actor(choice);
    if Machine::THREADS < layout.threads {
        return false;
    }
    if layout.threads <= t {
        return false;
    }
    let at = usize::from(t);
    let x = m.threads[at];
    let marks = m.marks;
    let mark = marks[at];
    let i = records::fetch(set, layout, t, x.pc);
    may(set, layout, marks, mark, i, x, choice)
}
