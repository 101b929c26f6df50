// The step rule at work: one step of a machine, and the run that simulation, replay and decoding share, by a schedule or along a trace.
#![tactic(auto)]

mod acting;
mod inputs;
mod walks;

ghost use Rattle.std.specs.Prelude.{◌≡◌, true, false, ℕ, length};
ghost use Rattle.records.specs.Maps.{map_value};
ghost use Rattle.records.specs.Sets.{set_by};
ghost use Rattle.machine.specs.Held.{held_of};
ghost use Rattle.machine.specs.Machine.{start, no_write};
ghost use Rattle.machine.specs.Maps.{begin};
ghost use Rattle.machine.specs.Runs.{choices};
ghost use Rattle.machine.specs.Traces.{trace as trace_of};
ghost use Rattle.step.specs.Runs.{followed, retraced, lacked, refused_by, answered, Begins, Lacks};
ghost use Rattle.step.specs.Step.{has_room, on_taken, TakesStep};

use inputs::{Schedule, Trace};
use machine::{Choice, Machine, Outcome, Run};
use records::{Layout, Refusal, Refused};

// A step's outcome, the machine afterwards and the filled count of its sparse memory.
#[derive(Clone, Copy)]
pub struct Step {
    pub machine: Machine,
    pub filled: usize,
    pub outcome: Outcome,
}

// Whether a step was taken.
fn is_taken(outcome: Outcome) -> bool
    ensures { result ≡ on_taken outcome true false }
{
    match outcome {
        Outcome::Taken => true,
        Outcome::NotPermitted => false,
        Outcome::Lacking => false,
    }
}

// Takes one step of a machine over a sparse memory. Where it is not taken, both are as they were.
pub fn take(
    set: &[u8],
    layout: Layout,
    m: Machine,
    addresses: &mut [u16],
    values: &mut [u16],
    filled: usize,
    choice: Choice,
) -> Step
    ensures { TakesStep (set_by set.now layout) (has_room layout.threads (length addresses.old) (length values.old) filled)
        (held_of m addresses.old values.old filled) choice filled result
        (held_of result.machine addresses.new values.new result.filled) }
{
    if Machine::THREADS < layout.threads {
        return Step {
            machine: m,
            filled,
            outcome: Outcome::NotPermitted,
        };
    }
    let t = machine::choices::actor(choice);
    let at = (t % Machine::THREADS) as usize;
    let x = m.threads[at];
    let marks = m.marks;
    let mark = marks[at];
    let s = acting::advance(
        set, layout, marks, mark, m.ended, x, addresses, values, filled, choice,
    );
    let i = s.statement;
    let y = s.thread;
    let outcome = s.outcome;
    let count = s.filled;
    if is_taken(outcome) {
        let mut after = m;
        after.threads[at] = y;
        if !acting::quiet(marks, i, y) {
            let threads = after.threads;
            let settled = acting::marks_after(set, layout, marks, t, i);
            after.marks = settled;
            after.ended = acting::ended_after(layout.threads, threads, i, m.ended);
            after.code = acting::code_after(i, m.code);
        }
        return Step {
            machine: after,
            filled: count,
            outcome,
        };
    }
    Step {
        machine: m,
        filled: count,
        outcome,
    }
}

// What stops a run: a refusal, or a step that reads a cell that is not known, which is refused with 14.
#[derive(Clone, Copy, Debug, PartialEq, Eq)]
pub enum Stopped {
    Refused(Refused),
    Lacking { step: u32, cell: u16 },
}

impl From<Stopped> for Refused {
    ghost from_gives = { λ stopped refused. refused ≡ refused_by stopped };

    fn from(stopped: Stopped) -> Self {
        match stopped {
            Stopped::Refused(refused) => refused,
            Stopped::Lacking { step, .. } => Refused {
                refusal: Refusal::LacksCell,
                place: step,
            },
        }
    }
}

// Runs a schedule over a map, and puts its trace into the lent bytes; 17 past the limits of a run or of those bytes.
pub fn follow(
    set: &[u8],
    layout: Layout,
    map: &[u8],
    schedule: &[u8],
    trace: &mut [u8],
) -> Result<Run, Stopped>
    ensures { (answered result ≡ followed (set_by set.now layout) map.now schedule.now (length trace.old))
        × Lacks result (lacked (set_by set.now layout) (begin map.now) (choices schedule.now))
        × Begins result (trace_of (set_by set.now layout) (start (map_value map.now)) no_write (choices schedule.now)) trace.new }
{
    if trace.len() / Machine::STEP < schedule.len() {
        return Err(Stopped::Refused(Refusal::Length.into()));
    }
    walks::walk(set, layout, map, &Schedule { bytes: schedule }, trace)
}

// Runs along a trace over a map and compares each of its whole records; 17 past the limits of a run.
pub fn retrace(set: &[u8], layout: Layout, map: &[u8], trace: &[u8]) -> Result<Run, Refused>
    ensures { result ≡ retraced (set_by set.now layout) map.now trace.now }
{
    // The records of its steps are compared and written nowhere.
    let mut nowhere = [0u8; 1];
    let run = walks::walk(set, layout, map, &Trace { bytes: trace }, &mut nowhere)?;
    Ok(run)
}
