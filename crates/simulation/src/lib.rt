// Simulation by a given schedule: the answer, and the trace of an accepted run.
#![tactic(auto)]

ghost use Rattle.std.specs.Prelude.{◌≡◌, length};
ghost use Rattle.simulation.specs.Simulation.{simulated, trace_output};

use machine::{Machine, Run};
use records::{Refusal, Refused};

// Simulates a schedule over a set and a map, and writes its trace.
pub fn simulate(set: &[u8], map: &[u8], schedule: &[u8], trace: &mut [u8]) -> Result<Run, Refused>
    ensures { (result ≡ simulated set.now map.now schedule.now (length trace.old))
        × (trace.new ≡ trace_output result set.now map.now schedule.now trace.old) }
{
    let layout = records::accept(set, map, Machine::MAP_CELLS)?;
    let n = schedule.len();
    if Machine::STEPS < n {
        return Err(Refusal::Length.into());
    }
    if trace.len() < Machine::STEP * n {
        return Err(Refusal::Room.into());
    }
    // The run is judged before a byte goes to the output.
    let mut bytes = [0u8; Machine::TRACE];
    let run = step::follow(set, layout, map, schedule, &mut bytes)?;
    base::place(trace, 0, &bytes[..Machine::STEP * n]);
    Ok(run)
}
