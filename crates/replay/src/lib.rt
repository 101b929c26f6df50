// Replay of a trace: its answer.
#![tactic(auto)]

ghost use Rattle.std.specs.Prelude.{◌≡◌};
ghost use Rattle.replay.specs.Replay.{replayed};

use machine::{Machine, Run};
use records::{Refusal, Refused};

// Replays a trace over a set and a map.
pub fn replay(set: &[u8], map: &[u8], trace: &[u8]) -> Result<Run, Refused>
    ensures { result ≡ replayed set.now map.now trace.now }
{
    let layout = records::accept(set, map, Machine::MAP_CELLS)?;
    if trace.len() % Machine::STEP != 0 {
        return Err(Refusal::Length.into());
    }
    if Machine::STEPS < trace.len() / Machine::STEP {
        return Err(Refusal::Length.into());
    }
    step::retrace(set, layout, map, trace)
}
