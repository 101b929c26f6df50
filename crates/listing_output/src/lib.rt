// What the listing program prints for a set and a map: a line for each step, then the last line.
// It finds each choice by simulation: a schedule byte that is not permitted is refused with 12.
#![tactic(auto)]

mod lines;
mod output;

ghost use Rattle.std.specs.Prelude.{◌*◌, ◌<◌, ◌≡◌, true, cond, eqb, take};
ghost use Rattle.records.specs.Refusals.{number};
ghost use Rattle.records.specs.Sets.{set_of, most_threads};
ghost use Rattle.machine.specs.Machine.{no_write};
ghost use Rattle.machine.specs.Maps.{begin};
ghost use Rattle.simulation.specs.Simulation.{simulated};
ghost use Rattle.listing_output.specs.Listings.{listing_from, listing, refused_line};
ghost use Rattle.listing_output.specs.Outputs.{Stands, Prints, last_of};
ghost use Rattle.listing_output.specs.Printed.{printed, count};
ghost use Rattle.listing_output.specs.Schedules.{candidate as candidate_of, denies, next_byte, accepts};
ghost use Rattle.machine.specs.Traces.{longest_trace};
ghost use Rattle.machine.specs.Runs.{most_steps};

use lines::{last, line, refusal};
use machine::{Choice, Machine};
use records::Refusal;

// The schedule byte of candidate j: executes by thread, then flushes by thread.
fn candidate(j: u8) -> u8
    requires { j < 2 * most_threads }
    ensures { result ≡ candidate_of j }
{
    if j < Machine::THREADS {
        return j;
    }
    Choice::FLUSH + (j - Machine::THREADS)
}

// Whether simulation answers that a choice of the schedule is not permitted.
fn denied(set: &[u8], map: &[u8], schedule: &[u8]) -> bool
    ensures { result ≡ denies (simulated set.now map.now schedule.now longest_trace) }
{
    let mut trace = [0u8; Machine::TRACE];
    match simulation::simulate(set, map, schedule, &mut trace) {
        Ok(_) => false,
        Err(refused) => refused.refusal == Refusal::NotPermitted,
    }
}

// The byte of the first candidate that is permitted after the first k bytes of a schedule.
fn next(set: &[u8], map: &[u8], schedule: [u8; Machine::STEPS], k: usize) -> u8
    requires { k < most_steps }
    ensures { result ≡ next_byte set.now map.now (take k schedule) }
{
    let mut tried = schedule;
    for j in 0..7 {
        let byte = candidate(j);
        tried[k] = byte;
        if !denied(set, map, &tried[..k + 1]) {
            return byte;
        }
    }
    candidate(7)
}

// Prints the last line after a schedule.
fn finish(set: &[u8], map: &[u8], schedule: &[u8], out: &mut [u8], at: usize) -> usize
    ensures { Prints at out.old (last_of (simulated set.now map.now schedule.now longest_trace)) result out.new }
{
    let mut trace = [0u8; Machine::TRACE];
    match simulation::simulate(set, map, schedule, &mut trace) {
        Ok(run) => last(out, at, run.end),
        Err(refused) => refusal(out, at, refused.refusal.number()),
    }
}

// Prints the last line after a schedule whose next choice was refused.
fn stop(set: &[u8], map: &[u8], schedule: &[u8], why: Refusal, out: &mut [u8], at: usize) -> usize
    ensures { Prints at out.old (cond (eqb (number why) 14) (refused_line 14) (last_of (simulated set.now map.now schedule.now longest_trace))) result out.new }
{
    if why == Refusal::LacksCell {
        return refusal(out, at, why.number());
    }
    finish(set, map, schedule, out, at)
}

// Prints the lines of an accepted set and map, then the last line.
fn run(set: &[u8], map: &[u8], out: &mut [u8]) -> usize
    requires { accepts set.now map.now ≡ true }
    ensures { Stands (listing_from (set_of set.now) (begin map.now) no_write most_steps) out.old result out.new }
{
    let mut schedule = [0u8; Machine::STEPS];
    let mut trace = [0u8; Machine::TRACE];
    let mut at: usize = 0;
    for k in 0..Machine::STEPS {
        schedule[k] = next(set, map, schedule, k);
        let run = simulation::simulate(set, map, &schedule[..k + 1], &mut trace);
        match run {
            Ok(_) => {
                let from = Machine::STEP * k;
                let to = from + Machine::STEP;
                at = line(out, at, &trace[from..to]);
            }
            Err(refused) => return stop(set, map, &schedule[..k], refused.refusal, out, at),
        }
    }
    finish(set, map, &schedule, out, at)
}

// Prints the listing of a set and a map from the start of an output on, and gives how many bytes it printed.
pub fn list(set: &[u8], map: &[u8], out: &mut [u8]) -> usize
    ensures { (result ≡ count (listing set.now map.now) out.old)
        × (out.new ≡ printed (listing set.now map.now) out.old) }
{
    let mut trace = [0u8; 1];
    match simulation::simulate(set, map, b"", &mut trace) {
        Ok(_) => run(set, map, out),
        Err(refused) => refusal(out, 0, refused.refusal.number()),
    }
}

// Prints the line of a refusal from the start of an output on, and gives how many bytes it printed.
pub fn refused(number: u8, out: &mut [u8]) -> usize
    ensures { (result ≡ count (refused_line number) out.old)
        × (out.new ≡ printed (refused_line number) out.old) }
{
    refusal(out, 0, number)
}
