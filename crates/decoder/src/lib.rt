// The model check: whether a model satisfies the table of a set, a map and a bound; and decoding: the trace and the map of its run.
#![tactic(auto)]

ghost use Rattle.std.specs.Prelude.{◌≡◌, Ok, true, ◌+◌, ◌*◌, ◌≤◌, ◌<◌, eqb, ltb, length, get_or, take, replicate};
ghost use Rattle.base.specs.Below.{every, least};
ghost use Rattle.base.specs.Bytes.{over};
ghost use Rattle.records.specs.Sets.{set_of, layout_of, most_threads};
ghost use Rattle.machine.specs.Runs.{choice_of, choices, most_steps};
ghost use Rattle.machine.specs.Traces.{step_length};
ghost use Rattle.encoding.specs.Encodings.{table_of};
ghost use Rattle.decoding.specs.Lookups.{first_of};
ghost use Rattle.decoding.specs.Decodings.{choice_number, run_of, decoded_trace, decoded_map, longest_map};
ghost use Rattle.decoding.specs.Models.{bits, model_fits, assigned, work_length};
ghost use Rattle.encoder.specs.Answers.{size_answer};
ghost use Rattle.decoder.specs.Answers.{false_record, model_answer, check_answer, work_after, decoded, too_short, model_decoding, decode_answer, trace_left, map_left};

pub use decoding::Decoded;
use decoding::{MAP_BYTES, MODEL_CELLS, WORK};
use machine::{Choice, Machine};
use records::{Layout, Refusal, Refused};

// Whether each byte is 0 or 1.
fn are_bits(bytes: &[u8]) -> bool
    ensures { result ≡ every (length bytes.now) (λ i. ltb (get_or bytes.now i 0) 2) }
{
    bytes.iter().all(|&byte| byte < 2)
}

// Bytes of a model's bits.
fn bits(threads: u8, bound: u8) -> usize
    ensures { result ≡ bits threads bound }
{
    2 * usize::from(threads) * usize::from(bound)
}

// Whether a model is as document 01 has it.
#[tactic(auto, unfolding(decoding::specs::Models::model_fits))]
fn model_fits(model: &[u8], threads: u8, bound: u8) -> bool
    ensures { result ≡ model_fits threads bound model.now }
{
    match model.split_at_checked(bits(threads, bound)) {
        Some((bits, cells)) => are_bits(bits) && records::map::map_accepted(cells, MODEL_CELLS),
        None => false,
    }
}

// The first constraint or goal that is 0, of a table of n records; work memory is 0 afterwards.
fn false_record(
    set: &[u8],
    map: &[u8],
    bound: u64,
    model: &[u8],
    threads: u8,
    n: u32,
    work: &mut [u8],
) -> u32
    requires { (size_answer set.now map.now bound ≡ Ok n) × (threads ≡ (set_of set.now).threads)
        × (model_fits threads bound model.now ≡ true) × (work_length * n ≤ length work.old) }
    ensures { (result ≡ false_record (assigned threads bound model.now) (table_of set.now map.now bound))
        × (work.new ≡ replicate (length work.old) 0) }
{
    let steps = bound as u8;
    let bits = bits(threads, steps);
    // The size is known and work memory is long enough: it is not refused.
    let _ = encoder::encode(set, map, bound, work);
    let index = evaluation::evaluate(work, n, model, &model[bits..], threads, steps);
    work.fill(0);
    index
}

// The call once 9 and 10 are passed, with the number of the table's records.
fn judge(
    set: &[u8],
    map: &[u8],
    bound: u64,
    model: &[u8],
    threads: u8,
    n: u32,
    work: &mut [u8],
) -> Result<(), Refused>
    requires { (size_answer set.now map.now bound ≡ Ok n) × (threads ≡ (set_of set.now).threads) }
    ensures { (result ≡ model_answer set.now map.now bound model.now (length work.old))
        × (work.new ≡ work_after result work.old) }
{
    if !model_fits(model, threads, bound as u8) {
        return Err(Refusal::Model.into());
    }
    if work.len() < WORK * (n as usize) {
        return Err(Refusal::Room.into());
    }
    let index = false_record(set, map, bound, model, threads, n, work);
    if index < n {
        return Err(Refused {
            refusal: Refusal::NotSatisfied,
            place: index,
        });
    }
    Ok(())
}

// Checks a model against the table of a set, a map and a bound, in lent work memory.
pub fn check(
    set: &[u8],
    map: &[u8],
    bound: u64,
    model: &[u8],
    work: &mut [u8],
) -> Result<(), Refused>
    ensures { (result ≡ check_answer set.now map.now bound model.now (length work.old))
        × (work.new ≡ work_after result work.old) }
{
    let records = encoder::table_size(set, map, bound)?;
    let layout = records::set::layout(set);
    judge(set, map, bound, model, layout.threads, records, work)
}

// The first of n bits from a place on that is 1.
fn first_bit(model: &[u8], at: usize, n: usize) -> Option<usize>
    requires { at + n < 65536 }
    ensures { result ≡ first_of n (λ j. eqb (get_or model.now (at + j) 0) 1) }
{
    (0..n).find(|&j| base::byte_at(model, at + j) == 1)
}

// The schedule byte of choice j: executes by thread, then flushes by thread.
#[tactic(auto, unfolding(machine::specs::Runs::choice_of))]
fn schedule_byte(threads: u8, j: u8) -> u8
    requires { (threads ≤ most_threads) × (j < threads + threads) }
    ensures { choice_of result ≡ choice_number threads j }
{
    if j < threads {
        return j;
    }
    Choice::FLUSH + (j - threads)
}

// Writes the schedule of a model's run, and gives its length.
fn schedule_of(model: &[u8], threads: u8, bound: u8, schedule: &mut [u8]) -> usize
    requires { (threads ≤ most_threads) × (bound ≤ most_steps) × (length schedule.old ≡ most_steps) }
    ensures { (result ≤ bound) × (choices (take result schedule.new) ≡ run_of threads bound (assigned threads bound model.now)) }
{
    let row = 2 * usize::from(threads);
    let steps = usize::from(bound);
    for k in 0..steps {
        let Some(j) = first_bit(model, row * k, row) else {
            return k;
        };
        schedule[k] = schedule_byte(threads, j as u8);
    }
    steps
}

// Decodes an accepted model, the outputs being long enough.
fn show(
    set: &[u8],
    map: &[u8],
    bound: u64,
    model: &[u8],
    layout: Layout,
    n: u32,
    trace: &mut [u8],
    found: &mut [u8],
) -> Decoded
    requires { (size_answer set.now map.now bound ≡ Ok n) × (layout ≡ layout_of set.now)
        × (model_fits layout.threads bound model.now ≡ true) × (n ≤ false_record (assigned layout.threads bound model.now) (table_of set.now map.now bound))
        × (step_length * bound ≤ length trace.old) × (longest_map ≤ length found.old) }
    ensures { (result ≡ decoded set.now map.now bound (assigned (set_of set.now).threads bound model.now))
        × (trace.new ≡ over (decoded_trace set.now bound (assigned (set_of set.now).threads bound model.now)) trace.old)
        × (found.new ≡ over (decoded_map set.now map.now bound (assigned (set_of set.now).threads bound model.now)) found.old) }
{
    let threads = layout.threads;
    let steps = bound as u8;
    let bits = bits(threads, steps);
    let mut schedule = [0u8; Machine::STEPS];
    let count = schedule_of(model, threads, steps, &mut schedule);
    let first = &model[bits..];
    let run = &schedule[..count];
    first_cells::first_cells(set, layout, map, first, run, trace, found).unwrap()
}

// Whether work memory or an output is too short for a table of n records and a run of at most that many steps.
fn is_short(n: u32, steps: u8, work: usize, trace: usize, found: usize) -> bool
    ensures { result ≡ too_short n steps work trace found }
{
    (work < WORK * (n as usize))
        | (trace < Machine::STEP * usize::from(steps))
        | (found < MAP_BYTES)
}

// The decoding once 9 and 10 are passed, with the number of the table's records.
fn judge_run(
    set: &[u8],
    map: &[u8],
    bound: u64,
    model: &[u8],
    layout: Layout,
    n: u32,
    work: &mut [u8],
    trace: &mut [u8],
    found: &mut [u8],
) -> Result<Decoded, Refused>
    requires { (size_answer set.now map.now bound ≡ Ok n) × (layout ≡ layout_of set.now) }
    ensures { (result ≡ model_decoding set.now map.now bound model.now (length work.old) (length trace.old) (length found.old))
        × (work.new ≡ work_after result work.old)
        × (trace.new ≡ trace_left result set.now bound model.now trace.old)
        × (found.new ≡ map_left result set.now map.now bound model.now found.old) }
{
    let threads = layout.threads;
    let steps = bound as u8;
    if !model_fits(model, threads, steps) {
        return Err(Refusal::Model.into());
    }
    if is_short(n, steps, work.len(), trace.len(), found.len()) {
        return Err(Refusal::Room.into());
    }
    let index = false_record(set, map, bound, model, threads, n, work);
    if index < n {
        return Err(Refused {
            refusal: Refusal::NotSatisfied,
            place: index,
        });
    }
    Ok(show(set, map, bound, model, layout, n, trace, found))
}

// Decodes a model of the table of a set, a map and a bound, in lent work memory: writes the trace of its run, and the map of the set's cells
// and of the first cells read.
pub fn decode(
    set: &[u8],
    map: &[u8],
    bound: u64,
    model: &[u8],
    work: &mut [u8],
    trace: &mut [u8],
    found: &mut [u8],
) -> Result<Decoded, Refused>
    ensures { (result ≡ decode_answer set.now map.now bound model.now (length work.old) (length trace.old) (length found.old))
        × (work.new ≡ work_after result work.old)
        × (trace.new ≡ trace_left result set.now bound model.now trace.old)
        × (found.new ≡ map_left result set.now map.now bound model.now found.old) }
{
    let size = encoder::table_size(set, map, bound)?;
    let layout = records::set::layout(set);
    judge_run(set, map, bound, model, layout, size, work, trace, found)
}
