// The boundary to C and Rust: one exported function for each call. include/deepchalk.h declares them.
#![tactic(auto)]

ghost use Rattle.std.specs.Prelude.{◌≡◌, ℕ, length};
ghost use Rattle.simulation.specs.Simulation.{simulated, trace_output};
ghost use Rattle.replay.specs.Replay.{replayed};
ghost use Rattle.text.specs.Answers.{answer as answer_of, set_output, map_output};
ghost use Rattle.encoder.specs.Answers.{size_answer, encode_answer, table_output};
ghost use Rattle.decoder.specs.Answers.{check_answer, work_after, decode_answer, trace_left, map_left};
ghost use Rattle.deepchalk.specs.Packed.{packed, packed_by, packed_refusal, packed_read, packed_table, packed_check, packed_decoding, run_bits, read_bits, table_bits, check_bits, decoding_bits};

use decoder::Decoded;
use machine::{End, Run};
use records::Refused;
use text::Counts;

// The lowest bit of each part of a number.
const BIT_8: u64 = 256;

const BIT_16: u64 = 65536;

const BIT_32: u64 = 4294967296;

const BIT_48: u64 = 281474976710656;

// A refusal as one number.
fn pack_refusal(refused: Refused) -> u64
    ensures { result ≡ packed_refusal refused }
{
    u64::from(refused.refusal.number()) + BIT_32 * u64::from(refused.place)
}

// The number of an accepted model.
const ACCEPTED: u64 = 0;

// What a call gives where it is not refused, as the bits above the lowest eight.
trait Bits {
    ghost bits_of: { Self → ℕ };

    fn bits(self) -> u64
        ensures { result ≡ bits_of self };
}

// A run: its end, its code and its steps.
impl Bits for Run {
    ghost bits_of = { run_bits };

    fn bits(self) -> u64 {
        let count = BIT_32 * u64::from(self.steps);
        match self.end {
            End::Code(code) => BIT_16 * u64::from(code) + count,
            End::Stuck => BIT_8 + count,
            End::Open => 2 * BIT_8 + count,
        }
    }
}

// A text that was read: its statements and its map cells.
impl Bits for Counts {
    ghost bits_of = { read_bits };

    fn bits(self) -> u64 {
        BIT_16 * u64::from(self.statements) + BIT_32 * u64::from(self.cells)
    }
}

// The records of a table.
impl Bits for u32 {
    ghost bits_of = { table_bits };

    fn bits(self) -> u64 {
        BIT_32 * u64::from(self)
    }
}

// An accepted model.
impl Bits for () {
    ghost bits_of = { check_bits };

    fn bits(self) -> u64 {
        ACCEPTED
    }
}

// A decoding: its steps and its cells.
impl Bits for Decoded {
    ghost bits_of = { decoding_bits };

    fn bits(self) -> u64 {
        BIT_32 * u64::from(self.steps) + BIT_48 * u64::from(self.cells)
    }
}

// An answer as one number.
fn pack<T: Bits>(answer: Result<T, Refused>) -> u64
    ensures { result ≡ packed_by T.bits_of answer }
{
    match answer {
        Ok(given) => given.bits(),
        Err(refused) => pack_refusal(refused),
    }
}

// Reads a set text, and writes its statement records and its map records.
#[unsafe(no_mangle)]
pub extern "C" fn deepchalk_read(text: &[u8], set: &mut [u8], map: &mut [u8]) -> u64
    ensures { (result ≡ packed_read (answer_of text.now (length set.old) (length map.old)))
        × (set.new ≡ set_output (answer_of text.now (length set.old) (length map.old)) text.now set.old)
        × (map.new ≡ map_output (answer_of text.now (length set.old) (length map.old)) text.now map.old) }
{
    let answer = text::read(text, set, map);
    pack(answer)
}

// Simulates a schedule over a set and a map, and writes its trace.
#[unsafe(no_mangle)]
pub extern "C" fn deepchalk_simulate(
    set: &[u8],
    map: &[u8],
    schedule: &[u8],
    trace: &mut [u8],
) -> u64
    ensures { (result ≡ packed (simulated set.now map.now schedule.now (length trace.old)))
        × (trace.new ≡ trace_output (simulated set.now map.now schedule.now (length trace.old))
        set.now map.now schedule.now trace.old) }
{
    let answer = simulation::simulate(set, map, schedule, trace);
    pack(answer)
}

// Replays a trace over a set and a map.
#[unsafe(no_mangle)]
pub extern "C" fn deepchalk_replay(set: &[u8], map: &[u8], trace: &[u8]) -> u64
    ensures { result ≡ packed (replayed set.now map.now trace.now) }
{
    let answer = replay::replay(set, map, trace);
    pack(answer)
}

// How many records the table of a set, a map and a bound has.
#[unsafe(no_mangle)]
pub extern "C" fn deepchalk_table_size(set: &[u8], map: &[u8], bound: u64) -> u64
    ensures { result ≡ packed_table (size_answer set.now map.now bound) }
{
    let answer = encoder::table_size(set, map, bound);
    pack(answer)
}

// Writes the table of a set, a map and a bound.
#[unsafe(no_mangle)]
pub extern "C" fn deepchalk_encode(set: &[u8], map: &[u8], bound: u64, table: &mut [u8]) -> u64
    ensures { (result ≡ packed_table (encode_answer set.now map.now bound (length table.old)))
        × (table.new ≡ table_output (encode_answer set.now map.now bound (length table.old))
        set.now map.now bound table.old) }
{
    let answer = encoder::encode(set, map, bound, table);
    pack(answer)
}

// Checks a model against the table of a set, a map and a bound.
#[unsafe(no_mangle)]
pub extern "C" fn deepchalk_check(
    set: &[u8],
    map: &[u8],
    bound: u64,
    model: &[u8],
    work: &mut [u8],
) -> u64
    ensures { (result ≡ packed_check (check_answer set.now map.now bound model.now (length work.old)))
        × (work.new ≡ work_after (check_answer set.now map.now bound model.now (length work.old)) work.old) }
{
    let answer = decoder::check(set, map, bound, model, work);
    pack(answer)
}

// Decodes a model of the table of a set, a map and a bound, and writes its trace and its map.
#[unsafe(no_mangle)]
pub extern "C" fn deepchalk_decode(
    set: &[u8],
    map: &[u8],
    bound: u64,
    model: &[u8],
    work: &mut [u8],
    trace: &mut [u8],
    found: &mut [u8],
) -> u64
    ensures { (result ≡ packed_decoding (decode_answer set.now map.now bound model.now (length work.old) (length trace.old) (length found.old)))
        × (work.new ≡ work_after (decode_answer set.now map.now bound model.now (length work.old) (length trace.old) (length found.old))
        work.old)
        × (trace.new ≡ trace_left (decode_answer set.now map.now bound model.now (length work.old) (length trace.old) (length found.old))
        set.now bound model.now trace.old)
        × (found.new ≡ map_left (decode_answer set.now map.now bound model.now (length work.old) (length trace.old) (length found.old))
        set.now map.now bound model.now found.old) }
{
    let answer = decoder::decode(set, map, bound, model, work, trace, found);
    pack(answer)
}
