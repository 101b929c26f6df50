// Records that repeat earlier ones of the same table, with their operands moved on.
ghost use Rattle.std.specs.Prelude.{◌≡◌, cond, ◌+◌, ◌*◌, ◌≤◌, ◌<◌, ltb, length};
ghost use Rattle.base.specs.Bytes.{placed};
ghost use Rattle.table.specs.Formulas.{formula_at, formula_bytes, formula_length};
ghost use Rattle.table.specs.Repeats.{moved_by, repeated, repeatable, repeated_at};

use crate::{Formula, Operation, put, record};

const CONSTANT: u8 = Operation::Constant as u8;

const LAST: u64 = Formula::LAST as u64;

const BYTES: u64 = Formula::BYTES as u64;

// Where operand x lies in the repeating record.
#[tactic(auto, unfolding(crate::specs::Repeats::moved_by))]
fn moved(first: u32, stride: u32, x: u64) -> u64
    requires { x < 4294967296 }
    ensures { result ≡ moved_by first stride x }
{
    if x < u64::from(first) {
        return x;
    }
    x + u64::from(stride)
}

// How far the operands of an operation move; the operations up to CONSTANT have none.
fn distance(operation: u8, stride: u32) -> u32
    ensures { result ≡ cond (ltb 3 operation) stride 0 }
{
    if CONSTANT < operation {
        return stride;
    }
    0
}

// Writes record n, which repeats record `from` with its operands moved: by 0 where it has none, so that no branch has to be guessed.
fn repeat_record(out: &mut [u8], from: u32, n: u32, first: u32, stride: u32)
    requires { formula_length * from + 16 ≤ length out.old }
    ensures { out.new ≡ placed out.old (formula_length * n) (formula_bytes (repeated first stride (formula_at out.old from))) }
{
    let formula = record(out, from);
    let by = distance(formula.operation, stride);
    let repeated = Formula {
        a: moved(first, by, formula.a),
        b: moved(first, by, formula.b),
        c: moved(first, by, formula.c),
        ..formula
    };
    put(out, n, repeated);
}

// Whether the records to repeat are all written earlier, and there is room.
fn can_repeat(size: usize, at: u32, count: u32, stride: u32) -> bool
    ensures { result ≡ repeatable size at count stride }
{
    let end = u64::from(at) + u64::from(count);
    (count <= stride) & (stride <= at) & (end <= LAST) & (BYTES * end <= (size as u64))
}

// Writes `count` records from record `at` on, each repeating the one `stride` before it; nothing where that cannot be.
pub fn repeat(out: &mut [u8], at: u32, count: u32, first: u32, stride: u32)
    ensures { out.new ≡ repeated_at out.old at count first stride }
{
    if !can_repeat(out.len(), at, count, stride) {
        return;
    }
    for j in 0..count {
        repeat_record(out, at - stride + j, at + j, first, stride);
    }
}
