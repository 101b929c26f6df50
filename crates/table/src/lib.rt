// Formula records: one record's 16 bytes, written at its place in a table.
#![tactic(auto)]

ghost use Rattle.std.specs.Prelude.{◌≡◌, ◌+◌, ◌*◌, ◌≤◌, ◌<◌, MatchOption, eqb, length};
ghost use Rattle.base.specs.Bytes.{placed};
ghost use Rattle.table.specs.Formulas.{long_at, formula_at, formula_bytes, formula_length};

mod operations;
pub mod repeats;

pub use operations::{Operation, Sort, UnknownOperation};

// A formula record; operands that an operation does not use are 0. A record holds 32 bits of each operand; the fields are wider, so
// that the sum of an index and a small number has room.
#[derive(Clone, Copy)]
pub struct Formula {
    pub operation: u8,
    pub sort: u8,
    pub constant: u16,
    pub a: u64,
    pub b: u64,
    pub c: u64,
}

impl Formula {
    ghost use Rattle.table.specs.Formulas.{CONSTANT};
    ghost use Rattle.table.specs.Operations.{operation_number, sort_number};

    // Bytes of a record.
    pub const BYTES: usize = 16;
    // The last index that the encoder writes from: an index and a small number have a sum of 32 bits.
    pub const LAST: u32 = 2000000000;

    // A record of an operation with operands.
    pub fn new(operation: Operation, sort: Sort, a: u64, b: u64, c: u64) -> Self
        ensures { result ≡ record { operation = operation_number operation; sort = sort_number sort; constant = 0; a = a; b = b; c = c } }
    {
        Formula {
            operation: operation as u8,
            sort: sort as u8,
            constant: 0,
            a,
            b,
            c,
        }
    }

    // A record of a value that is known.
    pub fn known(sort: Sort, constant: u16) -> Self
        ensures { result ≡ record { operation = CONSTANT; sort = sort_number sort; constant = constant; a = 0; b = 0; c = 0 } }
    {
        Formula {
            constant,
            ..Formula::new(Operation::Constant, sort, 0, 0, 0)
        }
    }

    // Whether the record is of an operation.
    pub fn is(self, operation: Operation) -> bool
        ensures { result ≡ eqb self.operation (operation_number operation) }
    {
        self.operation == operation as u8
    }
}

// Writes record n of a table, if it fits there.
#[tactic(auto, unfolding(crate::specs::Formulas::formula_bytes))]
pub fn put(out: &mut [u8], n: u32, formula: Formula)
    ensures { out.new ≡ placed out.old (formula_length * n) (formula_bytes formula) }
{
    let [low, high] = formula.constant.to_le_bytes();
    let [a0, a1, a2, a3, ..] = formula.a.to_le_bytes();
    let [b0, b1, b2, b3, ..] = formula.b.to_le_bytes();
    let [c0, c1, c2, c3, ..] = formula.c.to_le_bytes();
    let bytes: [u8; Formula::BYTES] = [
        formula.operation,
        formula.sort,
        low,
        high,
        a0,
        a1,
        a2,
        a3,
        b0,
        b1,
        b2,
        b3,
        c0,
        c1,
        c2,
        c3,
    ];
    let at = Formula::BYTES * (n as usize);
    // Tested here, where the length is known: the test of `place` alone takes two comparisons a record.
    if at + Formula::BYTES <= out.len() {
        base::place(out, at, &bytes);
    }
}

// The index whose four bytes stand from index i on, low byte first.
fn long_at(bytes: &[u8], i: usize) -> u32
    requires { i + 3 < length bytes.now }
    ensures { result ≡ long_at bytes.now i }
{
    u32::from_le_bytes([bytes[i], bytes[i + 1], bytes[i + 2], bytes[i + 3]])
}

// Record n of a table, which is there.
#[tactic(auto, unfolding(crate::specs::Formulas::formula_at))]
fn record(table: &[u8], n: u32) -> Formula
    requires { formula_length * n + 16 ≤ length table.now }
    ensures read { result ≡ formula_at table.now n }
    ensures small_a { result.a < 4294967296 }
    ensures small_b { result.b < 4294967296 }
    ensures small_c { result.c < 4294967296 }
{
    let at = Formula::BYTES * (n as usize);
    // Read as one number, which a record that repeats it writes as one: with the test in `put`, 1.03 in place of 1.29 times the
    // second implementation's time of `encode` for the bound 64.
    let [operation, sort, low, high] = long_at(table, at).to_le_bytes();
    Formula {
        operation,
        sort,
        constant: u16::from_le_bytes([low, high]),
        a: u64::from(long_at(table, at + 4)),
        b: u64::from(long_at(table, at + 8)),
        c: u64::from(long_at(table, at + 12)),
    }
}

// Record n of a table, if it is there.
pub fn formula_at(table: &[u8], n: u32) -> Option<Formula>
    ensures { MatchOption result (length table.now < formula_length * n + 16) (λ f. f ≡ formula_at table.now n) }
{
    if table.len() < Formula::BYTES * (n as usize) + Formula::BYTES {
        return None;
    }
    Some(record(table, n))
}
