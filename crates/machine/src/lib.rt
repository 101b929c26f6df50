// The machine: its types, checkpoints, a sparse memory, what a statement takes and which choices are permitted. The rule that simulation, replay, encoder and decoder stand on.
#![tactic(auto)]

pub mod checkpoints;
pub mod choices;
pub mod memory;
pub mod offsets;
pub mod operands;
pub mod registers;

ghost use Rattle.std.specs.Prelude.{◌≡◌};
ghost use Rattle.machine.specs.Machine.{fresh};

use records::Layout;

// A thread's registers, words first: a gap between fields would be copied with them.
#[derive(Clone, Copy)]
pub struct Thread {
    pub accu: u16,
    pub mem: u16,
    pub adr: u16,
    pub val: u16,
    pub pc: u16,
    pub full: bool,
    pub halted: bool,
}

// A step: one thread executing or one thread flushing.
#[derive(Clone, Copy)]
pub enum Choice {
    Execute(u8),
    Flush(u8),
}

// The machine apart from its memory; a thread's mark is the checkpoint where it is marked.
#[derive(Clone, Copy)]
pub struct Machine {
    pub threads: [Thread; Layout::THREADS],
    pub marks: [Option<u16>; Layout::THREADS],
    pub ended: bool,
    pub code: u16,
}

// How a step came out: taken, not permitted, or a cell read that is not known. No `Result`: none of the three has a value, and which of them
// refuses depends on what a trace says of the step.
#[derive(Clone, Copy)]
pub enum Outcome {
    Taken,
    NotPermitted,
    Lacking,
}

// The cells that a step read: its address word's, then the word's it took, each where it is read from a cell.
#[derive(Clone, Copy, Debug, PartialEq, Eq)]
pub struct Read {
    pub argument: Option<u16>,
    pub word: Option<u16>,
}

// How a run stands: ended with a code, stuck, or open.
#[derive(Clone, Copy, Debug, PartialEq, Eq)]
pub enum End {
    Code(u16),
    Stuck,
    Open,
}

// A run that no refusal stopped: how many steps it took, and how it stands.
#[derive(Clone, Copy, Debug, PartialEq, Eq)]
pub struct Run {
    pub steps: u16,
    pub end: End,
}

impl Choice {
    // Schedule bytes from here on flush: this one and a thread's number.
    pub const FLUSH: u8 = 128;
}

impl Machine {
    // Threads that it holds.
    pub const THREADS: u8 = Layout::THREADS as u8;

    // Steps that a schedule or a trace may have.
    pub const STEPS: usize = 64;

    // Cells of a map that a run may be over.
    pub const MAP_CELLS: usize = 256;

    // Cells that a run keeps: those of the map, and one written in each step.
    pub const CELLS: usize = Machine::MAP_CELLS + Machine::STEPS;

    // Bytes of a trace step.
    pub const STEP: usize = 24;

    // Bytes of the longest trace.
    pub const TRACE: usize = Machine::STEP * Machine::STEPS;
}

impl Thread {
    pub fn fresh() -> Self
        ensures { result ≡ fresh }
    {
        Thread {
            accu: 0,
            mem: 0,
            adr: 0,
            val: 0,
            pc: 0,
            full: false,
            halted: false,
        }
    }
}
