// What a run follows: a schedule, or a trace along which it is compared.
ghost use Rattle.std.specs.Prelude.{◌≡◌, ℕ, ◌/◌, ◌<◌, Bool, List, length};
ghost use Rattle.machine.specs.Runs.{choice_of};
ghost use Rattle.machine.specs.Traces.{step_length};
ghost use Rattle.machine.specs.declared.Choice.{Choice};
ghost use Rattle.step.specs.Walks.{schedule_choice, schedule_agrees, trace_choice, trace_agrees};

use machine::offsets::NUMBER;
use machine::{Choice, Machine};
use records::Statement;

// The steps of a run.
pub trait Steps {
    ghost count: { Self → ℕ };

    ghost choice: { Self → ℕ → Choice };

    ghost agrees: { Self → ℕ → List ℕ → Bool };

    // How many there are.
    fn count(&self) -> usize
        ensures { result ≡ count self.now };

    // The choice of step i.
    fn choice(&self, i: usize) -> Choice
        requires { i < count self.now }
        ensures { result ≡ choice self.now i };

    // Whether step i has these bytes, where the steps say what bytes they have.
    fn agrees(&self, i: usize, bytes: &[u8; Machine::STEP]) -> bool
        requires { i < count self.now }
        ensures { result ≡ agrees self.now i bytes.now };
}

// A schedule: a byte a step, which names its choice.
#[derive(Clone, Copy)]
pub struct Schedule<'a> {
    pub bytes: &'a [u8],
}

// A trace: a record a step.
#[derive(Clone, Copy)]
pub struct Trace<'a> {
    pub bytes: &'a [u8],
}

// The choice that a schedule's byte names.
fn choice_of(k: u8) -> Choice
    ensures { result ≡ choice_of k }
{
    if k < Choice::FLUSH {
        return Choice::Execute(k);
    }
    Choice::Flush(k - Choice::FLUSH)
}

impl<'a> Steps for Schedule<'a> {
    ghost count = { λ s. length s.bytes.now };

    ghost choice = { λ s. schedule_choice s.bytes.now };

    ghost agrees = { λ s. schedule_agrees };

    fn count(&self) -> usize {
        self.bytes.len()
    }

    fn choice(&self, i: usize) -> Choice {
        choice_of(self.bytes[i])
    }

    fn agrees(&self, _i: usize, _bytes: &[u8; Machine::STEP]) -> bool {
        true
    }
}

impl<'a> Steps for Trace<'a> {
    ghost count = { λ s. length s.bytes.now / step_length };

    ghost choice = { λ s. trace_choice s.bytes.now };

    ghost agrees = { λ s. trace_agrees s.bytes.now };

    fn count(&self) -> usize {
        self.bytes.len() / Machine::STEP
    }

    fn choice(&self, i: usize) -> Choice {
        let at = Machine::STEP * i;
        let thread = self.bytes[at];
        if self.bytes[at + NUMBER] == Statement::INSTRUCTIONS {
            return Choice::Flush(thread);
        }
        Choice::Execute(thread)
    }

    fn agrees(&self, i: usize, bytes: &[u8; Machine::STEP]) -> bool {
        let at = Machine::STEP * i;
        let end = at + Machine::STEP;
        base::same(&self.bytes[at..end], bytes)
    }
}
