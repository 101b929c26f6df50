// The checkpoints of a set, in the order of their first CHECK.
ghost use Rattle.std.specs.Prelude.{◌≡◌, List, ℕ, length, get_or, take};
ghost use Rattle.records.specs.Sets.{set_by, most_checkpoints};
ghost use Rattle.encoding.specs.Checkpoints.{member, noted, noted_in, checkpoints};
ghost use Rattle.set_index.specs.Points.{listed};

use records::{Instruction, Layout, Statement};

// The most checkpoints of a set.
const MOST: usize = Layout::CHECKPOINTS as usize;

// The checkpoints of a set, in the order of their first CHECK.
#[derive(Clone, Copy)]
pub struct Points {
    pub count: u8,
    pub numbers: [u16; MOST],
}

impl Points {
    // The checkpoints as a slice.
    pub fn as_slice(&self) -> &[u16]
        ensures { result.now ≡ listed self.now }
    {
        match self.numbers.get(..usize::from(self.count)) {
            Some(listed) => listed,
            None => &self.numbers,
        }
    }
}

// How many checkpoints there are.
pub fn points_count(points: Points) -> u16
    ensures { result ≡ length (listed points) }
{
    points.as_slice().len() as u16
}

// Checkpoint p, 0 past the last.
pub fn checkpoint(points: Points, p: u16) -> u16
    ensures { result ≡ get_or (listed points) p 0 }
{
    points.as_slice().get(usize::from(p)).copied().unwrap_or(0)
}

// Whether c is one of the checkpoints.
fn known(points: Points, c: u16) -> bool
    ensures { result ≡ member c (listed points) }
{
    points.as_slice().contains(&c)
}

// The checkpoints seen once a statement is looked at.
fn note(points: Points, statement: Statement) -> Points
    ensures { listed result ≡ take most_checkpoints (noted (listed points) statement) }
{
    if !statement.is(Instruction::Check) {
        return points;
    }
    let c = statement.argument;
    if known(points, c) {
        return points;
    }
    let count = usize::from(points.count);
    if MOST <= count {
        return points;
    }
    let mut numbers = points.numbers;
    numbers[count] = c;
    Points {
        count: points.count + 1,
        numbers,
    }
}

// The checkpoints seen once a thread is looked at.
fn points_of(set: &[u8], layout: Layout, t: u8, seen: Points) -> Points
    ensures { (before : List ℕ) → listed seen ≡ take 8 before
        → listed result ≡ take most_checkpoints (noted_in (set_by set.now layout) t before (get_or layout.counts t 0)) }
{
    let n = records::count(layout, t);
    let first = records::first(layout, t);
    let mut points = seen;
    for i in 0..n {
        points = note(points, records::statement_at(set, first + u32::from(i)));
    }
    points
}

// The first eight checkpoints of a set: an accepted set has no more.
pub fn of_set(set: &[u8], layout: Layout) -> Points
    ensures { listed result ≡ take most_checkpoints (checkpoints (set_by set.now layout)) }
{
    let mut points = Points {
        count: 0,
        numbers: [0; MOST],
    };
    for t in 0..layout.threads {
        points = points_of(set, layout, t, points);
    }
    points
}
