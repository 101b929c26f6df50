// What names a link: a link or none, or the numbers of one.
ghost use Rattle.encoder_chains.specs.Placed.{LinkNumbers, Recorded, numbers_of, numbered};
ghost use Rattle.std.specs.Prelude.{ℕ};

use crate::Link;
use table::{Formula, Operation};

// A link by numbers: its operation's, 0 for none, its sort's, and the indexes of its operands.
#[derive(Clone, Copy)]
pub struct NumberedLink {
    pub operation: u8,
    pub sort: u8,
    pub a: u64,
    pub b: u64,
}

// What names a link over what stands so far.
pub trait NamesLink {
    ghost numbers: { Self → LinkNumbers };

    // The record of the link over the tree at an index; none where there is no link.
    fn record(self, at: u64) -> Option<Formula>
        ensures { Recorded (numbers self) at result };
}

impl NamesLink for Option<Link> {
    ghost numbers = { numbers_of };

    fn record(self, at: u64) -> Option<Formula> {
        match self {
            None => None,
            Some(link) => Some(link.over(at)),
        }
    }
}

impl NamesLink for NumberedLink {
    ghost numbers = { numbered };

    fn record(self, at: u64) -> Option<Formula> {
        if self.operation == 0 {
            return None;
        }
        let joined = Formula {
            operation: self.operation,
            sort: self.sort,
            constant: 0,
            a: self.a,
            b: at,
            c: 0,
        };
        if self.operation == Operation::If as u8 {
            return Some(Formula {
                b: self.b,
                c: at,
                ..joined
            });
        }
        Some(joined)
    }
}
