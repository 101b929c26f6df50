// The links of a table's chains, and chains written over a tree (crate encoding: `link`, `links`, `chain`).
#![tactic(auto)]

ghost use Rattle.std.specs.Prelude.{◌≡◌, List, ℕ, ◌+◌, ◌≤◌, ◌<◌};
ghost use Rattle.encoding.specs.Slots.{Slot, Term};
ghost use Rattle.encoding.specs.Steps.{Link as ChainLink, chain};
ghost use Rattle.encoder_slots.specs.Pieces.{WritesTree};
ghost use Rattle.encoder_chains.specs.Placed.{placed_link, numbers_of};
ghost use Rattle.table.specs.Repeats.{last_index};

pub mod chains;
pub mod edges;
mod given;
mod links;
mod parts;
mod written;

pub use given::given_chain;
pub use links::{NamesLink, NumberedLink};
use table::{Formula, Operation, Sort};
pub use written::{Root, put_link};

// A link over what stands so far, by the indexes of its operands: if the bit `test` then `effect`, or a bit by which it is joined.
#[derive(Clone, Copy, Debug, PartialEq, Eq)]
pub enum Link {
    If { sort: Sort, test: u64, effect: u64 },
    And(u64),
    Or(u64),
}

impl Link {
    ghost use Rattle.encoder_chains.specs.Placed.{formula_over};

    // The record of the link over the tree at an index.
    fn over(self, at: u64) -> Formula
        ensures { result ≡ formula_over self at }
    {
        match self {
            Link::If { sort, test, effect } => Formula::new(Operation::If, sort, test, effect, at),
            Link::And(bit) => Formula::new(Operation::And, Sort::Bit, bit, at, 0),
            Link::Or(bit) => Formula::new(Operation::Or, Sort::Bit, bit, at, 0),
        }
    }
}

// Writes so many links over the tree at index `base`, one after the other: number i is what `link` gives for i.
fn put_links<F: Fn(u8) -> Option<Link>>(
    out: &mut [u8],
    many: u8,
    n: u32,
    base: u64,
    link: F,
) -> Root
    requires { F.IsAlwaysCallable link }
    ensures links { (places : Slot → ℕ) (links : ℕ → ChainLink) (tree : Term) (start : List ℕ) (m : ℕ) → n + many ≤ last_index
        → ((i : ℕ) (l : _) → i < many → F.post link i l → numbers_of l ≡ placed_link places (links i))
        → WritesTree places tree start m out.old n base
        → WritesTree places (chain links many tree) start m out.new result.next result.at }
    ensures room { result.next ≤ n + many }
{
    let mut tree = Root { next: n, at: base };
    for i in 0..many {
        tree = put_link(out, tree.next, tree.at, link(i));
    }
    tree
}
