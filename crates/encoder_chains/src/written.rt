// A link written over a tree.
ghost use Rattle.std.specs.Prelude.{◌≡◌, List, ℕ, ◌+◌, ◌<◌, ◌≤◌};
ghost use Rattle.encoding.specs.Slots.{Slot, Term};
ghost use Rattle.encoding.specs.Steps.{Link as ChainLink, linked, chain};
ghost use Rattle.encoder_slots.specs.Pieces.{WritesTree};
ghost use Rattle.encoder_chains.specs.Placed.{placed_link};
ghost use Rattle.table.specs.Repeats.{last_index};

use crate::NamesLink;
use table::Formula;

// A tree written: the next index, and the tree's own.
#[derive(Clone, Copy)]
pub struct Root {
    pub next: u32,
    pub at: u64,
}

// Writes a link, if there is one, over the tree at index `at`; the last indexes are never reached.
pub fn put_link<L: NamesLink>(out: &mut [u8], n: u32, at: u64, link: L) -> Root
    ensures { ((places : Slot → ℕ) (l : ChainLink) (tree : Term) (start : List ℕ) (m : ℕ) → n ≤ last_index → L.numbers link ≡ placed_link places l
        → WritesTree places tree start m out.old n at → WritesTree places (linked l tree) start m out.new result.next result.at)
        × (result.next ≤ n + 1) }
{
    match link.record(at) {
        None => Root { next: n, at },
        Some(record) => {
            if Formula::LAST < n {
                return Root { next: n, at };
            }
            table::put(out, n, record);
            Root {
                next: n + 1,
                at: u64::from(n),
            }
        }
    }
}
