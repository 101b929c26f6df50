// The sparse memory: the cells that are known, as slices of addresses and of values.
// They are lent, so that a step copies no cell.
ghost use Rattle.std.specs.Prelude.{◌≡◌, true, ◌≤◌, eqb, length, get_or};
ghost use Rattle.base.specs.Below.{some};
ghost use Rattle.records.specs.Maps.{cell_at};
ghost use Rattle.machine.specs.Held.{memory_in, known_in};

// Cells that are passed over at a time.
const GROUP: usize = 16;

// A word that a statement takes: whether it is known, its value (0 where it is not), and whether it was read from its cell.
// No option: a word that is not known counts as 0, and the cell at that address is told as read too.
#[derive(Clone, Copy)]
pub struct Word {
    pub known: bool,
    pub value: u16,
    pub read: bool,
}

// Whether one of the addresses is a. All are compared, which is faster for few than to leave at the first.
fn among(addresses: &[u16], a: u16) -> bool
    ensures { result ≡ some (length addresses.now) (λ k. eqb (get_or addresses.now k 0) a) }
{
    let mut found = false;
    for address in addresses {
        found |= *address == a;
    }
    found
}

// The index of the first cell at address a, none of which is before index `from`, or how many cells there are.
fn cell_from(addresses: &[u16], from: usize, a: u16) -> usize
    requires { (from ≤ length addresses.now) × (cell_at (λ k. get_or addresses.now k 0) from a ≡ from) }
    ensures { result ≡ cell_at (λ k. get_or addresses.now k 0) (length addresses.now) a }
{
    for i in from..addresses.len() {
        if addresses[i] == a {
            return i;
        }
    }
    addresses.len()
}

// The index of the first cell at address a, or how many cells there are. A group at a time is passed over.
pub fn cell_at(addresses: &[u16], a: u16) -> usize
    ensures { result ≡ cell_at (λ k. get_or addresses.now k 0) (length addresses.now) a }
{
    let groups = addresses.len() / GROUP;
    for k in 0..groups {
        let i = GROUP * k;
        let end = i + GROUP;
        if among(&addresses[i..end], a) {
            return cell_from(addresses, i, a);
        }
    }
    cell_from(addresses, GROUP * groups, a)
}

// What is known of the cell at address a.
pub fn look(addresses: &[u16], values: &[u16], a: u16) -> Word
    ensures { (result.known ≡ known_in addresses.now a)
        × (result.value ≡ memory_in addresses.now values.now a) × (result.read ≡ true) }
{
    let i = cell_at(addresses, a);
    if addresses.len() <= i {
        return Word {
            known: false,
            value: 0,
            read: true,
        };
    }
    if i < values.len() {
        return Word {
            known: true,
            value: values[i],
            read: true,
        };
    }
    Word {
        known: true,
        value: 0,
        read: true,
    }
}
