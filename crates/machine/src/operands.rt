// What a statement takes from its thread's buffer and from memory. The slices hold the cells that are known.
ghost use Rattle.std.specs.Prelude.{◌≡◌, true, not, ◌||◌};
ghost use Rattle.records.specs.Instructions.{is_memory};
ghost use Rattle.machine.specs.Held.{no_read, memory_in, known_in, cells_of};
ghost use Rattle.machine.specs.Machine.{load as load_of, forwards, address as address_of, takes_word, word_taken, cells_read, reads_argument, reads_address};
ghost use Rattle.machine.specs.Maps.{knows_all};

use crate::memory::Word;
use crate::{Read, Thread, memory};
use records::{Instruction, Statement};

// The address of a memory word and the word it takes; known where each cell that it reads is. No option: the cells read are told also where
// one of them is not known.
#[derive(Clone, Copy)]
pub struct Operand {
    pub known: bool,
    pub address: u16,
    pub word: u16,
    pub read: Read,
}

// A load of address a, forwarding included.
fn load(x: Thread, addresses: &[u16], values: &[u16], a: u16) -> Word
    ensures { (result.known ≡ (forwards x a || known_in addresses.now a))
        × (result.value ≡ load_of x (memory_in addresses.now values.now) a) × (result.read ≡ not (forwards x a)) }
{
    if x.full {
        if x.adr == a {
            return Word {
                known: true,
                value: x.val,
                read: false,
            };
        }
    }
    memory::look(addresses, values, a)
}

// The address of a memory word: of an indirect one the load of its argument.
fn address(i: Statement, x: Thread, addresses: &[u16], values: &[u16]) -> Word
    requires { is_memory i.number ≡ true }
    ensures { (result.known ≡ (not (reads_argument i x) || known_in addresses.now i.argument))
        × (result.value ≡ address_of i x (memory_in addresses.now values.now)) × (result.read ≡ reads_argument i x) }
{
    if i.mode == 1 {
        return load(x, addresses, values, i.argument);
    }
    Word {
        known: true,
        value: i.argument,
        read: false,
    }
}

// The word at the address a of a statement that takes one: of CAS the cell.
fn word(i: Statement, x: Thread, addresses: &[u16], values: &[u16], a: u16) -> Word
    requires { (takes_word i.number ≡ true)
        × (a ≡ address_of i x (memory_in addresses.now values.now)) }
    ensures { (result.known ≡ (not (reads_address i x a) || known_in addresses.now a))
        × (result.value ≡ word_taken i x (memory_in addresses.now values.now)) × (result.read ≡ reads_address i x a) }
{
    if i.is(Instruction::Cas) {
        return memory::look(addresses, values, a);
    }
    load(x, addresses, values, a)
}

// Nothing taken.
pub fn none() -> Operand
    ensures { (result.known ≡ true) × (result.address ≡ 0) × (result.word ≡ 0) × (result.read ≡ no_read) }
{
    let read = Read {
        argument: None,
        word: None,
    };
    Operand {
        known: true,
        address: 0,
        word: 0,
        read,
    }
}

// What a statement takes: nothing but for memory words, and no word for STORE.
#[inline(always)]
pub fn operands(i: Statement, x: Thread, addresses: &[u16], values: &[u16]) -> Operand
    ensures { (result.known ≡ knows_all (known_in addresses.now) (cells_read i x (memory_in addresses.now values.now)))
        × (result.address ≡ address_of i x (memory_in addresses.now values.now))
        × (result.word ≡ word_taken i x (memory_in addresses.now values.now))
        × (cells_of result.read ≡ cells_read i x (memory_in addresses.now values.now)) }
{
    if records::is_memory(i.number) {
        let a = address(i, x, addresses, values);
        if i.is(Instruction::Store) {
            let read = Read {
                argument: a.read.then_some(i.argument),
                word: None,
            };
            return Operand {
                known: a.known,
                address: a.value,
                word: 0,
                read,
            };
        }
        let w = word(i, x, addresses, values, a.value);
        let read = Read {
            argument: a.read.then_some(i.argument),
            word: w.read.then_some(a.value),
        };
        return Operand {
            known: a.known & w.known,
            address: a.value,
            word: w.value,
            read,
        };
    }
    none()
}
