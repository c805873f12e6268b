// The set of reached addresses: every address to which a path leads from an entry point, over unchanged memory. Waits start there, and not at
// operands and data.
#![tactic(auto)]

ghost use Rattle.memory.specs.Bus.{bus_on};
ghost use Rattle.reach.specs.Answer.{reach_report};
ghost use Rattle.reach.specs.Reach.{Reaches};

use memory::map::Board;
use refusal::Refusal;

mod explore;
mod ways;

// A place on a path: an address, and the double-byte mark D with which it is reached.
#[derive(Clone, Copy)]
pub struct Node {
    pub address: u16,
    pub double: bool,
}

// How many addresses are in the set; how many of them, and the lowest, hold a row that ends a path by a write to R7.
#[derive(Clone, Copy)]
pub struct Summary {
    pub addresses: u32,
    pub writers: u32,
    pub lowest: Option<u16>,
}

const MOST_ENTRIES: usize = 16;

// The set, built in the lent buffers. What they held before does not count.
#[tactic(auto, using(std::proofs::lemmas::Bool::Decides::nat_tests), unfolding(crate::specs::Reach::reach_of))]
pub fn reach(
    board: Board,
    mem: &[u16],
    entries: &[u16],
    clear: &mut [u64],
    set: &mut [u64],
) -> Result<Summary, Refusal>
    ensures { Reaches (bus_on board mem.now) entries.now clear.old set.old clear.new set.new (reach_report result) }
{
    memory::admit(board, mem)?;
    if MOST_ENTRIES < entries.len() {
        return Err(Refusal::TooManyEntries);
    }
    let Some(clear) = clear.as_mut_array() else {
        return Err(Refusal::WrongSetLength);
    };
    let Some(set) = set.as_mut_array() else {
        return Err(Refusal::WrongSetLength);
    };
    bitset::reset(clear);
    bitset::reset(set);
    let mut writers = [0; bitset::WORDS];
    explore::explore(board, mem, entries, clear, set, &mut writers);
    Ok(Summary {
        addresses: bitset::count_either(clear, set),
        writers: bitset::count_either(&writers, &writers),
        lowest: bitset::find_lowest(&writers),
    })
}
