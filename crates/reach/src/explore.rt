// The exploration: every node is marked once, when a path first leads there; an address that is to be followed up waits on a stack. The addresses of rows
// that write R7 are noted where they are met, so that no instruction is decoded again for the summary.
ghost use Rattle.std.specs.Prelude.{◌≡◌, true, ◌≤◌, ◌<◌, replicate};
ghost use Rattle.memory.specs.Bus.{bus_on, read_of};
ghost use Rattle.memory.specs.Near.{Near};
ghost use Rattle.bitset.specs.Bits.{size_of};
ghost use Rattle.reach.specs.Ways.{clear_at, successors};
ghost use Rattle.reach.specs.Inner.Explore.{marked, Marks, Pushes, Exploring, Idle, Grown, HoldsWriters};
ghost use Rattle.reach.specs.Reach.{ReachedSet};

use crate::ways::Ways;
use crate::{Node, ways};
use bitset::WORDS;
use memory::map::Board;
use memory::near;
use memory::near::View;

// An address waits at most once, since it is put there when it is marked.
const STACK: usize = 65536;

// The addresses that wait, the last one on top. (Fixed memory: no heap. The kit's `ArrayVec` is such a stack, but its crate would be newly trusted, and
// nothing new is: the proofs rest on the standard library's statements alone.)
#[derive(Drop)]
struct Stack {
    waiting: [u16; STACK],
    depth: usize,
}

// A node marked; whether it was not marked before. (The buffers are lent one by one, here and below: a struct of references would have to promise in each
// contract that it still holds the same ones.)
fn mark(clear: &mut [u64; WORDS], set: &mut [u64; WORDS], node: Node) -> bool
    ensures { Marks clear.old set.old clear.new set.new node result }
{
    if node.double {
        return bitset::insert(set, node.address);
    }
    bitset::insert(clear, node.address)
}

// An address marked with D clear; where it was not marked before, it waits on the stack.
#[tactic(auto, using(std::proofs::lemmas::Bool::Decides::nat_tests, crate::proofs::MarkLaws::fewer))]
fn push(clear: &mut [u64; WORDS], stack: &mut Stack, address: u16)
    requires { stack.old.depth ≤ size_of clear.old }
    ensures { Pushes clear.old clear.new stack.old.waiting stack.new.waiting stack.old.depth stack.new.depth address }
{
    if bitset::insert(clear, address) {
        stack.waiting[stack.depth] = address;
        stack.depth += 1;
    }
}

// From an address on, as long as the path leads to a node that is new: what else it leads to waits on the stack.
fn follow(
    mut view: View,
    clear: &mut [u64; WORDS],
    set: &mut [u64; WORDS],
    writers: &mut [u64; WORDS],
    stack: &mut Stack,
    from: u16,
)
    requires { (marked clear.old set.old (clear_at from) ≡ true) × Exploring (read_of (bus_on view.board view.words.now)) (λ n. n ≡ clear_at from) clear.old set.old writers.old stack.old.waiting stack.old.depth × Near view.board view.near }
    ensures { Exploring (read_of (bus_on view.entry.board view.entry.words.now)) Idle clear.new set.new writers.new stack.new.waiting stack.new.depth × Grown (successors (read_of (bus_on view.entry.board view.entry.words.now))) clear.old set.old clear.new set.new stack.old.depth stack.new.depth }
{
    let mut node = Node {
        address: from,
        double: false,
    };
    loop {
        let fetched = view.fetch(node.address);
        view.near = fetched.near;
        let instr = decode::instruction(fetched.word % 1024);
        let decoded = decode::specified_at(&view, node.address, instr, node.double);
        let ways = ways::ways_of(&view, node, decoded);
        // Each way marks its own node: with one mark for both the compiler packs a node into one number, which takes 5 machine instructions more a node.
        match ways {
            Ways::End => return,
            Ways::Writes => {
                bitset::insert(writers, node.address);
                return;
            }
            Ways::One(next) => {
                if !mark(clear, set, next) {
                    return;
                }
                node = next;
            }
            Ways::Two(next, target) => {
                push(clear, stack, target);
                if !mark(clear, set, next) {
                    return;
                }
                node = next;
            }
        }
    }
}

// From empty buffers to the reached set, and to the addresses in it of rows that write R7.
pub(crate) fn explore(
    board: Board,
    mem: &[u16],
    entries: &[u16],
    clear: &mut [u64; WORDS],
    set: &mut [u64; WORDS],
    writers: &mut [u64; WORDS],
)
    requires { (clear.old ≡ replicate 1024 0) × (set.old ≡ replicate 1024 0) × (writers.old ≡ replicate 1024 0) }
    ensures reached_set { ReachedSet (successors (read_of (bus_on board mem.now))) entries.now clear.new set.new }
    ensures holds_writers { HoldsWriters (read_of (bus_on board mem.now)) clear.new set.new writers.new }
{
    let mut stack = Stack {
        waiting: [0; STACK],
        depth: 0,
    };
    for &entry in entries {
        push(clear, &mut stack, entry);
    }
    let mut near = near::no_range();
    // (No `for`: what waits grows as it is followed.)
    while 0 < stack.depth {
        stack.depth -= 1;
        let from = stack.waiting[stack.depth];
        near = near::near_to(board, near, from);
        let view = View {
            board,
            near,
            words: mem,
        };
        follow(view, clear, set, writers, &mut stack, from);
    }
}
