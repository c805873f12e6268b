// Where a path goes on from an instruction, or how it ends there.
ghost use Rattle.std.specs.Prelude.{◌≡◌, [], ◌∷◌};
ghost use Rattle.memory.specs.Near.{reads};
ghost use Rattle.decode.specs.Fields.{return_of};
ghost use Rattle.reach.specs.Ways.{clear_at, onward_of, branch_ways, jump_ways};
ghost use Rattle.reach.specs.Inner.Explore.{GoesTo, WaysFrom};

use crate::Node;
use decode::rows::Row;
use decode::{Instr, fields, rows};
use memory::near::View;

// It ends, by a write to R7 or otherwise; or it goes on at one node, or at one node and at a target, which is reached with D clear.
#[derive(Clone, Copy)]
pub(crate) enum Ways {
    End,
    Writes,
    One(Node),
    Two(Node, u16),
}

// Behind the instruction's words.
fn onward(node: Node, row: Row) -> Node
    ensures { result ≡ onward_of node row }
{
    Node {
        address: word::wrapping_add(node.address, row.words),
        double: row.double,
    }
}

fn to_target(target: u16) -> Ways
    ensures { GoesTo (clear_at target ∷ []) result }
{
    Ways::One(Node {
        address: target,
        double: false,
    })
}

#[tactic(auto, unfolding(crate::specs::Ways::branch_ways))]
fn branch_ways(next: Node, target: u16, b: u16) -> Ways
    ensures { GoesTo (branch_ways next (clear_at target) b) result }
{
    let always = fields::is_always(b);
    if always {
        return to_target(target);
    }
    let never = fields::is_nopp(b);
    if never {
        Ways::One(next)
    } else {
        Ways::Two(next, target)
    }
}

#[tactic(auto, unfolding(crate::specs::Ways::jump_ways))]
fn jump_ways(next: Node, target: u16, second: u16) -> Ways
    ensures { GoesTo (jump_ways next (clear_at target) (return_of second)) result }
{
    let returns = fields::has_return(second);
    if returns {
        Ways::Two(next, target)
    } else {
        to_target(target)
    }
}

// From an instruction, once it is decoded.
pub(crate) fn ways_of(view: &View, node: Node, decoded: Option<Instr>) -> Ways
    ensures { WaysFrom (reads view.now) node decoded result }
{
    let Some(instr) = decoded else {
        return Ways::End;
    };
    if decode::writes_r7(instr) {
        return Ways::Writes;
    }
    let row = rows::row_of(instr, node.double);
    if row.halts {
        return Ways::End;
    }
    let at = node.address;
    let next = onward(node, row);
    match instr {
        Instr::Jump => {
            let second = view.read(word::wrapping_add(at, 1));
            let third = view.read(word::wrapping_add(at, 2));
            jump_ways(next, fields::jump_target(second, third), second)
        }
        Instr::Branch(b) => {
            let displacement = view.read(word::wrapping_add(at, 1));
            branch_ways(next, fields::branch_target(at, b, displacement), b)
        }
        // The rows of one or two words apart: so the compiler takes the 1 for a constant, which saves two machine instructions a node.
        Instr::Store(..) | Instr::Read(..) => Ways::One(next),
        _ => Ways::One(next),
    }
}
