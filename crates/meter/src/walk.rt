// The walk over the code: one turn of it is one instruction. The meters for an address and for a region share it.
ghost use Rattle.std.specs.Prelude.{◌≡◌, ◌≤◌, ◌<◌, MatchResult};
ghost use Rattle.refusal.specs.declared.Refusal.TheVariants.{LimitTooHigh};
ghost use Rattle.memory.specs.Near.{reads};
ghost use Rattle.meter.specs.Walk.{highest_limit, start_at, limit_of, turned, decoded_turn, turn_at};

use crate::Walked;
use decode::{Instr, rows};
use memory::near::View;
use refusal::Refusal;
use std::ops::ControlFlow;

// The highest limit.
const HIGHEST_LIMIT: u16 = 4096;

// The limit that 0 means.
const DEFAULT_LIMIT: u16 = 48;

// A limit to walk with.
#[derive(Clone, Copy)]
pub(crate) struct Limit {
    pub(crate) cycles: u16,
    ghost low: { cycles ≤ 4096 },
}

impl Limit {
    // The limit to walk with where a call is given this one, unless that is too high. (Not a `match`, and made one with each caller: `wait` is then as
    // fast as with a limit and no type.)
    #[tactic(auto, using(std::proofs::lemmas::Bool::Decides::nat_tests), unfolding(crate::specs::Walk::limit_of))]
    #[inline(always)]
    pub(crate) fn given(limit: u16) -> Result<Limit, Refusal>
        ensures { MatchResult result
            (λ walked. (limit ≤ highest_limit) × (walked.cycles ≡ limit_of limit))
            (λ refusal. (highest_limit < limit) × (refusal ≡ LimitTooHigh)) }
    {
        if HIGHEST_LIMIT < limit {
            return Err(Refusal::LimitTooHigh);
        }
        let cycles = if limit == 0 { DEFAULT_LIMIT } else { limit };
        Ok(Limit { cycles })
    }
}

// Where the walk stands: before the instruction at an address, with D and the cycles so far. (Public, since `guarantees` names it.)
#[derive(Clone, Copy)]
pub struct Place {
    pub address: u16,
    pub double: bool,
    pub sum: u16,
}

#[tactic(auto, unfolding(crate::specs::Walk::start_at))]
pub(crate) fn start_at(address: u16) -> Place
    ensures { result ≡ start_at address }
{
    Place {
        address,
        double: false,
        sum: 0,
    }
}

// One instruction of the walk, once it is decoded: the walk's answer, or the place after it.
fn turn(decoded: Option<Instr>, limit: Limit, place: Place) -> ControlFlow<Walked, Place>
    requires { place.sum ≤ limit.cycles }
    ensures { turned result ≡ decoded_turn limit.cycles place decoded }
{
    let Some(instr) = decoded else {
        return ControlFlow::Break(Walked::Unspecified {
            address: place.address,
        });
    };
    let row = rows::row_of(instr, place.double);
    let sum = place.sum + row.cycles as u16;
    if limit.cycles < sum {
        return ControlFlow::Break(Walked::Over);
    }
    if row.halts {
        return ControlFlow::Break(Walked::Halts);
    }
    if row.interruptible {
        return ControlFlow::Break(Walked::Wait { cycles: sum });
    }
    ControlFlow::Continue(Place {
        address: word::wrapping_add(place.address, row.words),
        double: row.double,
        sum,
    })
}

// One turn of the walk: the instruction at its place. Made one with the loops that turn, which would else call it.
#[inline(always)]
pub(crate) fn turn_at(view: &View, limit: Limit, place: Place) -> ControlFlow<Walked, Place>
    requires { place.sum ≤ limit.cycles }
    ensures { turned result ≡ turn_at (reads view.now) limit.cycles place }
{
    let instr = decode::instruction(view.read(place.address) % 1024);
    let decoded = decode::specified_at(view, place.address, instr, place.double);
    turn(decoded, limit, place)
}
