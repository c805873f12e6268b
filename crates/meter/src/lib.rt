// The wait meter: after how many cycles a request is heard, from an address and over a region, found by a walk over the code.
#![tactic(auto)]

ghost use Rattle.std.specs.Prelude.{◌≡◌, MatchResult, Ok, Err};
ghost use Rattle.memory.specs.Bus.{bus_on};
ghost use Rattle.meter.specs.Answer.{wait_report, region_report};
ghost use Rattle.meter.specs.Walk.{limit_of};
ghost use Rattle.meter.specs.Meter.{wait_of, scan_admission, region_of, region_reached_of};

use crate::scan::Region;
use crate::walk::Limit;
use memory::map::Board;
use memory::near::View;
use refusal::Refusal;
use std::ops::ControlFlow;

mod scan;
mod walk;

// What the walk from an address answers.
#[derive(Clone, Copy)]
pub enum Walked {
    // a request is heard after so many cycles
    Wait { cycles: u16 },
    // the cycles are more than the limit
    Over,
    // the walk meets HLT
    Halts,
    // the walk meets an unspecified form, at this address
    Unspecified { address: u16 },
}

// The longest wait of a region and the lowest start that has it.
#[derive(Clone, Copy)]
pub struct LongestWait {
    pub cycles: u16,
    pub start: u16,
}

// What the starts of a region name: the longest wait, and the lowest start whose wait is over the limit.
#[derive(Clone, Copy, Default)]
pub struct Findings {
    pub longest: Option<LongestWait>,
    pub lowest: Option<u16>,
}

// The meter for an address.
pub fn wait(board: Board, mem: &[u16], address: u16, limit: u16) -> Result<Walked, Refusal>
    ensures { wait_report result ≡ wait_of (bus_on board mem.now) address limit }
{
    memory::admit(board, mem)?;
    let limit = Limit::given(limit)?;
    let view = View::at(board, mem, address);
    let mut place = walk::start_at(address);
    // the loop over turns stands here and in `scan::stretch`, which nests it: docs/PROMISES.md, "Named forms"
    loop {
        match walk::turn_at(&view, limit, place) {
            ControlFlow::Break(walked) => return Ok(walked),
            ControlFlow::Continue(after) => place = after,
        }
    }
}

// The region that the meter is to scan, in either mode, unless it is not let in. (Its parameters are the public calls', and so those of C.)
fn admit_scan(
    board: Board,
    mem: &[u16],
    first: u16,
    last: u16,
    limit: u16,
) -> Result<Region, Refusal>
    ensures { MatchResult result
        (λ region. (scan_admission (bus_on board mem.now) first last limit ≡ Ok tt)
        × (region.first ≡ first) × (region.last ≡ last) × (region.limit.cycles ≡ limit_of limit))
        (λ refusal. scan_admission (bus_on board mem.now) first last limit ≡ Err refusal) }
{
    memory::admit(board, mem)?;
    if last < first {
        return Err(Refusal::FirstAboveLast);
    }
    let limit = Limit::given(limit)?;
    Ok(Region { first, last, limit })
}

// The meter for a region: every address from first to last is a start.
pub fn region(
    board: Board,
    mem: &[u16],
    first: u16,
    last: u16,
    limit: u16,
) -> Result<Findings, Refusal>
    ensures { region_report result ≡ region_of (bus_on board mem.now) first last limit }
{
    let region = admit_scan(board, mem, first, last, limit)?;
    Ok(scan::stretch(board, mem, region, scan::EVERY_ADDRESS, Findings::default()))
}

// The same in a second mode: of the addresses from first to last those are starts that are in the set of reached addresses with D clear. The set is both
// buffers, and `set`, of those reached with D set, need only have a set's length.
pub fn region_reached(
    board: Board,
    mem: &[u16],
    first: u16,
    last: u16,
    limit: u16,
    clear: &[u64],
    set: &[u64],
) -> Result<Findings, Refusal>
    ensures { region_report result ≡ region_reached_of (bus_on board mem.now) first last limit clear.now set.now }
{
    let region = admit_scan(board, mem, first, last, limit)?;
    let wrong_length = clear.len() != bitset::WORDS || set.len() != bitset::WORDS;
    if wrong_length {
        return Err(Refusal::WrongSetLength);
    }
    Ok(scan::members(board, mem, region, clear))
}
