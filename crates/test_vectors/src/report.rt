// Counts the lines, and prints those that are not as they should be, and the counts.
ghost use Rattle.std.specs.Prelude.{◌+◌, ◌^◌, ◌<◌};
ghost use Rattle.test_vectors.specs.Count.{Counted};

use crate::compare::Differences;
use std::fmt;

// The vectors that were run, those that do not agree, and the lines that are no vector.
#[derive(Clone, Copy)]
pub(crate) struct Tally {
    pub vectors: u64,
    pub mismatches: u64,
    pub malformed: u64,
}

impl fmt::Display for Tally {
    fn fmt<W: fmt::Write>(&self, f: &mut fmt::Formatter<W>) -> fmt::Result {
        let vectors = self.vectors;
        let mismatches = self.mismatches;
        let malformed = self.malformed;
        write!(
            f,
            "{vectors} vectors, {mismatches} mismatches, {malformed} malformed"
        )
    }
}

fn write_differences(rt: &impl Print, number: u64, found: Differences) {
    let _ = print!(rt; "line {number}:");
    let parts = [
        (found.registers, " registers"),
        (found.flags, " flags"),
        (found.cycles, " cycles"),
        (found.memory, " memory"),
    ];
    for (differs, name) in parts {
        if differs {
            let _ = rt.print(name);
        }
    }
    let _ = println!(rt);
}

// Reports what was found on the line after the first `lines`, and counts it: nothing where it is malformed.
pub(crate) fn count(rt: &impl Print, tally: Tally, lines: u64, found: Option<Differences>) -> Tally
    requires { Counted lines tally × (lines + 1 < 2 ^ 64) }
    ensures { Counted (lines + 1) result }
{
    let number = lines + 1;
    let mut counted = tally;
    match found {
        Some(found) => {
            counted.vectors += 1;
            if found.is_any() {
                write_differences(rt, number, found);
                counted.mismatches += 1;
            }
        }
        None => {
            let _ = println!(rt; "line {number}: malformed");
            counted.malformed += 1;
        }
    }
    counted
}
