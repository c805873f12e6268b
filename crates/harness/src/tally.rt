// The count of cases. The line of a case is its name, perhaps what differs, and `ok` or `FAILED`. A write that fails is passed over.
ghost use Rattle.std.specs.Prelude.{◌≡◌};
ghost use Rattle.harness.specs.Tally.{no_cases, counted_of, all_well};

use std::fmt;

#[derive(Clone, Copy)]
pub struct Tally {
    pub cases: u64,
    pub failed: u64,
}

impl Tally {
    pub fn new() -> Tally
        ensures { result ≡ no_cases }
    {
        Tally {
            cases: 0,
            failed: 0,
        }
    }

    // Counts a case, without a line.
    #[tactic(auto, unfolding(crate::specs::Tally::counted_of))]
    pub fn count(&mut self, well: bool)
        ensures { self.new ≡ counted_of self.old well }
    {
        self.cases = self.cases.wrapping_add(1);
        if !well {
            self.failed = self.failed.wrapping_add(1);
        }
    }

    // Prints the end of a case's line, and counts the case. (Written as bytes, like what stands before it: as a text it takes some 400 machine
    // instructions more.)
    pub fn close(&mut self, rt: &impl Print, well: bool)
        ensures { self.new ≡ counted_of self.old well }
    {
        let end: &[u8] = if well { b"ok\n" } else { b"FAILED\n" };
        let _ = rt.write_all(end);
        self.count(well)
    }

    // Whether no case failed.
    pub fn is_well(&self) -> bool
        ensures { result ≡ all_well self.now }
    {
        self.failed == 0
    }
}

impl fmt::Display for Tally {
    fn fmt<W: fmt::Write>(&self, f: &mut fmt::Formatter<W>) -> fmt::Result {
        let cases = self.cases;
        let failed = self.failed;
        write!(f, "{cases} cases, {failed} failed")
    }
}
