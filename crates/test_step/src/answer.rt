// An answer as a case writes it: its name, and its numbers, 0 where it has none.
use cpu::{Done, Kind};
use harness::fields;
use refusal::Refusal;
use run::{Cause, Ended};
use std::fmt;

#[derive(Clone, Copy)]
pub(crate) struct Answer {
    name: &'static str,
    steps: u64,
    cycles: u64,
    number: u64,
}

impl From<Refusal> for Answer {
    fn from(why: Refusal) -> Answer {
        Answer {
            name: "refused",
            steps: 0,
            cycles: 0,
            number: u64::from(refusal::number(why)),
        }
    }
}

impl From<Done> for Answer {
    fn from(done: Done) -> Answer {
        Answer {
            name: match done.kind {
                Kind::Granted => "granted",
                Kind::Interrupted => "interrupted",
                Kind::Executed => "executed",
            },
            steps: 0,
            cycles: done.cycles,
            number: 0,
        }
    }
}

impl From<Ended> for Answer {
    fn from(ended: Ended) -> Answer {
        Answer {
            name: match ended.cause {
                Cause::Halted => "halted",
                Cause::Unspecified => "unspecified",
                Cause::Budget => "budget",
            },
            steps: u64::from(ended.steps),
            cycles: u64::from(ended.cycles),
            number: 0,
        }
    }
}

impl fmt::Display for Answer {
    fn fmt<W: fmt::Write>(&self, f: &mut fmt::Formatter<W>) -> fmt::Result {
        let name = self.name;
        let steps = self.steps;
        let cycles = self.cycles;
        let number = self.number;
        write!(f, "{name} steps={steps} cycles={cycles} number={number}")
    }
}

impl Answer {
    // Whether it is the one that a row tells.
    pub(crate) fn is_told(self, after: &[u8]) -> bool {
        fields::is(after, b"answer", self.name.as_bytes())
            & (self.steps == fields::number(after, b"steps", 0))
            & (self.cycles == fields::number(after, b"cycles", 0))
            & (self.number == fields::number(after, b"number", 0))
    }
}
