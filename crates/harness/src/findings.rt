// What the meter answers for a region, as a case writes it: `answer=found longest=10 start=0012 over=0014`, or a refusal.
ghost use Rattle.std.specs.Prelude.{◌≡◌, ◌%◌};
ghost use Rattle.harness.specs.Text.{quoted};
ghost use Rattle.harness.specs.Fields.{number_of_key};
ghost use Rattle.harness.specs.Findings.{tells_longest, tells_findings};

use crate::{answer, fields};
use meter::{Findings, LongestWait};
use refusal::Refusal;

// The limit that a case gives the meter. A larger number, which no limit is, is cut to 16 bits.
pub fn limit_of(fields: &[u8]) -> u16
    ensures { result ≡ number_of_key fields.now (quoted "limit") 0 % 65536 }
{
    (fields::number(fields, b"limit", 0) % 65536) as u16
}

fn tells_longest(fields: &[u8], longest: Option<LongestWait>) -> bool
    ensures { result ≡ tells_longest fields.now longest }
{
    let cycles = fields::find_number(fields, b"longest");
    let start = fields::find_word(fields, b"start");
    match longest {
        None => cycles.is_none() & start.is_none(),
        Some(wait) => (cycles == Some(u64::from(wait.cycles))) & (start == Some(wait.start)),
    }
}

// Whether the fields tell this answer.
pub fn are_told(fields: &[u8], given: Result<Findings, Refusal>) -> bool
    ensures { result ≡ tells_findings fields.now given }
{
    match given {
        Ok(found) => {
            !answer::is_refused(fields)
                & tells_longest(fields, found.longest)
                & (fields::find_word(fields, b"over") == found.lowest)
        }
        Err(why) => answer::refuses(fields, refusal::number(why)),
    }
}
