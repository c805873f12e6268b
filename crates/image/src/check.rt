// The loader's first pass: every record is tested and summed, and nothing is stored.
ghost use Rattle.std.specs.Prelude.{◌≡◌, ◌%◌, ◌≤◌, length, drop};
ghost use Rattle.bigendian.specs.Numbers.{all_words, total};
ghost use Rattle.image.specs.Format.{record_limit, address_at};
ghost use Rattle.image.specs.Read.{body_of};
ghost use Rattle.image.specs.Inner.Pass.{summary};

use crate::parse::Part;
use crate::{format, parse};
use refusal::Refusal;

// How many records there are, their sum, and the sum that the tail states.
#[derive(Clone, Copy)]
pub(crate) struct Checked {
    pub records: usize,
    pub sum: u16,
    pub stated: u16,
}

// What the record of these bytes adds to the file's sum: all its numbers but the mark.
fn sum_record(bytes: &[u8]) -> u16
    requires { address_at ≤ length bytes.now }
    ensures { result ≡ total (all_words (drop address_at bytes.now)) % 65536 }
{
    bigendian::sum_words(&bytes[format::ADDRESS_AT..])
}

// `body` is the file after its head, and `len` the length of the memory that it is for. Answers the first offence in file order. The second
// pass has a loop of its own, as this one has to tell why the records end: a walk that both hand a closure would be longer than the two.
pub(crate) fn check_records(body: &[u8], len: usize) -> Result<Checked, Refusal>
    ensures { result ≡ summary 0 0 (body_of record_limit len body.now) }
{
    let mut rest = body;
    let mut records = 0;
    let mut sum: u16 = 0;
    loop {
        match parse::read_part(rest, len)? {
            Part::Record(record) => {
                let size = record.size();
                sum = word::wrapping_add(sum, sum_record(&rest[..size]));
                records += 1;
                rest = &rest[size..];
            }
            Part::Tail(stated) => {
                return Ok(Checked {
                    records,
                    sum,
                    stated,
                });
            }
        }
    }
}
