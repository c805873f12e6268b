// Cases of three rows: what is called and a name, what is given, and what is expected.
//
//     step ADD@ R4,R4 is R4 + 1 + word
//     before flags=SZOC 0100=02E4 1414=0005
//     after flags=- r4=141A r7=0101 answer=executed cycles=8
ghost use Rattle.std.specs.Prelude.{◌≡◌, true, Bool, ⊤, ℕ, List, ◌%◌, ◌^◌, ◌≤◌, length};
ghost use Rattle.std.specs.Option.{option_map};
ghost use Rattle.std.specs.Io.KnownBytes.{Consumes};
ghost use Rattle.harness.specs.Text.{quoted};
ghost use Rattle.harness.specs.Fields.{kind_of_row, body_of_row, body_of_kind};
ghost use Rattle.harness.specs.Cases.{cases_of, cases_left, rows_of_case, Judged};
ghost use Rattle.harness.specs.declared.cases.Case.{Case};

use crate::tally::Tally;
use crate::text::Rows;
use crate::{fields, text};
use std::io::Read;

#[derive(Clone, Copy)]
pub struct Case<'a> {
    pub first: &'a [u8],
    pub second: &'a [u8],
    pub third: &'a [u8],
}

impl<'a> Case<'a> {
    // What is called. (A line each names a part of a case's rows.)
    pub fn kind(&self) -> &'a [u8]
        ensures { result.now ≡ kind_of_row self.now.first.now }
    {
        fields::kind(self.first)
    }

    pub fn name(&self) -> &'a [u8]
        ensures { result.now ≡ body_of_row self.now.first.now }
    {
        fields::body(self.first)
    }

    // The fields of what is given, if the second row begins as it is to.
    pub fn before(&self) -> Option<&'a [u8]>
        ensures { option_map (λ fields. fields.now) result ≡ body_of_kind self.now.second.now (quoted "before") }
    {
        fields::body_of(self.second, b"before")
    }

    // .. of what is expected.
    pub fn after(&self) -> Option<&'a [u8]>
        ensures { option_map (λ fields. fields.now) result ≡ body_of_kind self.now.third.now (quoted "after") }
    {
        fields::body_of(self.third, b"after")
    }
}

// The cases of an input. A row that is no remark is the first of a case's three, so that no row is passed over; where the input ends before the third,
// empty rows stand for what is left out.
#[derive(Drop)]
pub struct Cases<'a> {
    rows: Rows<'a>,
}

impl<'a> Cases<'a> {
    pub fn of(input: &'a [u8]) -> Cases<'a>
        ensures { cases_left result ≡ cases_of input.now }
    {
        Cases {
            rows: Rows::of(input),
        }
    }
}

impl<'a> Iterator for Cases<'a> {
    ghost use Rattle.std.specs.Iterator.{YieldsFirstBy, item_count};

    type Item = Case<'a>;

    ghost next_gives = { YieldsFirstBy rows_of_case cases_left };

    ghost remaining = { item_count cases_left };

    fn next(&mut self) -> Option<Case<'a>> {
        while let Some(first) = self.rows.next() {
            if !text::is_remark(first) {
                let second = self.rows.next_or_empty();
                let third = self.rows.next_or_empty();
                return Some(Case {
                    first,
                    second,
                    third,
                });
            }
        }
        None
    }
}

// Prints what the line of a case begins with. Nothing differs there, so it stands before a case's comparisons. A name is bytes of the input, which need
// not be text.
pub fn begin(rt: &impl Print, name: &[u8]) -> bool
    ensures { result ≡ true }
{
    let _ = rt.write_all(name);
    let _ = rt.write_all(b": ");
    true
}

// What judges the cases of a program, with the rooms that its calls take.
pub trait Judge {
    // How a case may be answered, and how that leaves the judge. (A program need not say: its cases are counted as they were answered all the same.)
    ghost judges: { Self → Case → Bool → Self → Type 0 } = { λ _ _ _ _. ⊤ };

    // Begins the line of a case, and answers whether all went well.
    fn is_well(&mut self, rt: &impl Print, case: Case) -> bool
        ensures { judges self.old case.entry result self.new };
}

// Runs the cases of an input, and counts each by what its judge answers.
pub fn run_cases<J: Judge>(rt: &impl Print, input: &[u8], judge: &mut J) -> Tally
    ensures cases { result.cases ≡ length (cases_of input.now) % 2 ^ 64 }
    ensures judged { Judged J.judges judge.old judge.new (cases_of input.now) result }
{
    let mut tally = Tally::new();
    for case in Cases::of(input) {
        tally.close(rt, judge.is_well(rt, case));
    }
    tally
}

// Ends what a program prints: the counts, and before them that the input may have been cut, where it fills its room.
pub fn tell(rt: &impl Print, is_full: bool, tally: Tally) -> Tally
    ensures { result ≡ tally }
{
    if is_full {
        let _ = rt.println("the input fills its room, and may be cut");
    }
    let _ = rt.println(tally);
    tally
}

// Gives an input to a program's cases, as far as there is room for it, and prints their counts.
pub fn run<R: Read, J: Judge>(
    rt: &impl Print,
    input: &mut R,
    room: &mut [u8],
    judge: &mut J,
) -> Tally
    ensures { (bytes : List ℕ)
        × (length bytes ≤ length room.old)
        × Consumes (R.remaining input.old) (R.remaining input.new) bytes
        × Judged J.judges judge.old judge.new (cases_of bytes) result }
{
    let size = room.len();
    let bytes = input::read_full(input, room);
    let tally = run_cases(rt, bytes, judge);
    tell(rt, bytes.len() == size, tally)
}
