// The metering's lines: one for each record, as a region.
ghost use Rattle.std.specs.Prelude.{◌+◌, ◌<◌, ◌≤◌};
ghost use Rattle.memory.specs.Map.{all_ram};
ghost use Rattle.memory.specs.Bus.{bus_on};
ghost use Rattle.meter.specs.Answer.{longest_of, lowest_of, named_in};
ghost use Rattle.report.specs.Text.{line_text};
ghost use Rattle.report.specs.Reading.{board_words};
ghost use Rattle.report.specs.Regions.{wait_text, over_text, named_line, region_lines};
ghost use Rattle.report.specs.Inner.Page.{HasRoom, Writes, Adds};

use crate::page::Page;
use crate::{Memory, page};
use image::FirstRecord;
use memory::map;
use meter::{Findings, LongestWait};

// The limit that every record is metered at.
const LIMIT: u16 = 57;

#[tactic(auto, using(crate::proofs::LengthLaws::hex_length))]
fn push_wait(page: &mut Page, longest: Option<LongestWait>)
    requires { HasRoom page.old 17 }
    ensures { Writes page.old (wait_text (longest_of longest)) page.new }
{
    match longest {
        None => page.push_bytes(b"WAIT NONE"),
        Some(LongestWait { cycles, start }) => {
            page.push_bytes(b"WAIT ");
            page.push_hex(cycles);
            page.push_bytes(b" AT ");
            page.push_hex(start);
        }
    }
}

#[tactic(auto, using(crate::proofs::LengthLaws::hex_length, crate::proofs::PageLaws::writes_then))]
fn push_over(page: &mut Page, lowest: Option<u16>)
    requires { HasRoom page.old 9 }
    ensures { Writes page.old (over_text (lowest_of lowest)) page.new }
{
    match lowest {
        None => page.push_bytes(b"OVER NONE"),
        Some(start) => {
            page.push_bytes(b"OVER ");
            page.push_hex(start);
        }
    }
}

// First and last address, the longest wait and its start, and the lowest start over the limit.
#[tactic(auto, using(crate::proofs::LengthLaws::field_length, crate::proofs::LengthLaws::wait_short, crate::proofs::LengthLaws::over_short))]
fn push_findings(page: &mut Page, first: u16, last: u16, findings: Findings)
    requires { HasRoom page.old 38 }
    ensures { Writes page.old (line_text (named_line first last (named_in findings))) page.new }
{
    page.push_field(first);
    page.push_field(last);
    push_wait(page, findings.longest);
    page.push(page::SPACE);
    push_over(page, findings.lowest);
    page.end_line();
}

// The line of a record.
pub(crate) fn push_line(page: &mut Page, memory: &Memory, found: FirstRecord)
    requires { (0 < found.count) × (found.address + found.count ≤ board_words) × HasRoom page.old 38 }
    ensures { Adds page.old (region_lines (bus_on all_ram memory.now) found.address found.count) page.new }
{
    let first = found.address;
    let last = first + (found.count - 1);
    // neither the memory nor the region nor the limit is refused
    let findings = meter::region(map::all_ram(), memory, first, last, LIMIT).unwrap();
    push_findings(page, first, last, findings);
    page.lines += 1;
}
