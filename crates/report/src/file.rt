// The text of a file that was loaded: the first line, the lines of each record, and the last line.
ghost use Rattle.std.specs.Prelude.{◌+◌, ◌*◌, ◌<◌, ◌≤◌};
ghost use Rattle.memory.specs.Map.{all_ram};
ghost use Rattle.memory.specs.Bus.{bus_on};
ghost use Rattle.image.specs.Format.{record_bytes};
ghost use Rattle.report.specs.Reading.{board_words, records_of};
ghost use Rattle.report.specs.Program.{record_lines, records_lines, loaded_text};
ghost use Rattle.report.specs.Inner.Page.{lines_room, HasRoom, IsBlank, Prints, Adds, Ready, Fills};

use crate::page::Page;
use crate::{Memory, Program, instructions, regions};
use image::{FirstRecord, format};

// The lines of one record. Each byte of it in the file has room for ten. The one place that asks which program it is: a closure for the lines would
// bring their contract along as a clause of each function that hands it on. (That the record lies in the memory is asked by each of the three that take
// it apart, and is no invariant of `FirstRecord`, which is of any memory's size.)
fn push_record(page: &mut Page, program: Program, memory: &Memory, found: FirstRecord)
    requires { (0 < found.count) × (found.address + found.count ≤ board_words) × HasRoom page.old (record_bytes found.count * 10) }
    ensures { Adds page.old (record_lines program (bus_on all_ram memory.now) found.address found.count) page.new }
{
    match program {
        Program::ListImage => instructions::push_lines(page, memory, found),
        Program::MeterImage => regions::push_line(page, memory, found),
    }
}

// The lines of every record, in the file's order.
fn push_records(page: &mut Page, program: Program, file: &[u8], memory: &Memory)
    requires { Ready file.now × HasRoom page.old lines_room }
    ensures { Fills page.old (records_lines program (bus_on all_ram memory.now) (records_of file.now)) page.new }
{
    let mut rest = &file[format::HEAD_BYTES..];
    while let Some(found) = image::first_record(rest, memory.len()) {
        push_record(page, program, memory, found);
        rest = &rest[found.size()..];
    }
}

// The whole text, on a page that is blank.
pub(crate) fn push_report(page: &mut Page, program: Program, file: &[u8], memory: &Memory)
    requires { Ready file.now × IsBlank page.old }
    ensures { Prints page.old (loaded_text program (bus_on all_ram memory.now) (records_of file.now)) page.new }
{
    page.push_numbered(b"BOARD ", crate::BOARD);
    push_records(page, program, file, memory);
    page.push_numbered(b"END ", page.lines as u16);
}
