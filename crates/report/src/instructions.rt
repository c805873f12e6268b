// The listing's lines: one for each instruction that starts in a record.
ghost use Rattle.std.specs.Prelude.{◌+◌, ◌*◌, ◌≤◌};
ghost use Rattle.memory.specs.Map.{all_ram};
ghost use Rattle.memory.specs.Bus.{bus_on, read_of};
ghost use Rattle.report.specs.Reading.{board_words};
ghost use Rattle.report.specs.Instructions.{instruction_lines};
ghost use Rattle.report.specs.Inner.Page.{HasRoom, Adds, Steps};

use crate::Memory;
use crate::page::Page;
use image::FirstRecord;
use listing::Listed;
use memory::map;

// Address, space, text. What was listed says where the next instruction starts, and with which D.
fn push_line(page: &mut Page, memory: &Memory, address: u16, double: bool) -> Listed
    requires { HasRoom page.old 20 }
    ensures { Steps (read_of (bus_on all_ram memory.now)) address double page.old page.new result }
{
    let mut text = [0u8; listing::TEXT_ROOM];
    // neither the memory nor the room is refused
    let listed = listing::disassemble(map::all_ram(), memory, address, double, &mut text).unwrap();
    page.push_field(address);
    page.push_bytes(&text[..listed.length]);
    page.end_line();
    page.lines += 1;
    listed
}

// The lines of a record, from its own address with D clear. No `for`, since each line says where the next one starts.
pub(crate) fn push_lines(page: &mut Page, memory: &Memory, found: FirstRecord)
    requires { (found.address + found.count ≤ board_words) × HasRoom page.old (found.count * 20) }
    ensures { Adds page.old (instruction_lines (bus_on all_ram memory.now) found.address found.count) page.new }
{
    let end = found.address as usize + found.count as usize;
    let mut next = found.address as usize;
    let mut double = false;
    while next < end {
        let line = push_line(page, memory, next as u16, double);
        next += line.words as usize;
        double = line.double;
    }
}
