// Image files: the loader and the writer. A file is a head that names its board, records of words with their addresses, and a tail with
// the sum of all numbers before it.
#![tactic(auto)]

ghost use Rattle.std.specs.Prelude.{◌≡◌, eqb, length};
ghost use Rattle.word.specs.Word.{wrap_add};
ghost use Rattle.records.specs.Loading.{loaded};
ghost use Rattle.image.specs.Format.{record_limit, record_bytes, id_head};
ghost use Rattle.image.specs.Read.{part_of, first_of, body_of};
ghost use Rattle.image.specs.Answer.{first_reported};
ghost use Rattle.image.specs.Load.{is_for, sum_tested, load_of};
ghost use Rattle.image.specs.Write.{wrote, write_of};

use refusal::Refusal;

mod check;
mod emit;
pub mod format;
mod parse;
mod store;

use crate::parse::Part;

// The record at the front of some bytes: where its words go, and how many they are.
#[derive(Clone, Copy)]
pub struct FirstRecord {
    pub address: u16,
    pub count: u16,
}

impl FirstRecord {
    // How many of the bytes it takes.
    pub fn size(self) -> usize
        ensures { result ≡ record_bytes self.count }
    {
        format::RECORD_HEAD_BYTES + self.count as usize * 2
    }
}

// The board test: whether the file belongs on this board.
fn is_for(named: u16, board: u16) -> bool
    ensures { result ≡ is_for (id_head named) board }
{
    named == board
}

// The sum test: whether the bytes arrived. `head` and `records` are the sums of the head's and of the records' numbers.
fn sum_agrees(head: u16, records: u16, stated: u16) -> bool
    ensures { result ≡ eqb (wrap_add head records) stated }
{
    word::wrapping_add(head, records) == stated
}

// Loads what follows a head whose own numbers add up to `head`.
fn load_body(head: u16, mem: &mut [u16], body: &[u8]) -> Result<usize, Refusal>
    ensures { loaded result mem.new ≡ sum_tested mem.old head (body_of record_limit (length mem.old) body.now) }
{
    let checked = check::check_records(body, mem.len())?;
    if sum_agrees(head, checked.sum, checked.stated) {
        store::store_records(body, mem);
        Ok(checked.records)
    } else {
        Err(Refusal::SumDiffers)
    }
}

// Loads a file for a board. Nothing is stored before every test has passed.
pub fn load(board: u16, mem: &mut [u16], file: &[u8]) -> Result<usize, Refusal>
    ensures { loaded result mem.new ≡ load_of board mem.old file.now }
{
    if memory::is_too_long(mem) {
        return Err(Refusal::MemoryTooLong);
    }
    let named = parse::read_head(file)?;
    if is_for(named, board) {
        load_body(named, mem, &file[format::HEAD_BYTES..])
    } else {
        Err(Refusal::WrongBoard)
    }
}

// The record at the front of a file's bytes, after the head or another record, for a memory of `size` words.
pub fn first_record(bytes: &[u8], size: usize) -> Option<FirstRecord>
    ensures { first_reported result ≡ first_of (part_of record_limit size bytes.now) }
{
    match parse::read_part(bytes, size) {
        Ok(Part::Record(record)) => Some(record),
        _ => None,
    }
}

// Writes the words from `first` to `last` as a file for a board. The room past the file stays.
pub fn write(
    board: u16,
    mem: &[u16],
    first: u16,
    last: u16,
    room: &mut [u8],
) -> Result<usize, Refusal>
    ensures { wrote result room.new ≡ write_of board mem.now first last room.old }
{
    records::admit_region(mem, first, last)?;
    let start = first as usize;
    let end = last as usize + 1;
    emit::put_image(room, board, first, &mem[start..end])
}
