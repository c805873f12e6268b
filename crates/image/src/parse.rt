// Reads the parts of a file, one at a time: the head, and after it what stands at the front of the rest. Each answers the first offence
// where it finds one.
ghost use Rattle.std.specs.Prelude.{◌≡◌};
ghost use Rattle.image.specs.Format.{record_limit};
ghost use Rattle.image.specs.Read.{head_of, record_of, tail_of, part_of};
ghost use Rattle.image.specs.Inner.Pass.{head_read, part_read};

use crate::{FirstRecord, format};
use refusal::Refusal;

// What stands at the front of the bytes after the head: a record, whose words follow its count, or the tail, with the sum that it states.
#[derive(Clone, Copy)]
pub(crate) enum Part {
    Record(FirstRecord),
    Tail(u16),
}

// The head names the board that the file is for.
#[tactic(auto, using(std::proofs::lemmas::Bool::Decides::nat_tests), unfolding(crate::specs::Read::head_of))]
pub(crate) fn read_head(file: &[u8]) -> Result<u16, Refusal>
    ensures { head_read result ≡ head_of file.now }
{
    if file.len() < format::HEAD_BYTES {
        return Err(Refusal::MalformedImage);
    }
    if bigendian::word_at(file, 0) != format::ID_MARK {
        return Err(Refusal::MalformedImage);
    }
    Ok(bigendian::word_at(file, format::BOARD_AT))
}

// A record for a memory of `size` words: its count is tested before its words are, and these before where they go.
#[tactic(auto, using(std::proofs::lemmas::Bool::Decides::nat_tests), unfolding(crate::specs::Read::record_of, crate::specs::Read::place_of))]
fn read_record(bytes: &[u8], size: usize) -> Result<Part, Refusal>
    ensures { part_read result ≡ record_of record_limit size bytes.now }
{
    if bytes.len() < format::RECORD_HEAD_BYTES {
        return Err(Refusal::MalformedImage);
    }
    let address = bigendian::word_at(bytes, format::ADDRESS_AT);
    let count = bigendian::word_at(bytes, format::COUNT_AT);
    let record = FirstRecord { address, count };
    let words = count as usize;
    if words == 0 {
        return Err(Refusal::MalformedImage);
    }
    if format::RECORD_LIMIT < words {
        return Err(Refusal::MalformedImage);
    }
    if bytes.len() < record.size() {
        return Err(Refusal::MalformedImage);
    }
    if records::is_within(size, address, count as u32) {
        Ok(Part::Record(record))
    } else {
        Err(Refusal::PastMemory)
    }
}

// The tail is the end of the file.
#[tactic(auto, using(std::proofs::lemmas::Bool::Decides::nat_tests), unfolding(crate::specs::Read::tail_of))]
fn read_tail(bytes: &[u8]) -> Result<Part, Refusal>
    ensures { part_read result ≡ tail_of bytes.now }
{
    if bytes.len() != format::TAIL_BYTES {
        return Err(Refusal::MalformedImage);
    }
    Ok(Part::Tail(bigendian::word_at(bytes, format::SUM_AT)))
}

#[tactic(auto, using(std::proofs::lemmas::Bool::Decides::nat_tests), unfolding(crate::specs::Read::part_of))]
pub(crate) fn read_part(bytes: &[u8], size: usize) -> Result<Part, Refusal>
    ensures { part_read result ≡ part_of record_limit size bytes.now }
{
    if bytes.len() < 2 {
        return Err(Refusal::MalformedImage);
    }
    match bigendian::word_at(bytes, 0) {
        format::AT_MARK => read_record(bytes, size),
        format::OK_MARK => read_tail(bytes),
        _ => Err(Refusal::MalformedImage),
    }
}
