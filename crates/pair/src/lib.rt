// Pairs: a flat file of big-endian words (bin) beside a mapping text (cfg), whose lines say which words of the file go where. The reader
// and the writer.
#![tactic(auto)]

ghost use Rattle.std.specs.Prelude.{◌≡◌, ◌<◌, ◌≤◌, length};
ghost use Rattle.records.specs.Records.{overwrite};
ghost use Rattle.records.specs.Loading.{loaded};
ghost use Rattle.bigendian.specs.Numbers.{bytes_of};
ghost use Rattle.pair.specs.Format.{text_bytes};
ghost use Rattle.pair.specs.Read.{mappings_below};
ghost use Rattle.pair.specs.Load.{lines_tested, load_pair_of};
ghost use Rattle.pair.specs.Write.{text_for, writing_pair, wrote_pair, write_pair_of};

use refusal::Refusal;

mod check;
mod line;
mod store;

use crate::line::Mapping;

// The lengths of the flat file and of the text.
#[derive(Clone, Copy)]
pub struct Lengths {
    pub bin: usize,
    pub cfg: usize,
}

// The first line of every text.
const HEAD_BYTES: usize = 10;

const HEAD: [u8; 10] = *b"[mapping]\n";

// A written text has the first line and one more.
const TEXT_BYTES: usize = HEAD_BYTES + line::LINE_BYTES;

// Reads by the lines behind a text's first one. Nothing is stored before every test has passed: each is over all lines.
fn load_lines(mem: &mut [u16], bin: &[u8], lines: &[u8]) -> Result<usize, Refusal>
    ensures { loaded result mem.new ≡ lines_tested mem.old bin.now (mappings_below lines.now) }
{
    let checked = check::check_lines(lines)?;
    if bin.len() % 2 != 0 {
        return Err(Refusal::MissingFileWords);
    }
    if bin.len() / 2 < checked.words {
        return Err(Refusal::MissingFileWords);
    }
    if mem.len() < checked.end {
        return Err(Refusal::PastMemory);
    }
    store::store_lines(lines, bin, mem);
    Ok(checked.count)
}

// Reads a pair into memory.
pub fn load_pair(mem: &mut [u16], bin: &[u8], cfg: &[u8]) -> Result<usize, Refusal>
    ensures { loaded result mem.new ≡ load_pair_of mem.old bin.now cfg.now }
{
    if memory::is_too_long(mem) {
        return Err(Refusal::MemoryTooLong);
    }
    let Some(lines) = cfg.strip_prefix(&HEAD) else {
        return Err(Refusal::MalformedMapping);
    };
    load_lines(mem, bin, lines)
}

// The text of a region of so many words that begins at the address `first`.
fn put_text(first: u16, words: usize, cfg: &mut [u8])
    requires { (0 < words) × (words ≤ 65536) × (text_bytes ≤ length cfg.old) }
    ensures { cfg.new ≡ overwrite cfg.old 0 (text_for first words) }
{
    cfg[..HEAD_BYTES].copy_from_slice(&HEAD);
    let line = line::line_of(Mapping {
        first: 0,
        last: (words - 1) as u16,
        target: first,
    });
    cfg[HEAD_BYTES..TEXT_BYTES].copy_from_slice(&line);
}

// The pair of a region that begins at the address `first`.
fn put_region(
    first: u16,
    region: &[u16],
    bin: &mut [u8],
    cfg: &mut [u8],
) -> Result<Lengths, Refusal>
    requires { (0 < length region.now) × (length region.now ≤ 65536) }
    ensures { wrote_pair result bin.new cfg.new
        ≡ writing_pair bin.old cfg.old (bytes_of region.now) (text_for first (length region.now)) }
{
    let size = region.len() * 2;
    if bin.len() < size {
        return Err(Refusal::RoomTooSmall);
    }
    if cfg.len() < TEXT_BYTES {
        return Err(Refusal::RoomTooSmall);
    }
    bigendian::put_words(bin, 0, region);
    put_text(first, region.len(), cfg);
    Ok(Lengths {
        bin: size,
        cfg: TEXT_BYTES,
    })
}

// Writes the words from `first` to `last` as a pair. Both rooms past what is written stay.
pub fn write_pair(
    mem: &[u16],
    first: u16,
    last: u16,
    bin: &mut [u8],
    cfg: &mut [u8],
) -> Result<Lengths, Refusal>
    ensures { wrote_pair result bin.new cfg.new
        ≡ write_pair_of mem.now first last bin.old cfg.old }
{
    records::admit_region(mem, first, last)?;
    let start = first as usize;
    let end = last as usize + 1;
    put_region(first, &mem[start..end], bin, cfg)
}
