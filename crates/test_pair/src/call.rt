// Makes the call of a case, and compares the answer and all that was lent with what the case says.
use crate::row::Lent;
use crate::{build, row};
use pair::Lengths;
use refusal::Refusal;

// Reads a pair into the memory, each as far as it is lent. Where less is there, no call is made; so it is below.
fn load(lent: Lent, memory: &mut [u16], bin: &[u8], cfg: &[u8]) -> Option<Result<usize, Refusal>> {
    let words = memory.get_mut(..lent.words)?;
    Some(pair::load_pair(words, bin.get(..lent.bin)?, cfg.get(..lent.cfg)?))
}

// Writes the case's region into the rooms, each as far as it is lent.
fn write(
    lent: Lent,
    before: &[u8],
    memory: &[u16],
    bin: &mut [u8],
    cfg: &mut [u8],
) -> Option<Result<Lengths, Refusal>> {
    let words = memory.get(..lent.words)?;
    let first = row::first_of(before);
    let last = row::last_of(before);
    let bin = bin.get_mut(..lent.bin)?;
    let cfg = cfg.get_mut(..lent.cfg)?;
    Some(pair::write_pair(words, first, last, bin, cfg))
}

// A pair is read, and the memory gets the words that follow the call and no others.
pub(crate) fn load_is_well(before: &[u8], after: &[u8]) -> bool {
    let mut memory = build::memory_of(before);
    let bin = build::bin_of(before);
    let cfg = build::cfg_of(before);
    let loaded = load(row::lent_to_load(before), &mut memory, &bin, &cfg);
    row::is_load(before, after)
        & row::tells_lines(after, loaded)
        & (memory == build::memory_after(before, after))
}

// A region is written, and the rooms get the file and the text that follow the call and no other byte.
pub(crate) fn write_is_well(before: &[u8], after: &[u8]) -> bool {
    let memory = build::memory_of(before);
    let mut bin = [build::BLANK; build::BIN_ROOM];
    let mut cfg = [build::BLANK; build::CFG_ROOM];
    let lent = row::lent_to_write(before);
    let written = write(lent, before, &memory, &mut bin, &mut cfg);
    row::is_write(before, after)
        & row::tells_lengths(after, written)
        & (bin == build::bin_of(after))
        & (cfg == build::cfg_of(after))
}

// A region is written into rooms of just the two lengths, and the pair is read into other memory.
pub(crate) fn trip_is_well(before: &[u8], after: &[u8]) -> bool {
    let memory = build::pattern();
    let mut bin = [build::BLANK; build::BIN_ROOM];
    let mut cfg = [build::BLANK; build::CFG_ROOM];
    let lent = row::lent_to_trip(before);
    let written = write(lent, before, &memory, &mut bin, &mut cfg);
    let mut back = build::memory_of(before);
    let loaded = load(lent, &mut back, &bin, &cfg);
    row::is_trip(before, after)
        & matches!(written, Some(Ok(Lengths { bin, cfg })) if (bin == lent.bin) & (cfg == lent.cfg))
        & row::tells_lines(after, loaded)
        & (back == build::memory_back(before))
}
