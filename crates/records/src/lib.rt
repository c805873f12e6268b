// Records: words that are put into memory at addresses, and regions that are taken from it. There is nothing of bytes or files here; a
// file's form is the business of the crate that reads it.
#![tactic(auto)]

ghost use Rattle.std.specs.Prelude.{◌≡◌};
ghost use Rattle.records.specs.Records.{is_within};
ghost use Rattle.records.specs.Region.{region_admission};

use refusal::Refusal;

// Whether so many words from an address on lie within a memory of `size` words. No address wraps.
pub fn is_within(size: usize, address: u16, count: u32) -> bool
    ensures { result ≡ is_within size address count }
{
    address as usize + count as usize <= size
}

// Whether the words from `first` to `last` of a memory can be written, or why not.
#[tactic(auto, unfolding(crate::specs::Region::region_admission), using(std::proofs::lemmas::Bool::Decides::nat_tests))]
pub fn admit_region(mem: &[u16], first: u16, last: u16) -> Result<(), Refusal>
    ensures { result ≡ region_admission mem.now first last }
{
    if memory::is_too_long(mem) {
        return Err(Refusal::MemoryTooLong);
    }
    if last < first {
        return Err(Refusal::FirstAboveLast);
    }
    // the last word lies within, and so does the whole region
    if is_within(mem.len(), last, 1) {
        Ok(())
    } else {
        Err(Refusal::PastMemory)
    }
}
