// The reader's second pass: the words are stored, line by line, so that later lines win.
ghost use Rattle.std.specs.Prelude.{◌≡◌, ◌/◌, ◌≤◌, ◌<◌, length};
ghost use Rattle.bigendian.specs.Numbers.{all_words};
ghost use Rattle.records.specs.Records.{overwrite};
ghost use Rattle.records.specs.Region.{words_between};
ghost use Rattle.pair.specs.Read.{mappings_below};
ghost use Rattle.pair.specs.Inner.Pass.{target_end, Fits, placed_mappings};

use crate::line;
use crate::line::Mapping;

fn store_mapping(bin: &[u8], mapping: Mapping, mem: &mut [u16])
    requires { (mapping.first ≤ mapping.last) × (mapping.last < length bin.now / 2) × (target_end mapping ≤ length mem.old) }
    ensures { mem.new
        ≡ overwrite mem.old mapping.target (words_between (all_words bin.now) mapping.first mapping.last) }
{
    let start = mapping.first as usize * 2;
    let end = mapping.last as usize * 2 + 2;
    bigendian::read_words(&bin[start..end], mem, mapping.target as usize);
}

// `lines` is the text after its first line, which the first pass found good, as it did the flat file and the memory. So no line is printed and
// compared again, as the first pass's walk would do.
pub(crate) fn store_lines(lines: &[u8], bin: &[u8], mem: &mut [u16])
    requires { Fits (all_words bin.now) (length mem.old) (mappings_below lines.now) }
    ensures { mem.new ≡ placed_mappings (all_words bin.now) mem.old (mappings_below lines.now) }
{
    let mut rest = lines;
    while !rest.is_empty() {
        if rest[0] == line::LINE_FEED {
            rest = &rest[1..];
        } else {
            store_mapping(bin, line::mapping_at(rest), mem);
            rest = &rest[line::LINE_BYTES..];
        }
    }
}
