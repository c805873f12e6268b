// Every opcode under both D with five pairs of words after it: listed, assembled, and listed again with other words following.
use crate::line::{Line, assembly_of, line_of};
use crate::tally::Count;
use listing::Assembly;
use refusal::Refusal;

// The words after an opcode. Bits 3 of a jump are in the third pair.
const PAIRS: [[u16; 2]; 5] = [
    [0x0000, 0x0000],
    [0x1234, 0x89AB],
    [0xFFFF, 0xFFFF],
    [0x0141, 0x0055],
    [0x0302, 0xFC00],
];

// The words of an answer, with others following.
fn followed(assembly: Assembly) -> [u16; 3] {
    match assembly {
        Assembly::One(w) => [w, 0x02AA, 0xABCD],
        Assembly::Two(w, a) => [w, a, 0x7777],
        Assembly::Three(w, a, b) => [w, a, b],
    }
}

// Both rooms were empty, so equal rooms are equal lines.
fn is_listed_alike(line: Line, answer: Result<Assembly, Refusal>, double: bool) -> bool {
    let Ok(assembly) = answer else {
        return false;
    };
    let Some(again) = line_of(followed(assembly), double) else {
        return false;
    };
    (line.room == again.room)
        & (line.listed.length == again.listed.length)
        & (line.listed.words == again.listed.words)
}

fn count(counts: &mut [Count; 7], memory: [u16; 3], double: bool) {
    let Some(line) = line_of(memory, double) else {
        return;
    };
    let words = line.listed.words;
    let assembly = assembly_of(memory, words);
    let answer = listing::assemble(line.text(), double);
    let tests = [
        true,
        words == 1,
        words == 2,
        words == 3,
        line.listed.double,
        answer.is_ok_and(|found| found == assembly),
        is_listed_alike(line, answer, double),
    ];
    for (count, test) in counts.iter_mut().zip(tests) {
        count.add(test);
    }
}

pub(crate) fn run(rt: &impl Print) {
    let mut counts = [
        Count::of("lines"),
        Count::of("of one word"),
        Count::of("of two words"),
        Count::of("of three words"),
        Count::of("next D set"),
        Count::of("come back equal"),
        Count::of("list as themselves"),
    ];
    for opcode in 0..1024u16 {
        for [second, third] in PAIRS {
            for double in [false, true] {
                count(&mut counts, [opcode, second, third], double);
            }
        }
    }
    for count in counts {
        count.write(rt);
    }
}
