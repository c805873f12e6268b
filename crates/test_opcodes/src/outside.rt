// The lines of an outside disassembler. A row has fixed columns: D, three words, how many of them the line stands for, and the line.
//
//     0   4    9    14     21  25
//     0 | 0280 F2B3 7F4A | 2 | MVI $F2B3,R0
use crate::line;
use crate::tally::Tally;
use harness::text;
use harness::text::Rows;

// How a row begins: `d` stands for 0 or 1, `0` for a hexadecimal digit, every other byte for itself.
const SHAPE: [u8; 25] = *b"d | 0000 0000 0000 | 0 | ";

fn fits(byte: u8, shape: u8) -> bool {
    match shape {
        b'd' => b"01".contains(&byte),
        b'0' => b"0123456789ABCDEF".contains(&byte),
        _ => byte == shape,
    }
}

fn is_shaped(row: &[u8]) -> bool {
    (SHAPE.len() <= row.len())
        & row
            .iter()
            .zip(&SHAPE)
            .all(|(byte, shape)| fits(*byte, *shape))
}

// Prints a row that is not as written, with what differs: each test with its name.
fn judged(rt: &impl Print, row: &[u8], tests: [(bool, &str); 4]) -> bool {
    let well = tests.iter().all(|(holds, _)| *holds);
    if !well {
        let _ = rt.write_all(row);
        let _ = rt.print(":");
        for (holds, name) in tests {
            if !holds {
                let _ = rt.print(name);
            }
        }
        let _ = println!(rt);
    }
    well
}

// Lists the words of a row, and assembles its line.
fn is_as_written(rt: &impl Print, row: &[u8]) -> bool {
    let double = text::byte_at(row, 0) == b'1';
    let memory = [
        text::hex_word(row, 4),
        text::hex_word(row, 9),
        text::hex_word(row, 14),
    ];
    let wanted = text::from_column(row, 25);
    let Some(found) = line::line_of(memory, double) else {
        return judged(
            rt,
            row,
            [(false, " text"), (true, ""), (true, ""), (true, "")],
        );
    };
    let words = found.listed.words;
    let assembly = line::assembly_of(memory, words);
    let tests = [
        (is_shaped(row), " malformed"),
        (found.text() == wanted, " text"),
        (u64::from(words) == text::decimal(row, 21, 1), " words"),
        (
            listing::assemble(wanted, double).is_ok_and(|found| found == assembly),
            " assembled",
        ),
    ];
    judged(rt, row, tests)
}

pub(crate) fn run(rt: &impl Print, input: &[u8]) {
    let mut tally = Tally::of("lines of another disassembler");
    for row in Rows::of(input) {
        if !text::is_remark(row) {
            tally.add(is_as_written(rt, row));
        }
    }
    tally.write(rt, "as written");
}
