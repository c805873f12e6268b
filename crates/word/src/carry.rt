// The four instructions that shift through carry, by one and by two. Each line names what one bit of the result, or the flag C or O after the
// shift, takes: an old bit, an old flag, or 0. This text is what runs. docs/SHIFTS.md has the same as pictures, with worked letters.
// The eight forms share no function: each is a table to be checked by hand, a line a bit.
//
// How to read it. `RLC R0` is by one, `rlc_once` here, and `RLC R0,2` is by two, `rlc_twice`; which register it is makes no difference. Of a form
// read the lines below `Bits`. `bit15: old.bit13` says that bit 15 of the result takes the old bit 13, as it was before the shift. Bit 15 is the
// highest bit of a word, at the left, and bit 0 the lowest. `old.c` and `old.o` (the letter) are the flags C and O before the shift, 1 if set and 0
// if clear, and `ZERO` is 0. S and Z have no line of their own. Z is set if all 16 bits of the result are 0. S is bit 15 of the result where
// `with_sign` stands above the bits (RLC, SLLC), and bit 7 where `with_low_sign` does (RRC, SARC). The bits of a hexadecimal digit:
//
//     0 0000    1 0001    2 0010    3 0011    4 0100    5 0101    6 0110    7 0111
//     8 1000    9 1001    A 1010    B 1011    C 1100    D 1101    E 1110    F 1111
ghost use Rattle.std.specs.Prelude.{◌≡◌};
ghost use Rattle.word.specs.Shifts.{rlc_once, rlc_twice, sllc_once, sllc_twice, rrc_once, rrc_twice, sarc_once, sarc_twice};

use crate::bits::Bits;
use crate::{Flagged, bits};

const ZERO: u16 = 0;

// RLC by one, opcodes $050 to $053 for R0 to R3.
pub(crate) fn rlc_once(f: Flagged) -> Flagged
    ensures { result ≡ rlc_once f }
{
    let old = bits::taken_apart(f);
    bits::with_sign(Bits {
        bit15: old.bit14, // from here on bits 14 to 0 move up one place
        bit14: old.bit13,
        bit13: old.bit12,
        bit12: old.bit11,
        bit11: old.bit10,
        bit10: old.bit9,
        bit9: old.bit8,
        bit8: old.bit7,
        bit7: old.bit6,
        bit6: old.bit5,
        bit5: old.bit4,
        bit4: old.bit3,
        bit3: old.bit2,
        bit2: old.bit1,
        bit1: old.bit0,
        bit0: old.c, // C comes in
        c: old.bit15, // bit 15 goes to C
        o: old.o, // O takes O: it stays as it was
    })
}

// RLC by two, opcodes $054 to $057 for R0 to R3.
pub(crate) fn rlc_twice(f: Flagged) -> Flagged
    ensures { result ≡ rlc_twice f }
{
    let old = bits::taken_apart(f);
    bits::with_sign(Bits {
        bit15: old.bit13, // from here on bits 13 to 0 move up two places
        bit14: old.bit12,
        bit13: old.bit11,
        bit12: old.bit10,
        bit11: old.bit9,
        bit10: old.bit8,
        bit9: old.bit7,
        bit8: old.bit6,
        bit7: old.bit5,
        bit6: old.bit4,
        bit5: old.bit3,
        bit4: old.bit2,
        bit3: old.bit1,
        bit2: old.bit0,
        bit1: old.c, // C comes in
        bit0: old.o, // O comes in, one place lower than C
        c: old.bit15, // bit 15 goes to C
        o: old.bit14, // bit 14 goes to O
    })
}

// SLLC by one, opcodes $058 to $05B for R0 to R3.
pub(crate) fn sllc_once(f: Flagged) -> Flagged
    ensures { result ≡ sllc_once f }
{
    let old = bits::taken_apart(f);
    bits::with_sign(Bits {
        bit15: old.bit14, // from here on bits 14 to 0 move up one place
        bit14: old.bit13,
        bit13: old.bit12,
        bit12: old.bit11,
        bit11: old.bit10,
        bit10: old.bit9,
        bit9: old.bit8,
        bit8: old.bit7,
        bit7: old.bit6,
        bit6: old.bit5,
        bit5: old.bit4,
        bit4: old.bit3,
        bit3: old.bit2,
        bit2: old.bit1,
        bit1: old.bit0,
        bit0: ZERO, // 0 comes in
        c: old.bit15, // bit 15 goes to C
        o: old.o, // O takes O: it stays as it was
    })
}

// SLLC by two, opcodes $05C to $05F for R0 to R3.
pub(crate) fn sllc_twice(f: Flagged) -> Flagged
    ensures { result ≡ sllc_twice f }
{
    let old = bits::taken_apart(f);
    bits::with_sign(Bits {
        bit15: old.bit13, // from here on bits 13 to 0 move up two places
        bit14: old.bit12,
        bit13: old.bit11,
        bit12: old.bit10,
        bit11: old.bit9,
        bit10: old.bit8,
        bit9: old.bit7,
        bit8: old.bit6,
        bit7: old.bit5,
        bit6: old.bit4,
        bit5: old.bit3,
        bit4: old.bit2,
        bit3: old.bit1,
        bit2: old.bit0,
        bit1: ZERO, // 0 comes in
        bit0: ZERO, // 0 comes in
        c: old.bit15, // bit 15 goes to C
        o: old.bit14, // bit 14 goes to O
    })
}

// RRC by one, opcodes $070 to $073 for R0 to R3.
pub(crate) fn rrc_once(f: Flagged) -> Flagged
    ensures { result ≡ rrc_once f }
{
    let old = bits::taken_apart(f);
    bits::with_low_sign(Bits {
        bit15: old.c, // C comes in
        bit14: old.bit15, // from here on bits 15 to 1 move down one place
        bit13: old.bit14,
        bit12: old.bit13,
        bit11: old.bit12,
        bit10: old.bit11,
        bit9: old.bit10,
        bit8: old.bit9,
        bit7: old.bit8,
        bit6: old.bit7,
        bit5: old.bit6,
        bit4: old.bit5,
        bit3: old.bit4,
        bit2: old.bit3,
        bit1: old.bit2,
        bit0: old.bit1,
        c: old.bit0, // bit 0 goes to C
        o: old.o, // O takes O: it stays as it was
    })
}

// RRC by two, opcodes $074 to $077 for R0 to R3.
pub(crate) fn rrc_twice(f: Flagged) -> Flagged
    ensures { result ≡ rrc_twice f }
{
    let old = bits::taken_apart(f);
    bits::with_low_sign(Bits {
        bit15: old.o, // O comes in
        bit14: old.c, // C comes in, one place lower than O
        bit13: old.bit15, // from here on bits 15 to 2 move down two places
        bit12: old.bit14,
        bit11: old.bit13,
        bit10: old.bit12,
        bit9: old.bit11,
        bit8: old.bit10,
        bit7: old.bit9,
        bit6: old.bit8,
        bit5: old.bit7,
        bit4: old.bit6,
        bit3: old.bit5,
        bit2: old.bit4,
        bit1: old.bit3,
        bit0: old.bit2,
        c: old.bit0, // bit 0 goes to C
        o: old.bit1, // bit 1 goes to O
    })
}

// SARC by one, opcodes $078 to $07B for R0 to R3.
pub(crate) fn sarc_once(f: Flagged) -> Flagged
    ensures { result ≡ sarc_once f }
{
    let old = bits::taken_apart(f);
    bits::with_low_sign(Bits {
        bit15: old.bit15, // bit 15 stays
        bit14: old.bit15, // and again: from here on bits 15 to 1 move down one place
        bit13: old.bit14,
        bit12: old.bit13,
        bit11: old.bit12,
        bit10: old.bit11,
        bit9: old.bit10,
        bit8: old.bit9,
        bit7: old.bit8,
        bit6: old.bit7,
        bit5: old.bit6,
        bit4: old.bit5,
        bit3: old.bit4,
        bit2: old.bit3,
        bit1: old.bit2,
        bit0: old.bit1,
        c: old.bit0, // bit 0 goes to C
        o: old.o, // O takes O: it stays as it was
    })
}

// SARC by two, opcodes $07C to $07F for R0 to R3.
pub(crate) fn sarc_twice(f: Flagged) -> Flagged
    ensures { result ≡ sarc_twice f }
{
    let old = bits::taken_apart(f);
    bits::with_low_sign(Bits {
        bit15: old.bit15, // bit 15 stays
        bit14: old.bit15, // bit 15 again
        bit13: old.bit15, // and again: from here on bits 15 to 2 move down two places
        bit12: old.bit14,
        bit11: old.bit13,
        bit10: old.bit12,
        bit9: old.bit11,
        bit8: old.bit10,
        bit7: old.bit9,
        bit6: old.bit8,
        bit5: old.bit7,
        bit4: old.bit6,
        bit3: old.bit5,
        bit2: old.bit4,
        bit1: old.bit3,
        bit0: old.bit2,
        c: old.bit0, // bit 0 goes to C
        o: old.bit1, // bit 1 goes to O
    })
}
