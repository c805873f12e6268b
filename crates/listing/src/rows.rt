// The table of listing lines: one row for each name and form of its operands. Both directions read it.
ghost use Rattle.std.specs.Prelude.{◌≡◌, ◌<◌};
ghost use Rattle.listing.specs.Inner.Rows.{template_of, base_of};

// A row's line, and its opcode where s and d are 0. In a template a small letter stands for a digit of s, d or the operand (w x y z), and
// g for the sign of a branch.
#[derive(Clone, Copy)]
pub(crate) struct TableRow {
    pub template: &'static [u8],
    pub base: u16,
}

#[rattlefmt::skip]
static ROWS: [TableRow; 86] = [
    TableRow { template: b"HLT", base: 0x000 },
    TableRow { template: b"SDBD", base: 0x001 },
    TableRow { template: b"EIS", base: 0x002 },
    TableRow { template: b"DIS", base: 0x003 },
    TableRow { template: b"TCI", base: 0x005 },
    TableRow { template: b"CLRC", base: 0x006 },
    TableRow { template: b"SETC", base: 0x007 },
    TableRow { template: b"INCR Rd", base: 0x008 },
    TableRow { template: b"DECR Rd", base: 0x010 },
    TableRow { template: b"COMR Rd", base: 0x018 },
    TableRow { template: b"NEGR Rd", base: 0x020 },
    TableRow { template: b"ADCR Rd", base: 0x028 },
    TableRow { template: b"GSWD Rd", base: 0x030 },
    TableRow { template: b"RSWD Rd", base: 0x038 },
    TableRow { template: b"NOP", base: 0x034 },
    TableRow { template: b"NOP 2", base: 0x035 },
    TableRow { template: b"SIN", base: 0x036 },
    TableRow { template: b"SIN 2", base: 0x037 },
    TableRow { template: b"SWAP Rd", base: 0x040 },
    TableRow { template: b"SWAP Rd,2", base: 0x044 },
    TableRow { template: b"SLL Rd", base: 0x048 },
    TableRow { template: b"SLL Rd,2", base: 0x04C },
    TableRow { template: b"RLC Rd", base: 0x050 },
    TableRow { template: b"RLC Rd,2", base: 0x054 },
    TableRow { template: b"SLLC Rd", base: 0x058 },
    TableRow { template: b"SLLC Rd,2", base: 0x05C },
    TableRow { template: b"SLR Rd", base: 0x060 },
    TableRow { template: b"SLR Rd,2", base: 0x064 },
    TableRow { template: b"SAR Rd", base: 0x068 },
    TableRow { template: b"SAR Rd,2", base: 0x06C },
    TableRow { template: b"RRC Rd", base: 0x070 },
    TableRow { template: b"RRC Rd,2", base: 0x074 },
    TableRow { template: b"SARC Rd", base: 0x078 },
    TableRow { template: b"SARC Rd,2", base: 0x07C },
    TableRow { template: b"MOVR Rs,Rd", base: 0x080 },
    TableRow { template: b"ADDR Rs,Rd", base: 0x0C0 },
    TableRow { template: b"SUBR Rs,Rd", base: 0x100 },
    TableRow { template: b"CMPR Rs,Rd", base: 0x140 },
    TableRow { template: b"ANDR Rs,Rd", base: 0x180 },
    TableRow { template: b"XORR Rs,Rd", base: 0x1C0 },
    TableRow { template: b"B g$wxyz", base: 0x200 },
    TableRow { template: b"BC g$wxyz", base: 0x201 },
    TableRow { template: b"BOV g$wxyz", base: 0x202 },
    TableRow { template: b"BPL g$wxyz", base: 0x203 },
    TableRow { template: b"BEQ g$wxyz", base: 0x204 },
    TableRow { template: b"BLT g$wxyz", base: 0x205 },
    TableRow { template: b"BLE g$wxyz", base: 0x206 },
    TableRow { template: b"BUSC g$wxyz", base: 0x207 },
    TableRow { template: b"NOPP g$wxyz", base: 0x208 },
    TableRow { template: b"BNC g$wxyz", base: 0x209 },
    TableRow { template: b"BNOV g$wxyz", base: 0x20A },
    TableRow { template: b"BMI g$wxyz", base: 0x20B },
    TableRow { template: b"BNEQ g$wxyz", base: 0x20C },
    TableRow { template: b"BGE g$wxyz", base: 0x20D },
    TableRow { template: b"BGT g$wxyz", base: 0x20E },
    TableRow { template: b"BESC g$wxyz", base: 0x20F },
    TableRow { template: b"BEXT d,g$wxyz", base: 0x210 },
    TableRow { template: b"BEXT 1d,g$wxyz", base: 0x21A },
    TableRow { template: b"MVO Rd,$wxyz", base: 0x240 },
    TableRow { template: b"MVO@ Rd,Rs", base: 0x240 },
    TableRow { template: b"MVOI Rd,#$wxyz", base: 0x278 },
    TableRow { template: b"MVI $wxyz,Rd", base: 0x280 },
    TableRow { template: b"MVI@ Rs,Rd", base: 0x280 },
    TableRow { template: b"MVII #$wxyz,Rd", base: 0x2B8 },
    TableRow { template: b"ADD $wxyz,Rd", base: 0x2C0 },
    TableRow { template: b"ADD@ Rs,Rd", base: 0x2C0 },
    TableRow { template: b"ADDI #$wxyz,Rd", base: 0x2F8 },
    TableRow { template: b"SUB $wxyz,Rd", base: 0x300 },
    TableRow { template: b"SUB@ Rs,Rd", base: 0x300 },
    TableRow { template: b"SUBI #$wxyz,Rd", base: 0x338 },
    TableRow { template: b"CMP $wxyz,Rd", base: 0x340 },
    TableRow { template: b"CMP@ Rs,Rd", base: 0x340 },
    TableRow { template: b"CMPI #$wxyz,Rd", base: 0x378 },
    TableRow { template: b"AND $wxyz,Rd", base: 0x380 },
    TableRow { template: b"AND@ Rs,Rd", base: 0x380 },
    TableRow { template: b"ANDI #$wxyz,Rd", base: 0x3B8 },
    TableRow { template: b"XOR $wxyz,Rd", base: 0x3C0 },
    TableRow { template: b"XOR@ Rs,Rd", base: 0x3C0 },
    TableRow { template: b"XORI #$wxyz,Rd", base: 0x3F8 },
    TableRow { template: b"J $wxyz", base: 0x004 },
    TableRow { template: b"JE $wxyz", base: 0x004 },
    TableRow { template: b"JD $wxyz", base: 0x004 },
    TableRow { template: b"JSR Rd,$wxyz", base: 0x004 },
    TableRow { template: b"JSRE Rd,$wxyz", base: 0x004 },
    TableRow { template: b"JSRD Rd,$wxyz", base: 0x004 },
    TableRow { template: b"DECLE $0004", base: 0x004 },
];

// The rows that code names, by their places in the table. A name that has more rows stands for the first of them: a shift's for that by one
// place, NOP and SIN for that without a number, BEXT for that of one digit, MVO and the reads for the direct one, which has the one through
// a register and the immediate one behind it. (Numbers and no enum: families of rows are counted from their first, which an enum would have to take back.)
#[rattlefmt::skip]
pub(crate) mod names {
    pub(crate) const HLT: usize = 0;
    pub(crate) const SDBD: usize = 1;
    pub(crate) const EIS: usize = 2;
    pub(crate) const DIS: usize = 3;
    pub(crate) const TCI: usize = 4;
    pub(crate) const CLRC: usize = 5;
    pub(crate) const SETC: usize = 6;
    pub(crate) const INCR: usize = 7;
    pub(crate) const DECR: usize = 8;
    pub(crate) const COMR: usize = 9;
    pub(crate) const NEGR: usize = 10;
    pub(crate) const ADCR: usize = 11;
    pub(crate) const GSWD: usize = 12;
    pub(crate) const RSWD: usize = 13;
    pub(crate) const NOP: usize = 14;
    pub(crate) const SIN: usize = 16;
    pub(crate) const SWAP: usize = 18;
    pub(crate) const SLL: usize = 20;
    pub(crate) const RLC: usize = 22;
    pub(crate) const SLR: usize = 26;
    pub(crate) const SAR: usize = 28;
    pub(crate) const RRC: usize = 30;
    pub(crate) const MOVR: usize = 34;
    pub(crate) const ADDR: usize = 35;
    pub(crate) const SUBR: usize = 36;
    pub(crate) const CMPR: usize = 37;
    pub(crate) const ANDR: usize = 38;
    pub(crate) const XORR: usize = 39;
    pub(crate) const B: usize = 40;
    pub(crate) const BC: usize = 41;
    pub(crate) const BOV: usize = 42;
    pub(crate) const BPL: usize = 43;
    pub(crate) const BEQ: usize = 44;
    pub(crate) const BLT: usize = 45;
    pub(crate) const BLE: usize = 46;
    pub(crate) const BUSC: usize = 47;
    pub(crate) const NOPP: usize = 48;
    pub(crate) const BNC: usize = 49;
    pub(crate) const BNOV: usize = 50;
    pub(crate) const BMI: usize = 51;
    pub(crate) const BNEQ: usize = 52;
    pub(crate) const BGE: usize = 53;
    pub(crate) const BGT: usize = 54;
    pub(crate) const BESC: usize = 55;
    pub(crate) const BEXT: usize = 56;
    pub(crate) const MVO: usize = 58;
    pub(crate) const MVI: usize = 61;
    pub(crate) const ADD: usize = 64;
    pub(crate) const SUB: usize = 67;
    pub(crate) const CMP: usize = 70;
    pub(crate) const AND: usize = 73;
    pub(crate) const XOR: usize = 76;
    pub(crate) const J: usize = 79;
    pub(crate) const JE: usize = 80;
    pub(crate) const JD: usize = 81;
    pub(crate) const JSR: usize = 82;
    pub(crate) const JSRE: usize = 83;
    pub(crate) const JSRD: usize = 84;
    pub(crate) const DECLE: usize = 85;
}

pub(crate) fn row_at(row: usize) -> &'static TableRow
    requires { row < 86 }
    ensures template { result.now.template.now ≡ template_of row }
    ensures base { result.now.base ≡ base_of row }
    ensures low { result.now.base < 1024 }
{
    &ROWS[row]
}
