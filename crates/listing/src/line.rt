// A line as its row and fields, and its bytes: a row's template with each small letter replaced by what it stands for.
#![tactic(auto, using(std::proofs::lemmas::Bool::Decides::nat_tests), unfolding(crate::specs::Inner::Line::sign_of, crate::specs::Inner::Line::field_of, crate::specs::Inner::Line::glyph_of))]

ghost use Rattle.std.specs.Prelude.{◌≡◌, ◌++◌, ◌%◌, ◌<◌, ◌≤◌, length, drop};
ghost use Rattle.text.specs.Text.{same_text};
ghost use Rattle.listing.specs.Inner.Line.{sign_of, field_of, glyph_of, text_of};
ghost use Rattle.listing.specs.Inner.Rows.{template_of, OfRegisters};

use crate::rows;

// A row of the table with the fields s and d and the operand. A field that the row does not show is 0.
// (That the row is one of the table's is asked where it is looked up, and is no invariant of the type: the definitions of specs/ make lines of any
// number, and their lines are this type's. The fields s and d with the operand are the line itself, so that no struct is left to make of them.)
#[derive(Clone, Copy)]
pub(crate) struct Line {
    pub row: usize,
    pub s: u16,
    pub d: u16,
    pub operand: u16,
}

// A branch is forward where s, which has the opcode's bit 5, is 0.
fn sign(s: u16) -> u8
    ensures { result ≡ sign_of s }
{
    if s == 0 { b'+' } else { b'-' }
}

// Where the digits of s and d stand in a line of two registers, "NAME Rs,Rd". No other row's template has an s there.
const SOURCE: usize = 6;

const TARGET: usize = 9;

impl Line {
    // What a letter of a template stands for: the low four bits are its digit.
    fn field(&self, letter: u8) -> u16
        ensures { result % 16 ≡ field_of self.now letter }
    {
        match letter {
            b's' => self.s,
            b'd' => self.d,
            b'w' => self.operand / 4096,
            b'x' => self.operand / 256,
            b'y' => self.operand / 16,
            _ => self.operand,
        }
    }

    // The byte that a symbol of a template stands for: what is no small letter stands for itself.
    fn glyph(&self, symbol: u8) -> u8
        ensures { result ≡ glyph_of self.now symbol }
    {
        if symbol < b'a' {
            symbol
        } else if symbol == b'g' {
            sign(self.s)
        } else {
            text::hex_digit(self.field(symbol))
        }
    }

    // Writes a line of two registers.
    fn write_registers(&self, text: &mut [u8], template: &[u8])
        requires { (template.now ≡ template_of self.now.row) × (self.now.row < 86) × OfRegisters self.now.row × (14 ≤ length text.old) }
        ensures { text.new ≡ text_of self.now ++ drop (length (text_of self.now)) text.old }
    {
        text[..=TARGET].copy_from_slice(&template[..=TARGET]);
        text[SOURCE] = text::hex_digit(self.s);
        text[TARGET] = text::hex_digit(self.d);
    }

    // Writes the line and returns its length. Two of three opcodes are of two registers, so these go first. (By index into the room: of what an
    // adapter over `iter_mut` has written a proof knows the length alone.)
    pub(crate) fn write(&self, text: &mut [u8]) -> usize
        requires { (self.now.row < 86) × (14 ≤ length text.old) }
        ensures { (result ≡ length (text_of self.now)) × (text.new ≡ text_of self.now ++ drop (length (text_of self.now)) text.old) }
    {
        let template = rows::row_at(self.row).template;
        if SOURCE < template.len() && template[SOURCE] == b's' {
            self.write_registers(text, template);
        } else {
            for (i, symbol) in template.iter().enumerate() {
                text[i] = self.glyph(*symbol);
            }
        }
        template.len()
    }

    // Whether a text is the line.
    pub(crate) fn spells(&self, text: &[u8]) -> bool
        requires { self.now.row < 86 }
        ensures { result ≡ same_text (text_of self.now) text.now }
    {
        let mut own = [0; 14];
        let length = self.write(&mut own);
        &own[..length] == text
    }
}
