// A text in a lent room: its pieces are put one behind the other.
ghost use Rattle.std.specs.Prelude.{[], ◌∷◌, ◌++◌, ◌<◌, ◌+◌, length};
ghost use Rattle.refusal.specs.Refusals.{refusal_number};
ghost use Rattle.text.specs.Text.{hex_of};
ghost use Rattle.report.specs.Text.{space, decimal_text, line_text};
ghost use Rattle.report.specs.Program.{refused_line};
ghost use Rattle.report.specs.Inner.Page.{HasRoom, Writes};

use refusal::Refusal;

// The room, how far it is filled, and how many lines of records are in it.
#[derive(Drop)]
pub(crate) struct Page<'a> {
    pub room: &'a mut [u8],
    pub at: usize,
    pub lines: usize,
}

pub(crate) const SPACE: u8 = b' ';

const LINE_FEED: u8 = b'\n';

impl<'a> Page<'a> {
    pub(crate) fn push(&mut self, byte: u8)
        requires { HasRoom self.old 1 }
        ensures { Writes self.old (byte ∷ []) self.new }
    {
        self.room[self.at] = byte;
        self.at += 1;
    }

    pub(crate) fn push_bytes(&mut self, bytes: &[u8])
        requires { HasRoom self.old (length bytes.now) }
        ensures { Writes self.old bytes.now self.new }
    {
        let end = self.at + bytes.len();
        self.room[self.at..end].copy_from_slice(bytes);
        self.at = end;
    }

    // A number as four hexadecimal digits.
    pub(crate) fn push_hex(&mut self, word: u16)
        requires { HasRoom self.old 4 }
        ensures { Writes self.old (hex_of word) self.new }
    {
        self.push_bytes(&text::hex(word));
    }

    // A number and the space behind it.
    #[tactic(auto, using(crate::proofs::LengthLaws::hex_length))]
    pub(crate) fn push_field(&mut self, word: u16)
        requires { HasRoom self.old 5 }
        ensures { Writes self.old (hex_of word ++ (space ∷ [])) self.new }
    {
        self.push_hex(word);
        self.push(SPACE);
    }

    // A number of one decimal digit or two. No `write!`, which would ask for an answer to an error that a page with room cannot have.
    fn push_decimal(&mut self, number: u16)
        requires { (number < 100) × HasRoom self.old 2 }
        ensures { Writes self.old (decimal_text number) self.new }
    {
        if number < 10 {
            self.push(b'0' + number as u8);
        } else {
            self.push(b'0' + (number / 10) as u8);
            self.push(b'0' + (number % 10) as u8);
        }
    }

    pub(crate) fn end_line(&mut self)
        requires { HasRoom self.old 1 }
        ensures { Writes self.old (line_text []) self.new }
    {
        self.push(LINE_FEED);
    }

    // All that is printed of an input that is refused.
    #[tactic(auto, using(crate::proofs::LengthLaws::decimal_length))]
    pub(crate) fn push_refusal(&mut self, refusal: Refusal)
        requires { HasRoom self.old 16 }
        ensures { Writes self.old (line_text (refused_line (refusal_number refusal))) self.new }
    {
        self.push_bytes(b"REFUSED ");
        self.push_decimal(refusal::number(refusal));
        self.end_line();
    }

    // A line with a number: the first one and the last.
    #[tactic(auto, using(crate::proofs::LengthLaws::hex_length))]
    pub(crate) fn push_numbered(&mut self, name: &[u8], number: u16)
        requires { HasRoom self.old (length name.now + 5) }
        ensures { Writes self.old (line_text (name.now ++ hex_of number)) self.new }
    {
        self.push_bytes(name);
        self.push_hex(number);
        self.end_line();
    }
}
