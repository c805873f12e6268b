// Texts: the hexadecimal digits of numbers.
#![tactic(auto)]

ghost use Rattle.std.specs.Prelude.{◌≡◌, ◌%◌};
ghost use Rattle.text.specs.Text.{digit_of, hex_of, digit_value};

// The low four bits as a hexadecimal digit, in upper case.
#[tactic(auto, unfolding(crate::specs::Text::digit_of))]
pub fn hex_digit(value: u16) -> u8
    ensures { result ≡ digit_of (value % 16) }
{
    b"0123456789ABCDEF"[usize::from(value % 16)]
}

// A number as four digits.
#[tactic(auto, unfolding(crate::specs::Text::hex_of))]
pub fn hex(word: u16) -> [u8; 4]
    ensures { result ≡ hex_of word }
{
    [
        hex_digit(word / 4096),
        hex_digit(word / 256),
        hex_digit(word / 16),
        hex_digit(word),
    ]
}

// The value of a digit. Of a byte that is no digit any value below 16: who reads it prints what was read, and compares.
#[tactic(auto, using(std::proofs::lemmas::Bool::Decides::nat_tests), unfolding(crate::specs::Text::digit_value))]
pub fn digit_value(byte: u8) -> u16
    ensures { result ≡ digit_value byte }
{
    let code = u16::from(byte);
    if byte < b'A' {
        code % 16
    } else {
        (code + 9) % 16
    }
}
