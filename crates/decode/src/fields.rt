// Fields of operand words and of branches, where code takes them apart: step, disassembler and all else that decodes share them.
ghost use Rattle.std.specs.Prelude.{◌≡◌};
ghost use Rattle.decode.specs.Fields.{joined, branch_target, is_always, is_nopp, return_of, has_return, jump_target};

// The low bytes of two words, low half first.
#[tactic(auto, unfolding(crate::specs::Fields::joined))]
pub fn join(low: u16, high: u16) -> u16
    ensures { result ≡ joined low high }
{
    low % 256 + high % 256 * 256
}

// Bit 5 of a branch is its direction.
#[tactic(auto, using(std::proofs::lemmas::Bool::Decides::nat_tests), unfolding(crate::specs::Fields::branch_target))]
pub fn branch_target(at: u16, b: u16, displacement: u16) -> u16
    ensures { result ≡ branch_target at b displacement }
{
    let backward = b / 32 % 2 == 1;
    if backward {
        word::wrapping_sub(word::wrapping_add(at, 1), displacement)
    } else {
        word::wrapping_add(word::wrapping_add(at, 2), displacement)
    }
}

// B, forward and backward. (This and NOPP are two tests by the names of the table: one that is given the number would say neither.)
pub fn is_always(b: u16) -> bool
    ensures { result ≡ is_always b }
{
    b % 32 == 0
}

// NOPP is the negation of B, forward and backward.
pub fn is_nopp(b: u16) -> bool
    ensures { result ≡ is_nopp b }
{
    b % 32 == 8
}

// A jump that saves its return address in R4, R5 or R6, by its second word: a JSR.
#[tactic(auto, using(std::proofs::lemmas::Bool::Decides::nat_tests), unfolding(crate::specs::Fields::return_of))]
pub fn has_return(second: u16) -> bool
    ensures { result ≡ has_return (return_of second) }
{
    second / 256 % 4 < 3
}

// Where a jump goes, by its second and third word.
#[tactic(auto, unfolding(crate::specs::Fields::jump_target))]
pub fn jump_target(second: u16, third: u16) -> u16
    ensures { result ≡ jump_target second third }
{
    second / 4 % 64 * 1024 + third % 1024
}
