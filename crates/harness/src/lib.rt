// What the programs that run cases share: the rows of text in which cases are written, the boards that they name, the count of cases,
// and memories and states compared.
#![tactic(auto)]

pub mod answer;
pub mod bytes;
pub mod case;
pub mod cases;
pub mod fields;
pub mod findings;
pub mod form;
pub mod machine;
pub mod map;
pub mod tally;
pub mod text;
pub mod words;

// (A program whose rows are no cases reads its input by this, as `cases::run` does.)
pub use input;
