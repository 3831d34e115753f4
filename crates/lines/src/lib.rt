// The text of a case, as the program that runs the cases reads it: a question's word (crates/case_words), its numbers in
// decimal, and its image in hexadecimal (crates/case_bytes), each after one space. Here: digits, spaces and numbers, and
// where a byte stands. What each part reads: specs/.
//
// A text goes with a place in it, and not as the rest that stands there: one may ask of a place past the text's end, where
// nothing stands, and of the places after one that is still to be tried.
#![tactic(auto)]

pub mod digits;
pub mod numbers;
pub mod places;
