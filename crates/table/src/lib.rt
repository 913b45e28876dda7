// The table's words: their places, and what they are read as: kinds and rows. Every public function answers for every list of words; what is read
// past the end is 0.
#![tactic(auto)]

mod kinds;
mod places;
mod rows;
mod words;

pub use kinds::{
    difference_of, dimensionless, dims_of, duration, grade_of, is_point, is_resolved, kind_count,
    rate_of, target_of, time,
};
pub use places::{
    DIFFERENCE, FLAG, GRADE, Head, KIND, KINDS, Marks, RATE, ROLE, ROW, ROWS, TARGET, head_words,
    mark_words, op_word,
};
pub use rows::{own_rows, row_of};
pub use words::{Exponents, dims_in, exponent, index_or, word, words_of};
