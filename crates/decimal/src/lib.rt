// Decimal numbers in text: read out of a text, and put into one.

#![tactic(auto)]

mod print; // numbers, words and lines put into a text
mod read; // numbers and words read out of a text

pub use print::{put_decimal, put_line, put_word};
pub use read::{read_number, read_words};
