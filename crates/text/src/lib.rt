// Text to text: everything that the programs print.

#![tactic(auto)]

ghost use Rattle.std.specs.Prelude.{◌≡◌};
ghost use Rattle.decimal.specs.Reading.{scanned_of, onto};
ghost use Rattle.text.specs.Answer.{input_words, answered, reduce_words, reduce_text, decide_words, decide_text, Printed};

use decider::Decision;

mod lines; // the lines of a table, an outcome and a refusal

pub use lines::{put_refusal, put_unread};

const MAX_BYTES: usize = 65535;

const LARGEST_SIZE: u64 = u32::MAX as u64;

const LARGEST_ALLOWANCE: u64 = u64::MAX;

// The words of an input text, put into `words`, and how many they are; `None` if the text is too long or holds something else.
pub fn read_input(input: &[u8], words: &mut [i32; 4096]) -> Option<usize>
    ensures value { result ≡ scanned_of (input_words input.now) }
    ensures words_after { words.new ≡ onto words.old (input_words input.now) }
{
    if MAX_BYTES < input.len() {
        return None;
    }
    decimal::read_words(input, words)
}

#[tactic(auto, using(crate::proofs::Emissions::emissions), unfolding(crate::specs::Answer::reduce_words, crate::specs::Answer::reduced_text))]
fn reduce_words(words: &[i32], out: &mut [u8; 196608]) -> usize
    ensures { Printed out.old (reduce_words words.now) out.new result }
{
    let mut emission = [0i32; 16384];
    match reducer::reduce(words, &mut emission) {
        Ok(n) => lines::put_table(out, &emission[..n]),
        Err(r) => lines::put_refusal(out, r.number(), r.place()),
    }
}

#[tactic(auto, using(crate::proofs::Answers::readings), unfolding(crate::specs::Answer::reduce_text))]
pub fn answer_reduce(input: &[u8], out: &mut [u8; 196608]) -> usize
    ensures { Printed out.old (reduce_text input.now) out.new result }
{
    // An array and its length: no heap, a rule of the project.
    let mut words = [0i32; 4096];
    let Some(count) = read_input(input, &mut words) else {
        return lines::put_unread(out);
    };
    reduce_words(&words[..count], out)
}

#[tactic(auto, unfolding(crate::specs::Answer::decide_words, crate::specs::Answer::decision_text))]
fn decide_words(words: &[i32], size: u32, allowance: u64, out: &mut [u8; 64]) -> usize
    ensures { Printed out.old (decide_words size allowance words.now) out.new result }
{
    match decider::decide(words, size, allowance) {
        Ok(Decision::True(steps)) => lines::put_steps(out, b"true ", steps),
        Ok(Decision::False(steps)) => lines::put_steps(out, b"false ", steps),
        Ok(Decision::Spent(steps)) => lines::put_steps(out, b"spent ", steps),
        Err(r) => lines::put_refusal(out, r.number(), r.place()),
    }
}

// Reads as `answer_reduce` and `answer_smt` do: one function for the three would have to be given, as a closure with a contract of its own, what
// the words are answered with, and that is longer.
#[tactic(auto, using(crate::proofs::Answers::readings))]
fn decide_input(input: &[u8], size: u32, allowance: u64, out: &mut [u8; 64]) -> usize
    ensures { Printed out.old (answered (decide_words size allowance) (input_words input.now)) out.new result }
{
    let mut words = [0i32; 4096];
    let Some(count) = read_input(input, &mut words) else {
        return lines::put_unread(out);
    };
    decide_words(&words[..count], size, allowance, out)
}

#[tactic(auto, using(decimal::proofs::Numbers::number_within), unfolding(crate::specs::Answer::decide_text, crate::specs::Answer::decide_numbers))]
pub fn answer_decide(size: &[u8], allowance: &[u8], input: &[u8], out: &mut [u8; 64]) -> usize
    ensures { Printed out.old (decide_text size.now allowance.now input.now) out.new result }
{
    let Some(n) = decimal::read_number(size, LARGEST_SIZE) else {
        return lines::put_unread(out);
    };
    // Not read where the size is none: it may be long.
    let Some(steps) = decimal::read_number(allowance, LARGEST_ALLOWANCE) else {
        return lines::put_unread(out);
    };
    decide_input(input, n as u32, steps, out)
}
