// The reader of solver texts: the words of the claim that a text was written from. It scans the text into words, and then lets the writer say
// whether it takes them and would have written this text.

#![tactic(auto)]

ghost use Rattle.std.specs.Prelude.{◌≡◌, map, ◌≤◌, length};
ghost use Rattle.checker.specs.Words.{words_of};
ghost use Rattle.sentence.specs.Scan.{scan};
ghost use Rattle.reader.specs.Held.{held};
ghost use Rattle.reader.specs.Runs.{limits, most_words};
ghost use Rattle.reader.specs.Answer.{writes, read_of, out_after};

use checker::names::{MAX_EMITTED_NODES, MAX_EMITTED_QUANTIFIERS};
use checker::{Dialect, Refusal};

mod same; // a text held against what the writer would write
mod table; // the words of the claim that a text is scanned as

// The words of the largest claim that the writer takes.
const MOST_WORDS: usize = 3 * MAX_EMITTED_NODES + MAX_EMITTED_QUANTIFIERS + 4;

// Whether the writer takes these words, and writes this text.
#[tactic(auto, using(solver::proofs::Answers::laid), unfolding(crate::specs::Answer::writes))]
fn written(text: &[u8], words: &[i32]) -> bool
    ensures { result ≡ writes words.now text.now }
{
    match checker::check_as(words, Dialect::Emitted) {
        Ok(shape) => same::same_text(text, words, shape),
        Err(_) => false,
    }
}

// What the words that the text was scanned as come to. 21 is tested before 8.
#[tactic(auto, using(crate::proofs::Answers::answered_21, crate::proofs::Answers::answered_8, crate::proofs::Answers::answered, crate::proofs::Answers::words_are, lent::proofs::Writing::wrote_front), unfolding(crate::specs::Answer::out_after, crate::specs::Answer::held_after))]
fn answer(text: &[u8], words: &[i32], out: &mut [i32]) -> Result<usize, Refusal>
    requires { words.now ≡ map held (words_of (scan limits text.now)) }
    ensures value { result ≡ read_of text.now (length out.old) }
    ensures out_after { out.new ≡ out_after text.now out.old }
{
    if !written(text, words) {
        return Err(Refusal::Unwritten);
    }
    let needed = words.len();
    if out.len() < needed {
        return Err(Refusal::TooShort(needed));
    }
    Ok(lent::put_all(out, 0, words))
}

// Scans into the words lent, which hold the largest claim, so that `out` is touched by an answer alone.
fn read_by(text: &[u8], words: &mut [i32], out: &mut [i32]) -> Result<usize, Refusal>
    requires { most_words ≤ length words.old }
    ensures value { result ≡ read_of text.now (length out.old) }
    ensures out_after { out.new ≡ out_after text.now out.old }
{
    let n = table::put_words(text, words);
    answer(text, &words[..n], out)
}

// The words of the claim that has this text, put from the start of `out` on. How many they are.
pub fn read_text(text: &[u8], out: &mut [i32]) -> Result<usize, Refusal>
    ensures value { result ≡ read_of text.now (length out.old) }
    ensures out_after { out.new ≡ out_after text.now out.old }
{
    let mut words = [0i32; MOST_WORDS];
    read_by(text, &mut words, out)
}
