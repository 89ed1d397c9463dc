// The writer: a claim without sets, as the reducer emits it, as text for a solver.

#![tactic(auto)]

ghost use Rattle.std.specs.Prelude.{◌≡◌, ◌≤◌, length};
ghost use Rattle.checker.specs.Words.{claim_of};
ghost use Rattle.lent.specs.Write.{Wrote};
ghost use Rattle.sentence.specs.Text.{text_of};
ghost use Rattle.solver.specs.Laid.{Laid};
ghost use Rattle.solver.specs.Written.{fitted, written_of, held_after, out_after};

use checker::{Dialect, Refusal, Shape};
use sinks::{Length, Text};

mod expression; // the expression of a node
mod kinds; // kinds by name
mod lines; // the lines of a node and of a quantifier
mod pieces; // bytes with numbers between them
mod sinks; // where the text goes
mod text; // the text of a claim

pub use sinks::Sink;
pub use text::put_text;

// How long the text is.
fn text_length(words: &[i32], shape: Shape) -> usize
    requires { Laid words.now shape }
    ensures { result ≡ length (text_of (claim_of words.now)) }
{
    let mut text = Length { length: 0 };
    put_text(words, shape, &mut text);
    text.length
}

// The text from the start of `out` on, if it has room there, and how long it is.
fn text_into(words: &[i32], shape: Shape, out: &mut [u8]) -> usize
    requires { Laid words.now shape }
    ensures length { result ≡ length (text_of (claim_of words.now)) }
    ensures written { length (text_of (claim_of words.now)) ≤ length out.old → Wrote out.old 0 (text_of (claim_of words.now)) out.new result }
{
    let mut text = Text { out, length: 0 };
    put_text(words, shape, &mut text);
    text.length
}

// The text is measured first, so that a refusal writes nothing.
#[tactic(auto, using(lent::proofs::Writing::wrote_front), unfolding(crate::specs::Written::fitted, crate::specs::Written::held_after))]
fn write_claim(words: &[i32], shape: Shape, out: &mut [u8]) -> Result<usize, Refusal>
    requires { Laid words.now shape }
    ensures value { result ≡ fitted (length out.old) (claim_of words.now) }
    ensures out_after { out.new ≡ held_after result (claim_of words.now) out.old }
{
    let needed = text_length(words, shape);
    if out.len() < needed {
        return Err(Refusal::TooShort(needed));
    }
    Ok(text_into(words, shape, out))
}

// Writes the text of an emitted claim from the start of `out` on, and says how many bytes that takes.
#[tactic(auto, using(crate::proofs::Answers::laid), unfolding(crate::specs::Written::written_of, crate::specs::Written::answer, crate::specs::Written::out_after, crate::specs::Written::held_after))]
pub fn write_text(words: &[i32], out: &mut [u8]) -> Result<usize, Refusal>
    ensures value { result ≡ written_of words.now (length out.old) }
    ensures out_after { out.new ≡ out_after words.now out.old }
{
    let shape = checker::check_as(words, Dialect::Emitted)?;
    write_claim(words, shape, out)
}
