// Text to text: everything that the program `smt` prints.

#![tactic(auto)]

ghost use Rattle.std.specs.Prelude.{◌≡◌};
ghost use Rattle.checker.specs.declared.Dialect.TheVariants.{Emitted};
ghost use Rattle.checker.specs.Words.{claim_of};
ghost use Rattle.checker.specs.Check.{check_as};
ghost use Rattle.checker.specs.Accepted.{claim_shape};
ghost use Rattle.text.specs.Answer.{Printed};
ghost use Rattle.smt_text.specs.Answer.{smt_text};
ghost use Rattle.smt_text.specs.Lent.{fitted_text, fitted_words};

// The writer takes every emission. Of words of 32 bits none has a text longer than the lent bytes, so that it refuses none either.
fn put_text(words: &[i32], out: &mut [u8; 393216]) -> usize
    requires { check_as Emitted words.now ≡ Ok (claim_shape (claim_of words.now)) }
    ensures { Printed out.old (fitted_text (claim_of words.now)) out.new result }
{
    match solver::write_text(words, out) {
        Ok(n) => n,
        Err(r) => text::put_refusal(out, r.number(), r.place()),
    }
}

#[tactic(auto, using(crate::proofs::Taken::taken), unfolding(crate::specs::Lent::fitted_words, crate::specs::Lent::fitted_reduced))]
fn smt_words(words: &[i32], out: &mut [u8; 393216]) -> usize
    ensures { Printed out.old (fitted_words words.now) out.new result }
{
    let mut emission = [0i32; 16384];
    match reducer::reduce(words, &mut emission) {
        Ok(n) => put_text(&emission[..n], out),
        Err(refusal) => text::put_refusal(out, refusal.number(), refusal.place()),
    }
}

#[tactic(auto, using(text::proofs::Answers::readings), unfolding(crate::specs::Answer::smt_text))]
pub fn answer_smt(input: &[u8], out: &mut [u8; 393216]) -> usize
    ensures { Printed out.old (smt_text input.now) out.new result }
{
    let mut words = [0i32; 4096];
    let Some(count) = text::read_input(input, &mut words) else {
        return text::put_unread(out);
    };
    smt_words(&words[..count], out)
}
