// The expression of a node.

#![tactic(auto, unfolding(checker::specs::Kinds::node_of, checker::specs::Kinds::number, checker::specs::Words::word_at, sentence::specs::Text::expr_text, sentence::specs::Text::name_text))]

ghost use Rattle.std.specs.Prelude.{◌≡◌, pos};
ghost use Rattle.checker.specs.Kinds.{number, node_of};
ghost use Rattle.sentence.specs.Sentences.{whole_number, expr_of};
ghost use Rattle.sentence.specs.Text.{expr_text};
ghost use Rattle.solver.specs.Pieces.{multiple_text, divided_text};

use crate::kinds::{
    AND, CONSTANT, DIFFERENCE, DIVIDES, EQUAL, LESS, MAXC, MULTIPLE, NOT, NUMBER, OR, SUM,
};
use crate::pieces::{put_one, put_pair, put_two};
use crate::sinks::Sink;

// A word as the checker reads it.
fn number(w: i32) -> u64
    ensures { result ≡ number w }
{
    checker::word(&[w], 0) as u64
}

fn put_constant<S: Sink>(sink: &mut S, w: i32)
    ensures { S.took sink.old (expr_text (whole_number w)) sink.new }
{
    let n = u64::from(w.unsigned_abs());
    if w < 0 {
        put_one(sink, b"(- ", n, b")");
    } else {
        sink.put_number(n);
    }
}

fn put_multiple<S: Sink>(sink: &mut S, w: i32, b: u64)
    ensures { S.took sink.old (multiple_text w b) sink.new }
{
    let n = u64::from(w.unsigned_abs());
    if w < 0 {
        put_two(sink, b"(* (- ", n, b") n", b, b")");
    } else {
        put_two(sink, b"(* ", n, b" n", b, b")");
    }
}

// A divisor is written without its sign, which the side of the 0 keeps.
fn put_divided<S: Sink>(sink: &mut S, w: i32, b: u64)
    ensures { S.took sink.old (divided_text w b) sink.new }
{
    let n = u64::from(w.unsigned_abs());
    if n == 0 {
        put_one(sink, b"(and false (= n", b, b" 0))");
    } else if w < 0 {
        put_two(sink, b"(= 0 (mod n", b, b" ", n, b"))");
    } else {
        put_two(sink, b"(= (mod n", b, b" ", n, b") 0)");
    }
}

// A kind that has no text of its own is written as `false`; the checker refuses it.
pub fn put_expression<S: Sink>(sink: &mut S, kind: usize, a: i32, b: i32)
    ensures { S.took sink.old (expr_text (expr_of (node_of (pos kind) a b))) sink.new }
{
    let x = number(a);
    let y = number(b);
    match kind {
        NUMBER => put_one(sink, b"q", x, b""),
        CONSTANT => put_constant(sink, a),
        MAXC => sink.put(b"MAXC"),
        SUM => put_pair(sink, b"(+ n", x, y),
        DIFFERENCE => put_pair(sink, b"(- n", x, y),
        MULTIPLE => put_multiple(sink, a, y),
        EQUAL => put_pair(sink, b"(= n", x, y),
        LESS => put_pair(sink, b"(< n", x, y),
        DIVIDES => put_divided(sink, a, y),
        AND => put_pair(sink, b"(and n", x, y),
        OR => put_pair(sink, b"(or n", x, y),
        NOT => put_one(sink, b"(not n", x, b")"),
        _ => sink.put(b"false"),
    }
}
