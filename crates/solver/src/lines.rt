// The lines of a node and of a quantifier.

ghost use Rattle.std.specs.Prelude.{◌+◌, ◌*◌, ◌≤◌, pos, length};
ghost use Rattle.checker.specs.Kinds.{quantifier_of};
ghost use Rattle.checker.specs.Words.{node_at};
ghost use Rattle.sentence.specs.Lines.{node_line, quantifier_line};
ghost use Rattle.solver.specs.Laid.{Ten, longest_line};

use crate::expression::put_expression;
use crate::kinds::{ALL_COUNTS, ALL_INTEGERS, ALL_SETS, SOME_COUNT, SOME_SET};
use crate::pieces::{put_count, put_one};
use crate::sinks::Sink;

// The line of node i of a table.
pub fn put_node<S: Sink>(words: &[i32], i: usize, sink: &mut S)
    requires { 3 * i + 3 ≤ length words.now }
    ensures put { S.took sink.old (node_line i (node_at words.now i)) sink.new }
    ensures short { Ten i → length (node_line i (node_at words.now i)) ≤ longest_line }
{
    put_one(sink, b"(let ((n", i as u64, b" ");
    put_expression(
        sink,
        checker::word(words, 3 * i),
        words[3 * i + 1],
        words[3 * i + 2],
    );
    sink.put(b"))\n");
}

// The lines of quantifier i. One over sets has none, and the checker refuses it.
#[tactic(auto, using(crate::proofs::Short::quantifier_short), unfolding(checker::specs::Kinds::quantifier_of, checker::specs::Kinds::number, sentence::specs::Lines::quantifier_line, sentence::specs::Text::quantify_line, sentence::specs::Text::name_text))]
pub fn put_quantifier<S: Sink>(sink: &mut S, i: usize, kind: usize)
    ensures put { S.took sink.old (quantifier_line i (quantifier_of (pos kind))) sink.new }
    ensures short { Ten i → length (quantifier_line i (quantifier_of (pos kind))) ≤ longest_line }
{
    let n = i as u64;
    match kind {
        ALL_INTEGERS => put_one(sink, b"(forall ((q", n, b" Int))\n"),
        SOME_SET => (),
        ALL_SETS => (),
        SOME_COUNT => put_count(sink, b"(exists ((q", b"(and (>= q", n),
        ALL_COUNTS => put_count(sink, b"(forall ((q", b"(=> (>= q", n),
        _ => put_one(sink, b"(exists ((q", n, b" Int))\n"),
    }
}
