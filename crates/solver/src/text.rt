// The text of a claim.
ghost use Rattle.std.specs.Prelude.{◌≡◌, ◌+◌, ◌*◌, ◌^◌, ◌<◌, ◌≤◌, pos, length};
ghost use Rattle.checker.specs.Kinds.{quantifier_of};
ghost use Rattle.checker.specs.Words.{claim_of};
ghost use Rattle.sentence.specs.Text.{text_of};
ghost use Rattle.sentence.specs.Lines.{node_lines, quantifier_lines, brackets, closing};
ghost use Rattle.solver.specs.Laid.{Laid, longest_line, opened_by};

use crate::kinds::{ALL_COUNTS, ALL_SETS, SOME_COUNT, SOME_SET};
use crate::lines::{put_node, put_quantifier};
use crate::pieces::put_one;
use crate::sinks::Sink;
use checker::Shape;

#[tactic(auto, unfolding(sentence::specs::Lines::node_lines))]
fn put_nodes<S: Sink>(words: &[i32], shape: Shape, sink: &mut S)
    requires { Laid words.now shape }
    ensures put { S.took sink.old (node_lines 0 (claim_of words.now).nodes) sink.new }
    ensures short { length (node_lines 0 (claim_of words.now).nodes) ≤ longest_line * shape.nodes }
{
    for i in 0..shape.nodes {
        put_node(words, i, sink);
    }
}

#[tactic(auto, unfolding(sentence::specs::Lines::quantifier_lines))]
fn put_quantifiers<S: Sink>(words: &[i32], shape: Shape, sink: &mut S)
    requires { Laid words.now shape }
    ensures put { S.took sink.old (quantifier_lines 0 (claim_of words.now).quantifiers) sink.new }
    ensures short { length (quantifier_lines 0 (claim_of words.now).quantifiers) ≤ longest_line * shape.quantifiers }
{
    let first = 3 * shape.nodes;
    for i in 0..shape.quantifiers {
        put_quantifier(sink, i, checker::word(words, first + i));
    }
}

// How many brackets the lines of a quantifier leave open.
#[tactic(auto, unfolding(checker::specs::Kinds::quantifier_of, checker::specs::Kinds::number))]
fn opened_by(kind: usize) -> usize
    ensures value { result ≡ opened_by (quantifier_of (pos kind)) }
    ensures upper_bound { result ≤ 2 }
{
    match kind {
        SOME_SET => 0,
        ALL_SETS => 0,
        SOME_COUNT => 2,
        ALL_COUNTS => 2,
        _ => 1,
    }
}

#[tactic(auto, using(crate::proofs::Steps::brackets_more), unfolding(sentence::specs::Lines::brackets))]
fn opened(words: &[i32], shape: Shape) -> usize
    requires { Laid words.now shape }
    ensures value { result ≡ brackets (claim_of words.now).quantifiers }
    ensures upper_bound { result ≤ 2 * shape.quantifiers }
{
    let first = 3 * shape.nodes;
    let mut open = 0;
    for i in 0..shape.quantifiers {
        open += opened_by(checker::word(words, first + i));
    }
    open
}

fn put_closing<S: Sink>(sink: &mut S, times: usize)
    ensures { S.took sink.old (closing times) sink.new }
{
    for _ in 0..times {
        sink.put(b")");
    }
}

// Behind the root close the brackets of the nodes, the quantifiers, and the two that the opening leaves.
pub fn put_text<S: Sink>(words: &[i32], shape: Shape, sink: &mut S)
    requires { Laid words.now shape }
    ensures put { S.took sink.old (text_of (claim_of words.now)) sink.new }
    ensures short { length (text_of (claim_of words.now)) < 2 ^ 64 }
{
    sink.put(b"(set-logic ALL)\n(declare-const MAXC Int)\n(assert (>= MAXC 0))\n(assert (not\n");
    put_quantifiers(words, shape, sink);
    put_nodes(words, shape, sink);
    put_one(sink, b"n", shape.root as u64, b"\n");
    put_closing(sink, shape.nodes + opened(words, shape) + 2);
    sink.put(b"\n(check-sat)\n");
}
