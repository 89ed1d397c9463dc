// The lines of nodes and of quantifiers.

#![tactic(auto, unfolding(sentence::specs::Scan::line_from, sentence::specs::Scan::after_quantify, sentence::specs::Scan::after_guard, sentence::specs::Scan::quantifier_from))]

ghost use Rattle.std.specs.Prelude.{◌≡◌, ◌||◌};
ghost use Rattle.checker.specs.Words.{quantifier_word};
ghost use Rattle.sentence.specs.Scan.{is, line_from, after_quantify, after_guard, quantifier_from};
ghost use Rattle.scanner.specs.Finds.{most, Finds, fields_in};

use crate::expressions::expression;
use crate::numbers::{byte_is, number, past};
use crate::{Fields, Found};

// The kinds of 01 that a text has.
const SOME_INTEGER: i64 = 1;

const ALL_INTEGERS: i64 = 2;

const SOME_COUNT: i64 = 5;

const ALL_COUNTS: i64 = 6;

// (let ((n9 E))
pub fn node(text: &[u8]) -> Found<'_, Fields>
    ensures { Finds fields_in (line_from most text.now) result }
{
    let name = number(past(text, 8));
    expression(past(name.rest, 1)).past(3)
}

// Whether the text begins with a quantifier's line.
pub fn quantifies(text: &[u8]) -> bool
    ensures { result ≡ (is 1 "e" text.now || is 1 "f" text.now) }
{
    byte_is(text, 1, b'e') || byte_is(text, 1, b'f')
}

// Whether it begins with a line that says that a count is at least 0.
fn guards(text: &[u8]) -> bool
    ensures { result ≡ (is 1 "a" text.now || is 1 "=" text.now) }
{
    byte_is(text, 1, b'a') || byte_is(text, 1, b'=')
}

// (exists ((q7 Int)) or (forall ((q7 Int))
fn after_quantify(text: &[u8]) -> &[u8]
    ensures { result.now ≡ after_quantify most text.now }
{
    let name = number(past(text, 11));
    past(name.rest, 7)
}

// (and (>= q7 0) or (=> (>= q7 0)
fn after_guard(text: &[u8], some: bool) -> &[u8]
    ensures { result.now ≡ after_guard most some text.now }
{
    let name = number(past(text, if some { 10 } else { 9 }));
    past(name.rest, 4)
}

// The kind of the quantifier that a text begins with.
pub fn quantifier(text: &[u8]) -> Found<'_, i64>
    ensures { Finds quantifier_word (quantifier_from most text.now) result }
{
    let some = byte_is(text, 1, b'e');
    let next = after_quantify(text);
    if guards(next) {
        return Found {
            value: if some { SOME_COUNT } else { ALL_COUNTS },
            rest: after_guard(next, some),
        };
    }
    Found {
        value: if some { SOME_INTEGER } else { ALL_INTEGERS },
        rest: next,
    }
}
