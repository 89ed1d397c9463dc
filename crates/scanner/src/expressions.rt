// What a let binds: the expression of a node.

#![tactic(auto, unfolding(sentence::specs::Scan::one_from, sentence::specs::Scan::two_from, sentence::specs::Scan::minus_from, sentence::specs::Scan::times_from, sentence::specs::Scan::equal_from, sentence::specs::Scan::and_from, sentence::specs::Scan::bracket_from, sentence::specs::Scan::expr_from))]

ghost use Rattle.std.specs.Prelude.{◌≡◌};
ghost use Rattle.sentence.specs.Scan.{minus_from, times_from, equal_from, and_from, bracket_from, expr_from};
ghost use Rattle.scanner.specs.Finds.{most, Finds, fields_in, nodes_fields, pair_from};

use crate::numbers::{byte_at, byte_is, number, pair, past};
use crate::{Fields, Found};

// The kinds of 01 that a text has.
const NUMBER_VARIABLE: i64 = 10;

const CONSTANT: i64 = 11;

const SIZE: i64 = 12;

const SUM: i64 = 13;

const DIFFERENCE: i64 = 14;

const MULTIPLE: i64 = 15;

const EQUAL: i64 = 20;

const LESS: i64 = 21;

const DIVIDES: i64 = 22;

const AND: i64 = 25;

const OR: i64 = 26;

const NOT: i64 = 27;

fn fields(kind: i64, a: i64, b: i64) -> Fields
    ensures { result ≡ record { kind = kind; a = a; b = b } }
{
    Fields { kind, a, b }
}

// Two nodes of this kind's operator, from the first one's number on.
fn two_nodes(text: &[u8], kind: i64) -> Found<'_, Fields>
    ensures { Finds (nodes_fields kind) (pair_from 2 1 text.now) result }
{
    pair(text, 2, 1).map(|(a, b)| fields(kind, a, b))
}

// (- n3 n4) or (- 5)
fn minus(text: &[u8]) -> Found<'_, Fields>
    ensures { Finds fields_in (minus_from most text.now) result }
{
    if byte_is(text, 3, b'n') {
        return two_nodes(past(text, 4), DIFFERENCE);
    }
    number(past(text, 3))
        .past(1)
        .map(|c| fields(CONSTANT, -c, 0))
}

// (* (- 5) n3) or (* 5 n3)
fn times(text: &[u8]) -> Found<'_, Fields>
    ensures { Finds fields_in (times_from most text.now) result }
{
    if byte_is(text, 3, b'(') {
        return pair(past(text, 6), 3, 1).map(|(c, b)| fields(MULTIPLE, -c, b));
    }
    two_nodes(past(text, 3), MULTIPLE)
}

// (= n3 n4), (= 0 (mod n3 5)) or (= (mod n3 5) 0)
fn equal(text: &[u8]) -> Found<'_, Fields>
    ensures { Finds fields_in (equal_from most text.now) result }
{
    if byte_is(text, 3, b'n') {
        return two_nodes(past(text, 4), EQUAL);
    }
    if byte_is(text, 3, b'0') {
        return pair(past(text, 11), 1, 2).map(|(b, c)| fields(DIVIDES, -c, b));
    }
    pair(past(text, 9), 1, 4).map(|(b, c)| fields(DIVIDES, c, b))
}

// (and n3 n4) or (and false (= n3 0))
fn and(text: &[u8]) -> Found<'_, Fields>
    ensures { Finds fields_in (and_from most text.now) result }
{
    if byte_is(text, 5, b'n') {
        return two_nodes(past(text, 6), AND);
    }
    number(past(text, 15))
        .past(4)
        .map(|b| fields(DIVIDES, 0, b))
}

// What opens by a bracket: the operator tells which.
fn bracket(text: &[u8]) -> Found<'_, Fields>
    ensures { Finds fields_in (bracket_from most text.now) result }
{
    match byte_at(text, 1) {
        b'+' => two_nodes(past(text, 4), SUM),
        b'-' => minus(text),
        b'*' => times(text),
        b'=' => equal(text),
        b'<' => two_nodes(past(text, 4), LESS),
        b'a' => and(text),
        b'o' => two_nodes(past(text, 5), OR),
        _ => number(past(text, 6)).past(1).map(|a| fields(NOT, a, 0)),
    }
}

pub fn expression(text: &[u8]) -> Found<'_, Fields>
    ensures { Finds fields_in (expr_from most text.now) result }
{
    match byte_at(text, 0) {
        b'(' => bracket(text),
        b'q' => number(past(text, 1)).map(|a| fields(NUMBER_VARIABLE, a, 0)),
        b'M' => Found {
            value: fields(SIZE, 0, 0),
            rest: past(text, 4),
        },
        _ => number(text).map(|a| fields(CONSTANT, a, 0)),
    }
}
