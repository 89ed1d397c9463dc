// The words of the claim that a text is scanned as. A number that no word holds is put as 0: such a text is no claim's, which shows when the
// words are written again.
ghost use Rattle.std.specs.Prelude.{◌≡◌, map, ◌+◌, ◌*◌, ◌≤◌, length, take};
ghost use Rattle.checker.specs.Words.{nodes_words, quantifier_word, words_of};
ghost use Rattle.lent.specs.Write.{Room, Wrote};
ghost use Rattle.sentence.specs.Scan.{nodes_from, quantifiers_from, scan};
ghost use Rattle.scanner.specs.Finds.{most};
ghost use Rattle.reader.specs.Held.{held};
ghost use Rattle.reader.specs.Runs.{limits, most_words, RunPut};

use checker::names::{MAX_EMITTED_NODES, MAX_EMITTED_QUANTIFIERS};
use scanner::{Fields, Found};

const MARK: i64 = 2005;

// The number of bytes before the first quantifier.
const OPENING: usize = 75;

// A number as a word holds it.
#[tactic(auto, using(crate::proofs::Words::held_or_0))]
fn held(n: i64) -> i32
    ensures { result ≡ held n }
{
    i32::try_from(n).unwrap_or(0)
}

// Numbers as words hold them, and the place after them.
fn put_held(words: &mut [i32], at: usize, numbers: &[i64]) -> usize
    requires { Room words.old at (map held numbers.now) }
    ensures { Wrote words.old at (map held numbers.now) words.new result }
{
    for (i, n) in numbers.iter().enumerate() {
        words[at + i] = held(*n);
    }
    at + numbers.len()
}

// The nodes whose lines the text begins with, and how many they are.
fn put_nodes<'a>(text: &'a [u8], words: &mut [i32]) -> Found<'a, usize>
    requires { 3 * limits.nodes ≤ length words.old }
    ensures put { RunPut nodes_words 3 (nodes_from most limits.nodes text.now) words.old 0 words.new result }
    ensures few { result.value ≤ limits.nodes }
{
    let mut rest = text;
    for i in 0..MAX_EMITTED_NODES {
        if !scanner::byte_is(rest, 0, b'(') {
            return Found { value: i, rest };
        }
        let node = scanner::node(rest);
        let Fields { kind, a, b } = node.value;
        put_held(words, 3 * i, &[kind, a, b]);
        rest = node.rest;
    }
    Found {
        value: MAX_EMITTED_NODES,
        rest,
    }
}

// The quantifiers whose lines the text begins with, put from a place of the words on, and how many they are. One function for both would take what is
// tested, scanned and put as closures: more contract than these loops have code.
fn put_quantifiers<'a>(text: &'a [u8], words: &mut [i32], from: usize) -> Found<'a, usize>
    requires { from + limits.quantifiers ≤ length words.old }
    ensures put { RunPut (map quantifier_word) 1 (quantifiers_from most limits.quantifiers text.now) words.old from words.new result }
    ensures few { result.value ≤ limits.quantifiers }
{
    let mut rest = text;
    for i in 0..MAX_EMITTED_QUANTIFIERS {
        if !scanner::quantifies(rest) {
            return Found { value: i, rest };
        }
        let quantifier = scanner::quantifier(rest);
        put_held(words, from + i, &[quantifier.value]);
        rest = quantifier.rest;
    }
    Found {
        value: MAX_EMITTED_QUANTIFIERS,
        rest,
    }
}

// The words of the claim that the text is scanned as, and how many they are. The quantifiers' lines stand before those of the nodes, and their
// words behind: they are put twice, the first time for the text after them.
pub fn put_words(text: &[u8], words: &mut [i32]) -> usize
    requires { most_words ≤ length words.old }
    ensures upper_bound { result ≤ most_words }
    ensures words_after { take result words.new ≡ map held (words_of (scan limits text.now)) }
{
    let start = scanner::past(text, OPENING);
    let before = put_quantifiers(start, words, 0);
    let nodes = put_nodes(before.rest, words);
    let first = 3 * nodes.value;
    let quantifiers = put_quantifiers(start, words, first);
    let root = scanner::number(scanner::past(nodes.rest, 1));
    let trailer = [
        root.value,
        nodes.value as i64,
        quantifiers.value as i64,
        MARK,
    ];
    put_held(words, first + quantifiers.value, &trailer)
}
