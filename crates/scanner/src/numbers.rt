// Bytes and numbers at the front of a text.
ghost use Rattle.std.specs.Prelude.{◌≡◌, ◌+◌, ◌*◌, ◌-◌, ◌≤◌, true, eqb, pos, length, get_or, drop};
ghost use Rattle.decimal.specs.Reading.{digit};
ghost use Rattle.sentence.specs.Scan.{grown, number_from};
ghost use Rattle.scanner.specs.Finds.{most, Finds, two_numbers, pair_from};

use crate::Found;

const MOST: u64 = 2147483648;

// Byte i. Past the end stands a 0.
pub fn byte_at(text: &[u8], i: usize) -> u8
    ensures { result ≡ get_or text.now i 0 }
{
    text.get(i).copied().unwrap_or(0)
}

// Whether byte i is b.
pub fn byte_is(text: &[u8], i: usize, b: u8) -> bool
    ensures { result ≡ eqb (get_or text.now i 0) b }
{
    byte_at(text, i) == b
}

// What follows k bytes.
pub fn past(text: &[u8], k: usize) -> &[u8]
    ensures { result.now ≡ drop k text.now }
{
    &text[k.min(text.len())..]
}

// The number that a further digit makes of n. One over the limit is wrong already, and stays as it is.
fn grown(n: u64, d: u8) -> u64
    requires n_bound { n ≤ 10 * most + 9 }
    requires d_value { digit d ≡ true }
    ensures value { result ≡ grown most n (d - 48) }
    ensures upper_bound { result ≤ 10 * most + 9 }
{
    if n <= MOST {
        return 10 * n + u64::from(d - b'0');
    }
    n
}

// The number that a text begins with: 0 where it begins with no digit.
#[tactic(auto, unfolding(sentence::specs::Scan::number_from))]
pub fn number(text: &[u8]) -> Found<'_, i64>
    ensures { Finds pos (number_from most 0 text.now) result }
{
    let mut n = 0;
    let mut rest = text;
    while let [b @ b'0'..=b'9', tail @ ..] = rest {
        n = grown(n, *b);
        rest = tail;
    }
    Found {
        value: n as i64,
        rest,
    }
}

// Two numbers, with so many bytes between and after them.
pub fn pair(text: &[u8], between: usize, after: usize) -> Found<'_, (i64, i64)>
    ensures { Finds two_numbers (pair_from between after text.now) result }
{
    let first = number(text);
    let second = number(past(first.rest, between));
    second.past(after).map(|b| (first.value, b))
}
