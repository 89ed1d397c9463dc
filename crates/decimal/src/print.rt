// Numbers, words and lines put into a text. Each function answers the place after what it put.
ghost use Rattle.std.specs.Prelude.{◌≡◌, [], ◌∷◌, ◌+◌, ◌*◌, ◌<◌, ◌≤◌, length};
ghost use Rattle.lent.specs.Write.{Room, Wrote};
ghost use Rattle.decimal.specs.Printing.{decimal, word_text, ending, line_text};

// The byte of a digit.
fn digit(n: u64) -> u8
    requires { n < 10 }
    ensures { result ≡ 48 + n }
{
    b'0' + n as u8
}

pub fn put_decimal(out: &mut [u8], at: usize, n: u64) -> usize
    requires { Room out.old at (decimal n) }
    ensures { Wrote out.old at (decimal n) out.new result }
{
    if n < 10 {
        return lent::put(out, at, digit(n));
    }
    let last = put_decimal(out, at, n / 10);
    lent::put(out, last, digit(n % 10))
}

// A sign and ten digits at most.
pub fn put_word(out: &mut [u8], at: usize, w: i32) -> usize
    requires { at + 11 ≤ length out.old }
    ensures wrote { Wrote out.old at (word_text w) out.new result }
    ensures upper_bound { result ≤ at + 11 }
{
    let digits = if w < 0 { lent::put(out, at, b'-') } else { at };
    put_decimal(out, digits, u64::from(w.unsigned_abs()))
}

// The byte after a word that `rest` follows.
fn ending(rest: &[i32]) -> u8
    ensures { result ≡ ending rest.now }
{
    if rest.is_empty() { b'\n' } else { b' ' }
}

// Words with one space between, and a line feed; no words are no line.
pub fn put_line(out: &mut [u8], at: usize, words: &[i32]) -> usize
    requires { at + 12 * length words.now ≤ length out.old }
    ensures wrote { Wrote out.old at (line_text words.now) out.new result }
    ensures upper_bound { result ≤ at + 12 * length words.now }
{
    let mut here = at;
    for (i, word) in words.iter().enumerate() {
        let end = put_word(out, here, *word);
        here = lent::put(out, end, ending(&words[i + 1..]));
    }
    here
}
