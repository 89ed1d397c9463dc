// Where the text of a claim goes.
ghost use Rattle.std.specs.Prelude.{◌≡◌, List, [], ◌++◌, ℕ, length};
ghost use Rattle.decimal.specs.Printing.{decimal};
ghost use Rattle.solver.specs.Sinks.{LengthTook, length_none, length_joined, TextTook, text_none, text_joined};

// Bytes are put one run behind the other.
pub trait Sink {
    // What is t after s, to which these bytes were put.
    ghost took: { Self → List ℕ → Self → Type 0 };

    fn put(&mut self, bytes: &[u8])
        ensures { took self.old bytes.now self.new };

    // A number's digits. A sink may have a shorter way.
    fn put_number(&mut self, n: u64)
        ensures { took self.old (decimal n) self.new }
    {
        let mut room = [0u8; DIGITS];
        self.put(digits(n, &mut room));
    }

    ghost none: { (s : Self) → took s [] s };

    ghost joined: { (s t u : Self) (a b : List ℕ) → took s a t → took t b u → took s (a ++ b) u };
}

// A number has at most twenty digits.
const DIGITS: usize = 20;

// The digits of a number, in lent room.
fn digits(n: u64, room: &mut [u8; DIGITS]) -> &[u8]
    ensures { result.now ≡ decimal n }
{
    let end = decimal::put_decimal(room, 0, n);
    &room[..end]
}

// How many digits a number has.
fn digits_in(n: u64) -> usize
    ensures { result ≡ length (decimal n) }
{
    if n < 10 { 1 } else { digits_in(n / 10) + 1 }
}

// A text that is measured alone.
#[derive(Drop)]
pub struct Length {
    pub length: usize,
}

impl Sink for Length {
    ghost took = { LengthTook };

    ghost none = { length_none };

    ghost joined = { length_joined };

    fn put(&mut self, bytes: &[u8]) {
        self.length = self.length.saturating_add(bytes.len());
    }

    // No digit is put anywhere: measuring takes a good part of a write.
    fn put_number(&mut self, n: u64) {
        self.length = self.length.saturating_add(digits_in(n));
    }
}

// A text in a lent slice, from its start on, and how long it is. Bytes that have no room are counted alone.
#[derive(Drop)]
pub struct Text<'a> {
    pub out: &'a mut [u8],
    pub length: usize,
}

impl Sink for Text<'_> {
    ghost took = { TextTook };

    ghost none = { text_none };

    ghost joined = { text_joined };

    fn put(&mut self, bytes: &[u8]) {
        let end = self.length.saturating_add(bytes.len());
        if end <= self.out.len() {
            lent::put_all(self.out, self.length, bytes);
        }
        self.length = end;
    }

    // Straight into the slice, where any number has room: with a run of digits put first, and copied, a write took half as long again.
    fn put_number(&mut self, n: u64) {
        if DIGITS <= self.out.len().saturating_sub(self.length) {
            self.length = decimal::put_decimal(self.out, self.length, n);
        } else {
            let mut room = [0u8; DIGITS];
            self.put(digits(n, &mut room));
        }
    }
}
