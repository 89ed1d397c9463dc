// Numbers and words read out of a text.
ghost use Rattle.std.specs.Prelude.{◌≡◌, ◌≤◌, pos, neg_ℤ, length};
ghost use Rattle.std.specs.List.{position_or_len};
ghost use Rattle.decimal.specs.Reading.{blank, most_negative, next_in, number_in, word_in, read_text, scanned_of, onto};

const MOST_NEGATIVE: u64 = 2147483648;

const MOST_POSITIVE: u64 = 2147483647;

fn is_blank(b: u8) -> bool
    ensures { result ≡ blank b }
{
    matches!(b, b' ' | b'\n' | b'\r')
}

// The number so far, with one digit more.
#[tactic(auto, using(std::proofs::lemmas::Bool::Decides::nat_tests), unfolding(crate::specs::Reading::next_in))]
fn next(value: u64, b: u8, most: u64) -> Option<u64>
    ensures { result ≡ next_in most value b }
{
    if !b.is_ascii_digit() {
        return None;
    }
    let more = value.checked_mul(10)?.checked_add(u64::from(b - b'0'))?;
    if most < more { None } else { Some(more) }
}

// The number that all of the text says, if it is at most `most`.
#[tactic(auto, using(crate::proofs::Numbers::numbers))]
pub fn read_number(text: &[u8], most: u64) -> Option<u64>
    ensures { result ≡ number_in most text.now }
{
    if text.is_empty() {
        return None;
    }
    let mut value = 0;
    for b in text {
        value = next(value, *b, most)?;
    }
    Some(value)
}

// A number below 0.
fn negative(n: u64) -> i32
    requires { n ≤ most_negative }
    ensures { result ≡ neg_ℤ (pos n) }
{
    -(n as i64) as i32
}

// The word that all of the text says.
#[tactic(auto, using(crate::proofs::Words::words))]
fn read_word(text: &[u8]) -> Option<i32>
    ensures { result ≡ word_in text.now }
{
    match text.strip_prefix(b"-") {
        Some(digits) => Some(negative(read_number(digits, MOST_NEGATIVE)?)),
        None => Some(read_number(text, MOST_POSITIVE)? as i32),
    }
}

// How many bytes stand before the first blank, all of them where there is none.
fn piece_length(text: &[u8]) -> usize
    ensures { result ≡ position_or_len blank text.now }
{
    text.iter().position(|b| is_blank(*b)).unwrap_or(text.len())
}

// The words of a text, put into `out` from its start on, as far as they are words and have room. How many they are; or `None`, if the text holds
// something else than words, or more of them than there is room for.
pub fn read_words(text: &[u8], out: &mut [i32]) -> Option<usize>
    ensures value { result ≡ scanned_of (read_text (length out.old) text.now) }
    ensures out_after { out.new ≡ onto out.old (read_text (length out.old) text.now) }
{
    let mut count = 0;
    let mut rest = text;
    // Over what is left, and not `split`: that makes a piece of each blank, and looks for the end of one that has no room.
    while let [b, tail @ ..] = rest {
        if is_blank(*b) {
            rest = tail;
        } else {
            if count == out.len() {
                return None;
            }
            let (piece, behind) = rest.split_at(piece_length(rest));
            out[count] = read_word(piece)?;
            count += 1;
            rest = behind;
        }
    }
    Some(count)
}
