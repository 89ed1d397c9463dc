// The words of what can be written.
ghost use Rattle.std.specs.Prelude.{◌≡◌, ℕ, ◌+◌, ◌*◌, ◌^◌, ◌<◌, ◌≤◌, ltb};
ghost use Rattle.checker.specs.Meaning.{Set};
ghost use Rattle.region.specs.Pattern.{covers, word_bits, pattern_words, pattern_bits, covering, Asks};

use crate::table::BITS;

// Bit b of entry k is bit k of b.
const POSITIONS: [u64; 6] = [
    0xAAAA_AAAA_AAAA_AAAA,
    0xCCCC_CCCC_CCCC_CCCC,
    0xF0F0_F0F0_F0F0_F0F0,
    0xFF00_FF00_FF00_FF00,
    0xFFFF_0000_FFFF_0000,
    0xFFFF_FFFF_0000_0000,
];

// How many bits a region's number has at most.
const PLACES: usize = 8;

// What a written entry covers, of two operands: a number is that of the sets, before it the position of one.
#[derive(Clone, Copy)]
pub enum Form {
    Nothing,
    Whole(usize),
    Inside(usize, usize),
    Union,
    Intersection,
    Difference,
    Exclusive,
    Complement(usize),
}

// Word j of the regions inside the set at `position`: the low six bits of a region's number are its place in a word, the others the word.
fn inside(position: usize, j: usize) -> u64
    requires { j < pattern_words }
    ensures { (b : ℕ) → b < word_bits → covers result b ≡ covers (word_bits * j + b) position }
{
    if let Some(word) = POSITIONS.get(position) {
        return *word;
    }
    if position < PLACES && (j >> (position - POSITIONS.len())) % 2 == 1 {
        return !0;
    }
    0
}

// Word j of all regions of s sets.
fn whole(s: usize, j: usize) -> u64
    requires { (2 ^ s ≤ pattern_bits) × (j < pattern_words) }
    ensures { (b : ℕ) → b < word_bits → covers result b ≡ ltb (word_bits * j + b) (2 ^ s) }
{
    let left = (1usize << s).saturating_sub(BITS * j);
    u64::MAX.unbounded_shr(BITS.saturating_sub(left) as u32)
}

// Word j of a written entry, x and y being those of its operands.
pub fn word(form: Form, j: usize, x: u64, y: u64) -> u64
    requires { Asks form pattern_bits × (j < pattern_words) }
    ensures { (v w : Set) → ((b : ℕ) → b < word_bits → covers x b ≡ v (word_bits * j + b)) → ((b : ℕ) → b < word_bits → covers y b ≡ w (word_bits * j + b)) → (b : ℕ) → b < word_bits → covers result b ≡ covering form v w (word_bits * j + b) }
{
    match form {
        Form::Nothing => 0,
        Form::Whole(s) => whole(s, j),
        Form::Inside(position, s) => inside(position, j) & whole(s, j),
        Form::Union => x | y,
        Form::Intersection => x & y,
        Form::Difference => x & !y,
        Form::Exclusive => x ^ y,
        Form::Complement(s) => whole(s, j) & !x,
    }
}
