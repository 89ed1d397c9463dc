// Where the words of entries stand. A table of up to 1,024 words has one word an entry, enough for six sets; behind these stand the entries'
// further words, where there is room for those of all: regions 64 to 127 in the second words and so on.
ghost use Rattle.std.specs.Prelude.{◌≡◌, ◌<◌};
ghost use Rattle.region.specs.Pattern.{entries, words_in, word_in};

// How many sets one word has room for, and the words of a table for the nodes of any claim: of one with up to so many sets, and of one with more.
pub const NARROW_SETS: usize = 6;

pub const NARROW: usize = STRIDE;

pub const WIDE: usize = WORDS * STRIDE;

// The bits of a word, the words of an entry at most, and how far the further words of an entry stand behind the first.
pub const BITS: usize = 64;

const WORDS: usize = 4;

pub const STRIDE: usize = 1024;

// How many words an entry has.
#[tactic(auto, unfolding(crate::specs::Pattern::words_in))]
pub fn words_in(patterns: &[u64]) -> usize
    ensures { result ≡ words_in patterns.now }
{
    (patterns.len() / STRIDE).clamp(1, WORDS)
}

// Word j of entry i.
#[tactic(auto, unfolding(crate::specs::Pattern::words_in))]
pub fn word_at(patterns: &[u64], i: usize, j: usize) -> u64
    requires { (i < entries patterns.now) × (j < words_in patterns.now) }
    ensures { result ≡ word_in patterns.now i j }
{
    patterns[STRIDE * j + i]
}
