// Patterns of regions, in a lent table of words with one entry a node: routines that write an entry, and routines that read one.
// No other crate looks at the words. With s sets there are 2^s regions; the set whose bit stands at a position of a region's number has that
// many sets inside it.
#![tactic(auto)]

mod form; // the words of what can be written
mod read; // the routines that read
mod table; // where the words stand
mod write; // the routines that write

pub use form::Form;
pub use read::{end, next, ports_in, size};
pub use table::{NARROW, NARROW_SETS, WIDE};
pub use write::{
    put_complement, put_difference, put_empty, put_exclusive, put_intersection, put_union,
    put_variable, put_whole,
};
