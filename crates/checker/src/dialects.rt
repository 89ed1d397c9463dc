// The dialects: how much a table of each may hold, and which kinds it takes.
ghost use Rattle.std.specs.Prelude.{◌≡◌};

use crate::kinds::range_of;
use crate::names::{
    MAX_EMITTED_NODES, MAX_EMITTED_QUANTIFIERS, MAX_NODES, MAX_QUANTIFIERS, MAX_SETS,
};
use crate::{Dialect, Range};

#[derive(Clone, Copy)]
pub struct Limits {
    pub nodes: usize,
    pub quantifiers: usize,
    pub sets: usize,
}

impl Dialect {
    ghost use Rattle.checker.specs.Dialect.{most_nodes, most_quantifiers, most_sets, takes_kind};
    ghost use Rattle.checker.specs.Table.{quantifier_taken};

    pub(crate) fn limits(self) -> Limits
        ensures nodes { result.nodes ≡ most_nodes self }
        ensures quantifiers { result.quantifiers ≡ most_quantifiers self }
        ensures sets { result.sets ≡ most_sets self }
    {
        match self {
            Dialect::SetClaims => Limits {
                nodes: MAX_NODES,
                quantifiers: MAX_QUANTIFIERS,
                sets: MAX_SETS,
            },
            Dialect::Emitted => Limits {
                nodes: MAX_EMITTED_NODES,
                quantifiers: MAX_EMITTED_QUANTIFIERS,
                sets: 0,
            },
        }
    }

    pub(crate) fn takes_kind(self, kind: usize) -> bool
        ensures { result ≡ takes_kind self kind }
    {
        match self {
            Dialect::SetClaims => true,
            Dialect::Emitted => matches!(kind, 10..=15 | 20..=22 | 25..=27),
        }
    }

    // Whether quantifiers of this kind are taken, and it is known.
    pub(crate) fn takes_quantifier(self, kind: usize) -> bool
        ensures { result ≡ quantifier_taken self kind }
    {
        match self {
            Dialect::SetClaims => range_of(kind).is_some(),
            Dialect::Emitted => range_of(kind) == Some(Range::Numbers),
        }
    }
}
