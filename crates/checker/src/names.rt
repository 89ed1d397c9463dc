// The limits by name, each stated once in code: of claims over sets, and of emitted tables, which no emission passes.
pub const MAX_NODES: usize = 1024;

pub const MAX_QUANTIFIERS: usize = 32;

pub const MAX_SETS: usize = 8;

pub const MAX_EMITTED_NODES: usize = 530946;

pub const MAX_EMITTED_QUANTIFIERS: usize = 534;
