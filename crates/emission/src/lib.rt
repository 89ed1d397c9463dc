// The emission's nodes: what the quantifiers give, and the runs of all nodes, counted and then written.
#![tactic(auto)]

mod count; // how many nodes a run takes
pub mod kinds; // kinds by name
pub mod nodes; // the runs of all nodes
mod pattern; // the patterns of set nodes
pub mod plan; // what the quantifiers give
mod run; // the run of a node
mod source; // the claim that is emitted
pub mod write; // single nodes

// What a run of quantifiers gives to what is inside them: the number of the next emitted quantifier, how many of them bind sets,
// and the quantifier of the first region (0 if there are no sets).
#[derive(Clone, Copy)]
pub struct Frame {
    pub next: usize,
    pub level: usize,
    pub first: usize,
}

// How many nodes are emitted, and which of them the next constraint is joined to.
#[derive(Clone, Copy)]
pub struct Body {
    pub nodes: usize,
    pub root: usize,
}
