// The coverage grid of a vector set at a time: a block's four cells, the plain scatter, and the patch after one entry changes.
#![tactic(auto)]

pub mod geometry; // Scatter: what a scatter works out once, which times it takes, and its leaf, a block's four cells and products
pub mod axis; // one axis of a block: first cell, parts
pub mod added; // add and remove
pub mod plain; // the plain scatter, from zero
pub mod patch; // the patch after one entry changes
