// Two payloads of one shape, pooled: of each block the entry with the smaller sad (paper 02, request 3).
#![tactic(auto)]

pub mod payloads;
pub mod sets;
pub mod words;
