// What the session's calls write into the lent buffers: all made afresh, or one entry's part patched (paper 01, 'Session').
#![tactic(auto)]

pub mod rebuild; // all that depends on the sets, made afresh
pub mod edit; // one entry stored, and what depends on it patched
