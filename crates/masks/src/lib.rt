// The two masks: how much of each cell is uncovered, and each block's sad as a level (paper 01, 'Masks and class').
#![tactic(auto)]

pub mod checks; // what both calls check, and the area of a block
mod cover_levels; // the levels that the bytes of the cover mask have
pub mod rows; // the bytes of the cover mask, row by row
pub mod cover; // cover_mask
mod sad_levels; // the levels that the bytes of the SAD mask have
pub mod sad; // sad_mask
