// What is read off the vector sets: planes, average luma, the map of scores, the class.
// Sets, averages and planes are lent apart, as C lends them: a struct of them would be taken apart again in each function.
// A side is the number that C gives: 1 and 2 are sides, and every other one is refused by 8 (record::checks::check_side).
#![tactic(auto)]

pub mod planes; // pack: the two planes of a set
pub mod luma; // avg_luma: the average luma of each block
pub mod map; // quality_map: the map of scores
pub mod class; // quality: the counts of a picture's blocks, and its class
pub mod judge; // map and counts in one walk
pub mod kept; // the counts that a session keeps, adjusted by an edit
