// The vector record, the shape it gives, the entries of a vector set, and the payload that renews them.
#![tactic(auto)]

pub mod refusal; // Refusal: why a call is refused, and its number
pub mod fields; // numbers in bytes
pub mod data; // vector_data: the record
pub mod shape; // FieldShape: limits, counts and sizes
pub mod entry; // BlockVector: the 8 bytes of an entry; set: one of two sets, by its side
pub mod checks; // the checks that calls share
pub mod payload; // the number of a payload
pub mod update; // update: a payload's entries copied into the sets
