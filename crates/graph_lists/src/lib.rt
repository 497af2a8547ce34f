// Arrays of fixed length for the searches: keys of benches, numbers listed by a key. Nothing here knows a table.
#![tactic(auto)]

pub mod keys;
pub mod lists;
