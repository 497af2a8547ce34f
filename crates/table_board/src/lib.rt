// A table as a board: its jobs. No function here knows where a word lies; above it only `table_chains`,
// `table_splices` and `table_rising` name a record.
#![tactic(auto)]

pub mod jobs;
