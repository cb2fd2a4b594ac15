// What a program that reads standard input in pieces writes, to which stream, and how the reading ends.
#![tactic(auto)]

pub mod arguments;
pub mod output;
pub mod pieces;

// How many bytes are read at a time at most, and how many are written.
pub const PIECE_SIZE: usize = 262144;
