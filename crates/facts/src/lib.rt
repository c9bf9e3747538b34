// A cell of the table of facts: whether its point is reached, and what is known of the eleven values there.
#![tactic(auto)]

// A fact is a value below 256, or this where nothing is known: a number, since `join_fact`, `knows_no_more` and `mask_of` are defined on
// such numbers.
pub const UNKNOWN: u16 = 256;

// Bytes of a cell's record; depths of the call stack; bytes of the records of one word, at all depths.
pub const RECORD: usize = 16;

pub const DEPTHS: usize = 9;

pub const WORD_RECORDS: usize = DEPTHS * RECORD;

// The flag stands beside the facts: `read_cell` loads those of any record, reached or not.
#[derive(Clone, Copy)]
pub struct Cell {
    pub reached: bool,
    pub facts: [u16; 11],
}
