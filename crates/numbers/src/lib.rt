// Tests, orders and sums of whole numbers: definitions and laws that the other crates cite; and document 01's limits, as the code names them.
#![tactic(auto)]

// A is from 2 to 8.
pub const FEWEST_SYMBOLS: u32 = 2;

pub const MOST_SYMBOLS: u32 = 8;

// D is from 0 to 6.
pub const DEEPEST: u32 = 6;

// A weight is from 0 to 16 quarters.
pub const MOST_WEIGHT: u32 = 16;

// A sample has 0 to 2,048 symbols.
pub const LONGEST: u32 = 2048;

// Desks 0 to 7.
pub const DESKS: usize = 8;

// K is from 1 to 4,096.
pub const MOST_ROOM: usize = 4096;

// A row is 11 numbers.
pub const ROW_WIDTH: usize = 11;
