// Where an image keeps what, and how many numbers an image and an answer have, as specs/Image.antt and specs/Answer.antt have them.
use machine::places::{self, NUMBERS};
use table::limits::ROOM;

// The words take the first numbers, two in each. Behind them stand the numbers of crate `machine`: the length, the clock, the count, the two sets and the rows.
pub(crate) const PACKED: usize = ROOM / 2;

pub(crate) const LENGTH_AT: usize = PACKED + places::LENGTH_AT;

pub(crate) const CLOCK_AT: usize = PACKED + places::CLOCK_AT;

pub(crate) const COUNT_AT: usize = PACKED + places::COUNT_AT;

pub(crate) const READY_AT: usize = PACKED + places::READY_AT;

pub(crate) const HAD_AT: usize = PACKED + places::HAD_AT;

pub(crate) const ROWS_AT: usize = PACKED + places::ROWS_AT;

// How many numbers an image has.
pub const IMAGE: usize = PACKED + NUMBERS;

// How many numbers an answer has.
pub const ANSWER: usize = 5;

// How many numbers 32 bits tell apart: a number of 64 bits holds two words, and this is the step from the low half to the high one.
pub(crate) const HALF: u64 = 1 << 32;
