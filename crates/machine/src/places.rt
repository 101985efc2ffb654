// Where a state's numbers stand, as specs/Numbers.antt has it: how many words the table has and what is kept, in numbers of 64 bits that can be lent as they lie.
use table::limits::{MOST_HELD, TASKS};

// How many words the table has, the clock, the count of accepted releases, the ready set and the set of tasks that have had a release; then the rows.
pub const LENGTH_AT: usize = 0;

pub const CLOCK_AT: usize = 1;

pub const COUNT_AT: usize = 2;

pub const READY_AT: usize = 3;

pub const HAD_AT: usize = 4;

pub const ROWS_AT: usize = 5;

// Places in a row, counted from its start.
pub const BASE_AT: usize = 0;

pub const ACTIVE_AT: usize = 1;

pub const NUMBER_AT: usize = 2;

pub const PLACE_AT: usize = 3;

pub const SAVED_AT: usize = 4;

pub const LAST_AT: usize = SAVED_AT + MOST_HELD;

pub const ROW_SIZE: usize = LAST_AT + 1;

// How many numbers there are: one row for each task that a table may have.
pub const NUMBERS: usize = ROWS_AT + TASKS * ROW_SIZE;
