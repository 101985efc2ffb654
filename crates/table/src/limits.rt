// Document 01's limits in "The words of a table", as specs/Limits.antt has them, and the two kinds of step: each number once, sizes and places from them.

// "n | 1 | 16"
pub const TASKS: usize = 16;

pub const MOST_TASKS: u32 = TASKS as u32;

// "m | 0 | 16"
pub const RESOURCES: usize = 16;

pub const MOST_RESOURCES: u32 = RESOURCES as u32;

// "T, D, C, each | 1 | 1,000,000"
pub const MOST_TICKS: u32 = 1_000_000;

// "s | 0 | 16"
pub const STEPS: usize = 16;

pub const MOST_STEPS: u32 = STEPS as u32;

// "sections held at once by a job | 0 | 4"
pub const MOST_HELD: usize = 4;

// The most levels that are open at once: one in each section, and the outermost.
pub const LEVELS: usize = MOST_HELD + 1;

// "Kind 1 locks the resource", "Kind 2 unlocks the most recent one"
// Numbers and no enum, for they are what the words say: `steps::Step` and `Next` are the kinds.
pub const LOCK: u32 = 1;

pub const UNLOCK: u32 = 2;

// "Word 0: number of tasks n. Word 1: number of resources m. Then for each task": where the first task starts.
pub const AT_TASKS: usize = 2;

// "for each task in order T, D, C, the number of steps s, and three words a step": how far behind a task's start each word stands, and its plan.
pub const AT_PERIOD: usize = 0;

pub const AT_DEADLINE: usize = 1;

pub const AT_COST: usize = 2;

pub const AT_STEPS: usize = 3;

pub const AT_PLAN: usize = 4;

// "three words a step: kind, resource, length": how many, and how far behind the first the others stand.
pub const STEP_SIZE: usize = 3;

pub const AT_RESOURCE: usize = 1;

pub const AT_LENGTH: usize = 2;

// The longest list that passes the check.
pub const ROOM: usize = AT_TASKS + TASKS * (AT_PLAN + STEPS * STEP_SIZE);

// "clock | 0 | 2^40 - 1": the first time that is none.
pub const END_OF_TIME: u64 = 1 << 40;

// "a stored time is above 2^40 + 1,000,000"
pub const MOST_STORED: u64 = END_OF_TIME + MOST_TICKS as u64;

// "its count of accepted releases is above 2^44": one for each task and each time.
pub const MOST_RELEASES: u64 = TASKS as u64 * END_OF_TIME;

// "23 LONG if P is above 1,000,000"
pub const MOST_MULTIPLE: u64 = 1_000_000;
