// Document 01's numbers of what is answered, as specs/Answers.antt has them.
// They are constants and no enum: table's `Finding`, dispatch's `Refusal` and verdict's `Verdict` are the kinds, and a number stands only where it goes out.

// "When the table check says no"
pub const SHORT: u32 = 1;

pub const COUNT: u32 = 2;

pub const RANGE: u32 = 3;

pub const STEP: u32 = 4;

pub const NEST: u32 = 5;

// Request 105: "New refusal 14 CROWDED, place: the lock step that goes over."
pub const CROWDED: u32 = 14;

// "When an event is turned away"
pub const TORN: u32 = 6;

pub const BACK: u32 = 7;

pub const END: u32 = 8;

pub const NOBODY: u32 = 9;

pub const ACTIVE: u32 = 10;

pub const EARLY: u32 = 11;

pub const HELD: u32 = 12;

// "The verdict"
pub const FITS: u32 = 20;

pub const LATE: u32 = 21;

pub const HEAVY: u32 = 22;

pub const LONG: u32 = 23;
