// Sizes that a session and a run lend.
use table::limits::ROOM;

// "no table has more than 834": one word more shows that there are too many.
pub const WORDS: usize = ROOM + 1;

// How many bytes are read at once, and how many are written out at once.
pub const PIECE: usize = 65_536;

// "the line has more than 65,536 bytes": one byte more than a line may have shows that it is too long.
pub const LINE: usize = script::read::MOST_BYTES + 1;

// Room for an answer: `show` has a line for the clock and one for each of sixteen jobs, each of some two hundred bytes at the most. That this is enough is
// argued and not proved; an answer that had no room would be cut, as `answer::answer` says.
pub const MOST_ANSWER: usize = 8_192;
