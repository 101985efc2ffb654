// The two states that a start makes.
ghost use Rattle.std.specs.Prelude.{◌≡◌, ◌≤◌, length};
ghost use Rattle.table.specs.Limits.{room};
ghost use Rattle.table.specs.Map.{padded};
ghost use Rattle.dispatch.specs.State.{fresh_state, zero_state};

use crate::{State, change};
use table::limits::ROOM;

// The words in the state's room; the room behind them is 0.
fn stored(words: &[u32]) -> [u32; ROOM]
    requires { length words.now ≤ room }
    ensures { result ≡ padded room words.now }
{
    let mut room = [0; ROOM];
    room[..words.len()].copy_from_slice(words);
    room
}

#[tactic(auto, unfolding(crate::specs::State::fresh_state))]
pub(crate) fn fresh(words: &[u32]) -> State
    requires { length words.now ≤ room }
    ensures { result ≡ fresh_state words.now (length words.now) }
{
    State {
        words: stored(words),
        length: words.len(),
        kept: change::fresh(),
    }
}

// "a state whose numbers are all zero"
#[tactic(auto, unfolding(crate::specs::State::zero_state))]
pub(crate) fn zero() -> State
    ensures { result ≡ zero_state }
{
    State {
        words: [0; ROOM],
        length: 0,
        kept: change::fresh(),
    }
}
