// Into a lent room, from a place on. Each call answers the place behind; what has no room is dropped.
ghost use Rattle.std.specs.Prelude.{[], ◌∷◌};
ghost use Rattle.text.specs.Room.{Laid};

// One item.
pub fn put<T: Copy>(room: &mut [T], at: usize, item: T) -> usize
    ensures { Laid (item ∷ []) room.old at room.new result }
{
    if at < room.len() {
        room[at] = item;
        return at + 1;
    }
    at
}

// A text, item after item.
#[tactic(auto, using(crate::proofs::Lay::all_laid))]
pub fn put_all<T: Copy>(room: &mut [T], at: usize, text: &[T]) -> usize
    ensures { Laid text.now room.old at room.new result }
{
    let mut next = at;
    for item in text {
        next = put(room, next, *item);
    }
    next
}
