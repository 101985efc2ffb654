// A set's members, one after the other.
ghost use Rattle.std.specs.Iterator.{YieldsFirst, item_count};
ghost use Rattle.sets.specs.Member.{width, members};

// The members that are still to come, as a set.
#[derive(Clone, Drop)]
pub struct Members {
    pub rest: u32,
}

impl Iterator for Members {
    type Item = u32;

    ghost next_gives = { YieldsFirst (λ s. members width s.rest) };

    ghost remaining = { item_count (λ s. members width s.rest) };

    fn next(&mut self) -> Option<u32> {
        if self.rest == 0 {
            return None;
        }
        let lowest = self.rest.trailing_zeros();
        self.rest = crate::without(self.rest, lowest);
        Some(lowest)
    }
}
