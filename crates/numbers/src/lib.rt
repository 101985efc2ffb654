// The lowest crate: document 01's numbers of what is answered, and the lesser and the greater of two numbers.
#![tactic(auto)]

pub mod answers;

ghost use Rattle.std.proofs.Common.{rules};
ghost use Rattle.std.specs.Ordering.{partial_lt};
ghost use Rattle.std.specs.Prelude.{◌≡◌, ℕ, min, max, nat_lt};

// A type of numbers: what a value counts, and that `<` asks which of two counts less.
pub trait Number: PartialOrd + Copy {
    ghost value: { Self → ℕ };

    ghost below: { (a b : Self) → partial_lt Self.partial_cmp a b ≡ nat_lt (value a) (value b) };
}

impl Number for u32 {
    ghost value = { λ n. n };

    ghost below = { Prim.search rules };
}

impl Number for u64 {
    ghost value = { λ n. n };

    ghost below = { Prim.search rules };
}

impl Number for usize {
    ghost value = { λ n. n };

    ghost below = { Prim.search rules };
}

// The lesser of two numbers. docs/PROMISES.md promises it and `greater` by name (`lesser_pinned`, `greater_pinned`), so the code holds two numbers
// against each other by these, and takes std's min and max at the end of a chain alone.
pub fn lesser<T: Number>(a: T, b: T) -> T
    ensures { T.value result ≡ min (T.value a) (T.value b) }
{
    if a < b { a } else { b }
}

// The greater of two numbers.
pub fn greater<T: Number>(a: T, b: T) -> T
    ensures { T.value result ≡ max (T.value a) (T.value b) }
{
    if a < b { b } else { a }
}
