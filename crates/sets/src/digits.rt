// The numbers that hold a set: 32 digits for one of tasks or resources, and 64, in which it would lie among a state's numbers; nothing calls that yet.
ghost use Rattle.std.specs.Prelude.{◌≡◌, ℕ, ◌<◌};
ghost use Rattle.sets.specs.Member.{width, wide, with_of};

use numbers::Number;

pub(crate) trait Digits: Number {
    // How many digits it has.
    const WIDTH: u32;

    ghost WIDTH: { ℕ };

    // The same number, in 64 digits.
    fn widened(self) -> u64
        ensures { result ≡ Self.value self };

    // The number with a one as digit k.
    fn with_one(self, k: u32) -> Self
        requires { k < WIDTH }
        ensures { Self.value result ≡ with_of WIDTH (Self.value self) k };
}

impl Digits for u32 {
    const WIDTH: u32 = u32::BITS;

    ghost WIDTH = { width };

    fn widened(self) -> u64 {
        u64::from(self)
    }

    fn with_one(self, k: u32) -> u32 {
        self | (1u32 << k)
    }
}

impl Digits for u64 {
    const WIDTH: u32 = u64::BITS;

    ghost WIDTH = { wide };

    fn widened(self) -> u64 {
        self
    }

    fn with_one(self, k: u32) -> u64 {
        self | (1u64 << k)
    }
}
