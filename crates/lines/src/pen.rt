// A pen on a lent room, and what it writes: text behind text, and what has no room is dropped.
ghost use Rattle.std.specs.Prelude.{ℕ, List, [], ◌∷◌, ◌++◌, ◌+◌, ◌<◌};
ghost use Rattle.text.specs.Decimal.{digits, signed};
ghost use Rattle.text.specs.Room.{Written};
ghost use Rattle.lines.specs.Lines.{line};
ghost use Rattle.lines.specs.Puts.{Puts};

// The room, and the place from which on it is free.
#[derive(Drop)]
pub(crate) struct Pen<'a> {
    room: &'a mut [u8],
    at: usize,
}

// What a pen writes. Not Display: std says what was written only where `fmt` answers Ok, and the promise of write_reply and its like (`Written`) holds of every call.
pub(crate) trait Text {
    // Its bytes.
    ghost text: { Self → List ℕ };

    fn put(self, pen: &mut Pen<'_>)
        ensures { Puts (text self) pen.old pen.new };
}

impl Text for &str {
    ghost text = { λ s. s.now };

    fn put(self, pen: &mut Pen<'_>) {
        pen.at = text::room::put_all(pen.room, pen.at, self.as_bytes());
    }
}

// One behind the other.
impl<A: Text, B: Text> Text for (A, B) {
    ghost text = { λ p. A.text p.0 ++ B.text p.1 };

    fn put(self, pen: &mut Pen<'_>) {
        self.0.put(pen);
        self.1.put(pen);
    }
}

// One byte, which is a digit.
fn put_digit(digit: u8, pen: &mut Pen<'_>)
    requires { digit < 10 }
    ensures { Puts ((48 + digit) ∷ []) pen.old pen.new }
{
    pen.at = text::room::put(pen.room, pen.at, b'0' + digit);
}

// A number, in decimal. Not by std's printing of numbers either, which is their Display: its contract says what was written only where it answers Ok.
fn put_digits(n: u64, pen: &mut Pen<'_>)
    ensures { Puts (digits n) pen.old pen.new }
{
    if 10 <= n {
        put_digits(n / 10, pen);
    }
    put_digit((n % 10) as u8, pen);
}

impl Text for u64 {
    ghost text = { digits };

    fn put(self, pen: &mut Pen<'_>) {
        put_digits(self, pen);
    }
}

impl Text for u32 {
    ghost text = { digits };

    fn put(self, pen: &mut Pen<'_>) {
        u64::from(self).put(pen);
    }
}

// With its minus sign.
impl Text for i64 {
    ghost text = { signed };

    fn put(self, pen: &mut Pen<'_>) {
        if self < 0 {
            ("-", self.unsigned_abs()).put(pen);
        } else {
            self.unsigned_abs().put(pen);
        }
    }
}

// A text and a line feed, at the start of a lent buffer. Answers how many bytes there was room for.
pub(crate) fn write_line<T: Text>(text: T, buffer: &mut [u8]) -> usize
    ensures { Written (line (T.text text)) buffer.old buffer.new result }
{
    let mut pen = Pen {
        room: buffer,
        at: 0,
    };
    (text, "\n").put(&mut pen);
    pen.at
}
