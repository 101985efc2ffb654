// A whole script: from standard input, in pieces of any size, to standard output. No contract can say what is read or written, so these functions promise
// that they are safe and end; the answer to each line is `answer::answer`'s, which has a promise. A read that fails counts as the end, and a write that fails ends
// the run with its error.
ghost use Rattle.std.specs.Prelude.{◌+◌, ◌≤◌};
ghost use Rattle.player.specs.declared.limits.TheConstants.{LINE, MOST_ANSWER, PIECE};

use crate::Session;
use crate::answer::{answer, session};
use crate::limits::{LINE, MOST_ANSWER, PIECE};
use std::io;
use std::io::Read;
use text::room::put_all;

// What is kept between the pieces: the session, what has come of a line, and the answers that are to be written out. There is always room for one more answer.
// Fixed memory: no heap, so each of the two buffers is an array with how much of it is filled beside it.
#[derive(Drop)]
struct Feed<'a, R> {
    rt: &'a R,
    session: Session,
    line: [u8; LINE],
    come: usize,
    out: [u8; PIECE],
    filled: usize,
    ghost line_fits: { come ≤ LINE },
    ghost answer_has_room: { filled + MOST_ANSWER ≤ PIECE },
}

impl<'a, R: Print> Feed<'a, R> {
    // Nothing has come.
    fn new(rt: &'a R) -> Feed<'a, R> {
        Feed {
            rt,
            session: session(),
            line: [0; LINE],
            come: 0,
            out: [0; PIECE],
            filled: 0,
        }
    }

    // Puts a part of a piece behind what has come of a line. A line that has filled its room is too long already, so a byte that has no room is dropped.
    #[tactic(auto, using(text::proofs::Lay::laid_within))]
    fn add(&mut self, part: &[u8]) {
        self.come = put_all(&mut self.line, self.come, part);
    }

    // Answers a line that has come whole, and writes out what is there, unless there is room for one more answer.
    fn line_done(&mut self) -> io::Result<()> {
        let answered = answer(
            self.session,
            &self.line[..self.come],
            &mut self.out[self.filled..],
        );
        let filled = self.filled + answered.bytes;
        self.session = answered.session;
        self.come = 0;
        if filled + MOST_ANSWER <= PIECE {
            self.filled = filled;
        } else {
            self.filled = 0;
            self.rt.write_all(&self.out[..filled])?;
        }
        Ok(())
    }

    // Takes a piece of the script: answers every line that ends in it, and keeps the rest.
    fn take(&mut self, piece: &[u8]) -> io::Result<()> {
        for part in piece.split_inclusive(|byte| *byte == b'\n') {
            match part.strip_suffix(b"\n") {
                Some(rest) => {
                    self.add(rest);
                    self.line_done()?;
                }
                None => self.add(part),
            }
        }
        Ok(())
    }

    // The end: a last line without a line feed is a line.
    fn end(&mut self) -> io::Result<()> {
        if 0 < self.come {
            self.line_done()?;
        }
        self.rt.write_all(&self.out[..self.filled])
    }
}

// Plays the script on standard input: reads, answers and writes out, piece by piece. A proved loop has to end, and nothing says that the input does: so the loop
// counts its turns, up to a number that no run reaches.
pub fn play<R: Input + Print>(rt: &R) -> io::Result<()> {
    let mut feed = Feed::new(rt);
    let mut piece = [0u8; PIECE];
    let mut input = rt.reader();
    for _ in 0..u64::MAX {
        // A read that fails counts as the end.
        let got = input.read(&mut piece).unwrap_or(0);
        if got == 0 {
            break;
        }
        feed.take(&piece[..got])?;
    }
    feed.end()
}
