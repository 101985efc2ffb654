// The answer to one line of a script.
ghost use Rattle.std.specs.Prelude.{◌≡◌};
ghost use Rattle.dispatch.specs.Heard.{heard_of};
ghost use Rattle.dispatch.specs.Dispatch.{start_of};
ghost use Rattle.text.specs.Bytes.{bytes};
ghost use Rattle.lines.specs.Lines.{line, reply_text};
ghost use Rattle.script.specs.declared.Command.TheVariants as command;
ghost use Rattle.text.specs.Room.{Written};
ghost use Rattle.player.specs.Play.{first_session, lent_of, counted_of, lending, with_state, session_by, answer_by, session_after, answer_to, Plays};

use crate::limits::WORDS;
use crate::show::show;
use crate::{Answered, Session};
use dispatch::{Answer, State};
use lines::write::{write_finding, write_reply, write_started, write_verdict, write_wrong};
use script::Command;
use script::read::{command_of, table_words};
use table::check::check;
use verdict::judge::verdict;

// Before any line: the empty list is the table, and the state's numbers are all zero.
#[tactic(auto, using(crate::proofs::Plays::empty_start), unfolding(crate::specs::Play::first_session))]
pub fn session() -> Session
    ensures { result ≡ first_session }
{
    Session {
        words: [0; WORDS],
        length: 0,
        state: State::start(&[]).state,
        lines: 0,
    }
}

impl Session {
    // The table that was lent last.
    fn lent(&self) -> &[u32]
        ensures { result.now ≡ lent_of self.now }
    {
        self.words.get(..self.length).unwrap_or(&self.words)
    }

    // Another table.
    fn lend(&mut self, line: &[u8])
        ensures { self.new ≡ lending self.old line.now }
    {
        self.length = table_words(line, &mut self.words);
    }

    // `start`
    fn start(&mut self, out: &mut [u8]) -> usize
        ensures session { self.new ≡ with_state self.old (start_of (lent_of self.old)).state }
        ensures answer { Written (answer_by command.Start self.old) out.old out.new result }
    {
        let started = State::start(self.lent());
        self.state = started.state;
        write_started(started.finding, out)
    }

    // What an event answered, and the state that it handed back.
    fn heard(&mut self, answer: Answer, out: &mut [u8]) -> usize
        ensures session { self.new ≡ with_state self.old (heard_of answer).state }
        ensures answer { Written (line (reply_text (heard_of answer).said)) out.old out.new result }
    {
        self.state = answer.state;
        write_reply(answer.reply, out)
    }

    // The answer to a command. The session is lent and changed where it lies: with its 7,880 bytes handed on from call to call a command took 1.4 to 3.4 times the time.
    fn obey(&mut self, command: Command, line: &[u8], out: &mut [u8]) -> usize
        ensures session { self.new ≡ session_by command self.old line.now }
        ensures answer { Written (answer_by command self.old) out.old out.new result }
    {
        match command {
            Command::Table(_) => {
                self.lend(line);
                0
            }
            Command::Check => write_finding(check(self.lent()), out),
            Command::Start => self.start(out),
            Command::Release(task, time) => self.heard(self.state.release(task, time), out),
            Command::Step(time) => self.heard(self.state.step(time), out),
            Command::Verdict => write_verdict(verdict(self.lent()), out),
            Command::Show => show(self.state, out),
        }
    }
}

// The answer to a line, as bytes at the start of `out`, and the session after it.
#[tactic(auto, unfolding(crate::specs::Play::session_after, crate::specs::Play::answer_to))]
pub fn answer(before: Session, line: &[u8], out: &mut [u8]) -> Answered
    ensures { Plays (session_after before line.now) (answer_to before line.now) out.old out.new result }
{
    let mut session = Session {
        lines: before.lines.wrapping_add(1),
        ..before
    };
    let bytes = match command_of(line) {
        Ok(Some(command)) => session.obey(command, line, out),
        Ok(None) => 0,
        Err(fault) => write_wrong(session.lines, fault, out),
    };
    Answered { session, bytes }
}
