// A line of bytes to a command, word by word.
ghost use Rattle.std.specs.Prelude.{◌≡◌};
ghost use Rattle.script.specs.Words.{line_words};
ghost use Rattle.script.specs.Grammar.{most_word, front_of, number_first, time_first, alone, step_command, release_said, numbers_in, table_said, command_said, command_of, table_of};
ghost use Rattle.text.specs.Room.{Written, Laid};

use crate::Command;
use crate::number::{number, small_number};
use crate::words::{Words, words_of};
use text::Fault;
use text::room::put;

// The limit of docs/SCRIPT.md, as specs/Grammar.antt has it.
pub const MOST_BYTES: usize = 65_536;

// In a table it stands for nothing.
const SLASH: &[u8] = b"/";

// A task's number in front.
#[tactic(auto, unfolding(crate::specs::Grammar::number_first))]
fn task_first(words: &mut Words<'_>) -> Result<u32, Fault>
    ensures { front_of result (line_words words.new.rest.now) ≡ number_first most_word (line_words words.old.rest.now) }
{
    small_number(words.next().ok_or(Fault::Missing)?)
}

// `at T` in front.
#[tactic(auto, using(crate::proofs::Named::at), unfolding(crate::specs::Grammar::at_first, crate::specs::Grammar::number_first, crate::specs::Grammar::time_first))]
fn time_first(words: &mut Words<'_>) -> Result<u64, Fault>
    ensures { front_of result (line_words words.new.rest.now) ≡ time_first (line_words words.old.rest.now) }
{
    match words.next().ok_or(Fault::Missing)? {
        b"at" => number(words.next().ok_or(Fault::Missing)?),
        _ => Err(Fault::Unknown),
    }
}

// A command that is whole, if nothing is left over.
#[tactic(auto, unfolding(crate::specs::Grammar::alone))]
fn alone(command: Command, mut words: Words<'_>) -> Result<Command, Fault>
    ensures { result ≡ alone command (line_words words.entry.rest.now) }
{
    match words.next() {
        None => Ok(command),
        Some(_) => Err(Fault::LeftOver),
    }
}

// Behind `step`.
fn step(mut words: Words<'_>) -> Result<Command, Fault>
    ensures { result ≡ step_command (line_words words.entry.rest.now) }
{
    let time = time_first(&mut words)?;
    alone(Command::Step(time), words)
}

// Behind `release`.
fn release(mut words: Words<'_>) -> Result<Command, Fault>
    ensures { result ≡ release_said (line_words words.entry.rest.now) }
{
    let task = task_first(&mut words)?;
    let time = time_first(&mut words)?;
    alone(Command::Release(task, time), words)
}

// Behind `table`: how many words there are.
#[tactic(auto, using(crate::proofs::Entries::counted, crate::proofs::Split::few_words))]
fn table(words: Words<'_>) -> Result<Command, Fault>
    ensures { result ≡ table_said 0 (line_words words.entry.rest.now) }
{
    let mut count = 0;
    for word in words {
        if word != SLASH {
            small_number(word)?;
            count += 1;
        }
    }
    Ok(Command::Table(count))
}

// What the words of a command say: its first, and those behind it.
#[tactic(auto, using(crate::proofs::Named::commands))]
fn command(first: &[u8], words: Words<'_>) -> Result<Command, Fault>
    ensures { result ≡ command_said first.now (line_words words.entry.rest.now) }
{
    match first {
        b"table" => table(words),
        b"check" => alone(Command::Check, words),
        b"start" => alone(Command::Start, words),
        b"release" => release(words),
        b"step" => step(words),
        b"verdict" => alone(Command::Verdict, words),
        b"show" => alone(Command::Show, words),
        _ => Err(Fault::Unknown),
    }
}

// What a line says; a line without words says nothing.
#[tactic(auto, using(crate::proofs::Says::says))]
pub fn command_of(line: &[u8]) -> Result<Option<Command>, Fault>
    ensures { result ≡ command_of line.now }
{
    if MOST_BYTES < line.len() {
        return Err(Fault::TooLong);
    }
    let mut words = words_of(line);
    match words.next() {
        Some(first) => Ok(Some(command(first, words)?)),
        None => Ok(None),
    }
}

// A table's words up to the first that is no number, into the room.
fn put_numbers(words: Words<'_>, room: &mut [u32]) -> usize
    ensures { Laid (numbers_in (line_words words.entry.rest.now)) room.old 0 room.new result }
{
    let mut next = 0;
    for word in words {
        if word != SLASH {
            match small_number(word) {
                Ok(number) => next = put(room, next, number),
                Err(_) => return next,
            }
        }
    }
    next
}

// The words of the table that a line lends, into the room, as many as it has room for; a line that lends none leaves it as it is.
pub fn table_words(line: &[u8], room: &mut [u32]) -> usize
    ensures { Written (table_of line.now) room.old room.new result }
{
    let Ok(Some(Command::Table(_))) = command_of(line) else {
        return 0;
    };
    let mut words = words_of(line);
    words.next();
    put_numbers(words, room)
}
