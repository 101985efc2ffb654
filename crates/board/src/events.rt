// Events on an image: the state's parts are read from it, the dispatcher hears the event on them, and what has changed is written back. No `State` is made for an event.
ghost use Rattle.std.specs.Prelude.{◌≡◌};
ghost use Rattle.board.specs.Answer.{event_answer};
ghost use Rattle.board.specs.Kept.{image_kept, heard_said, Hears};
ghost use Rattle.board.specs.Calls.{ReleaseLeaves, StepLeaves, StartLeaves};

use crate::answer::Answer;
use crate::image;
use crate::places::{IMAGE, LENGTH_AT};
use dispatch::{Outcome, Refusal, State};
use machine::Kept;
use table::limits::ROOM;

// What the dispatcher answers, written back: "the state comes back equal" of a refusal, which leaves the image as it lies. An accepted event leaves what is kept now.
fn keep(image: &mut [u64; IMAGE], heard: Result<Outcome, Refusal>) -> Answer
    ensures image { image.new ≡ image_kept image.old heard }
    ensures answer { result.numbers ≡ event_answer (heard_said heard) }
{
    match heard {
        Ok(outcome) => {
            image::put_kept(image, &outcome.kept);
            Answer::from(outcome.accepted)
        }
        Err(refusal) => Answer::from(refusal),
    }
}

// An event on the parts that are read from an image, and what the dispatcher answers to it, written back.
fn hear<F: FnOnce(&[u32; ROOM], usize, Kept) -> Result<Outcome, Refusal>>(
    image: &mut [u64; IMAGE],
    event: F,
) -> Answer
    requires { F.IsAlwaysCallable event }
    ensures { Hears F.FnOnce event image.old image.new result.numbers }
{
    let words = image::words_of(image);
    let used = image[LENGTH_AT] as usize;
    let kept = image::kept_of(image);
    keep(image, event(&words, used, kept))
}

// A release of a task at a time.
pub(crate) fn release(image: &mut [u64; IMAGE], task: u32, time: u64) -> Answer
    ensures { ReleaseLeaves image.old task time image.new result.numbers }
{
    hear(image, |words, used, kept| {
        dispatch::event::release(words, used, kept, task, time)
    })
}

// The running job's next step at a time.
pub(crate) fn step(image: &mut [u64; IMAGE], time: u64) -> Answer
    ensures { StepLeaves image.old time image.new result.numbers }
{
    hear(image, |words, used, kept| {
        dispatch::event::step(words, used, kept, time)
    })
}

// A start, from a list of words.
pub(crate) fn start(words: &[u32], image: &mut [u64; IMAGE]) -> Answer
    ensures { StartLeaves words.now image.new result.numbers }
{
    let begun = State::start(words);
    image::put_state(image, &begun.state);
    Answer::from(begun.finding)
}
