// What a controller links: the check, the start, the two events and the verdict, as C functions over numbers, a slice and two arrays of fixed length. A state travels as
// its image and an answer as five numbers, since C has neither our enums nor Result; nothing is kept between calls and nothing is allocated. A library exports nothing to
// C: crate `board_c` exports these by their names.
#![tactic(auto)]

mod answer;
mod events;
mod image;
mod places;

ghost use Rattle.std.specs.Prelude.{◌≡◌};
ghost use Rattle.board.specs.Calls.{first_number, found_answer, judged_answer, release_answer, step_answer, start_answer, ReleaseLeaves, StepLeaves, StartLeaves};

use answer::Answer;
pub use places::{ANSWER, IMAGE};

// The check of a list of words: 0, or a refusal's number and its place.
#[tactic(auto, unfolding(crate::specs::Calls::found_answer))]
#[unsafe(no_mangle)]
pub extern "C" fn lawqendo_check(words: &[u32], answer: &mut [u64; ANSWER]) -> u64
    ensures { (answer.new ≡ found_answer words.now) × (result ≡ first_number (found_answer words.now)) }
{
    let found = Answer::from(table::check::check(words)).numbers;
    *answer = found;
    found[0]
}

// A start from a list of words: 0 and the image of a fresh state, or a refusal's number and its place and an image of zeros.
#[unsafe(no_mangle)]
pub extern "C" fn lawqendo_start(
    words: &[u32],
    image: &mut [u64; IMAGE],
    answer: &mut [u64; ANSWER],
) -> u64
    ensures { StartLeaves words.now image.new answer.new × (result ≡ first_number (start_answer words.now)) }
{
    let begun = events::start(words, image).numbers;
    *answer = begun;
    begun[0]
}

// A release of a task at a time: 0 and who runs, or a refusal's number and the image as it was.
#[unsafe(no_mangle)]
pub extern "C" fn lawqendo_release(
    image: &mut [u64; IMAGE],
    task: u32,
    time: u64,
    answer: &mut [u64; ANSWER],
) -> u64
    ensures { ReleaseLeaves image.old task time image.new answer.new × (result ≡ first_number (release_answer image.old task time)) }
{
    let heard = events::release(image, task, time).numbers;
    *answer = heard;
    heard[0]
}

// The running job's next step at a time: 0 and who runs; 64, a lateness and who runs; or a refusal's number and the image as it was.
#[unsafe(no_mangle)]
pub extern "C" fn lawqendo_step(
    image: &mut [u64; IMAGE],
    time: u64,
    answer: &mut [u64; ANSWER],
) -> u64
    ensures { StepLeaves image.old time image.new answer.new × (result ≡ first_number (step_answer image.old time)) }
{
    let heard = events::step(image, time).numbers;
    *answer = heard;
    heard[0]
}

// The verdict on a list of words: 20 FITS, 21 LATE with its t, 22 HEAVY, 23 LONG, or a refusal's number and its place.
#[tactic(auto, unfolding(crate::specs::Calls::judged_answer))]
#[unsafe(no_mangle)]
pub extern "C" fn lawqendo_verdict(words: &[u32], answer: &mut [u64; ANSWER]) -> u64
    ensures { (answer.new ≡ judged_answer words.now) × (result ≡ first_number (judged_answer words.now)) }
{
    let judged = Answer::from(verdict::judge::verdict(words)).numbers;
    *answer = judged;
    judged[0]
}
