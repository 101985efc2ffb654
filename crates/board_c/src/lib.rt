// What a controller links: the five calls of `board`, as C functions over numbers, a slice and two arrays of fixed length. Each calls the function of its name there and
// states its promises again, since a library exports nothing to C.
#![tactic(auto)]

ghost use Rattle.std.specs.Prelude.{◌≡◌};
ghost use Rattle.board.specs.Calls.{first_number, found_answer, judged_answer, release_answer, step_answer, start_answer, ReleaseLeaves, StepLeaves, StartLeaves};

use board::{ANSWER, IMAGE};

// The check of a list of words: 0, or a refusal's number and its place.
#[unsafe(no_mangle)]
pub extern "C" fn lawqendo_check(words: &[u32], answer: &mut [u64; ANSWER]) -> u64
    ensures { (answer.new ≡ found_answer words.now) × (result ≡ first_number (found_answer words.now)) }
{
    board::lawqendo_check(words, answer)
}

// A start from a list of words: 0 and the image of a fresh state, or a refusal's number and its place and an image of zeros.
#[unsafe(no_mangle)]
pub extern "C" fn lawqendo_start(
    words: &[u32],
    image: &mut [u64; IMAGE],
    answer: &mut [u64; ANSWER],
) -> u64
    ensures { StartLeaves words.now image.new answer.new × (result ≡ first_number (start_answer words.now)) }
{
    board::lawqendo_start(words, image, answer)
}

// A release of a task at a time: 0 and who runs, or a refusal's number and the image as it was.
#[unsafe(no_mangle)]
pub extern "C" fn lawqendo_release(
    image: &mut [u64; IMAGE],
    task: u32,
    time: u64,
    answer: &mut [u64; ANSWER],
) -> u64
    ensures { ReleaseLeaves image.old task time image.new answer.new × (result ≡ first_number (release_answer image.old task time)) }
{
    board::lawqendo_release(image, task, time, answer)
}

// The running job's next step at a time: 0 and who runs; 64, a lateness and who runs; or a refusal's number and the image as it was.
#[unsafe(no_mangle)]
pub extern "C" fn lawqendo_step(
    image: &mut [u64; IMAGE],
    time: u64,
    answer: &mut [u64; ANSWER],
) -> u64
    ensures { StepLeaves image.old time image.new answer.new × (result ≡ first_number (step_answer image.old time)) }
{
    board::lawqendo_step(image, time, answer)
}

// The verdict on a list of words: 20 FITS, 21 LATE with its t, 22 HEAVY, 23 LONG, or a refusal's number and its place.
#[unsafe(no_mangle)]
pub extern "C" fn lawqendo_verdict(words: &[u32], answer: &mut [u64; ANSWER]) -> u64
    ensures { (answer.new ≡ judged_answer words.now) × (result ≡ first_number (judged_answer words.now)) }
{
    board::lawqendo_verdict(words, answer)
}
