// A state read from its image, and written into it.
ghost use Rattle.std.specs.Prelude.{◌≡◌, ◌++◌, ◌+◌, ◌*◌, ◌<◌, ◌≤◌, length, take, drop, slice_index};
ghost use Rattle.table.specs.Limits.{most_tasks};
ghost use Rattle.board.specs.Image.{length_at, clock_at, rows_at, row_size, unpacked, packed, job_in, jobs_in, decode, job_cells, row_cells, kept_cells, encode};

use crate::places::{
    CLOCK_AT, COUNT_AT, HAD_AT, HALF, IMAGE, LENGTH_AT, PACKED, READY_AT, ROWS_AT,
};
use dispatch::State;
use machine::places::{ACTIVE_AT, BASE_AT, LAST_AT, NUMBER_AT, PLACE_AT, ROW_SIZE, SAVED_AT};
use machine::{Job, Kept};
use std::array::from_fn;
use table::limits::{ROOM, TASKS};

// The words of the table, two in each number, the first in the low half. By pairs: a word at a time (`from_fn`) takes an event on a short table three times the
// instructions.
pub(crate) fn words_of(image: &[u64; IMAGE]) -> [u32; ROOM]
    ensures { result ≡ unpacked (take length_at image.now) }
{
    let mut words = [0; ROOM];
    for (k, pair) in image[..PACKED].iter().enumerate() {
        words[2 * k] = (*pair % HALF) as u32;
        words[2 * k + 1] = (*pair / HALF) as u32;
    }
    words
}

// A row's numbers, from the start of what is lent.
fn job_of(row: &[u64]) -> Job
    requires { row_size ≤ length row.now }
    ensures { result ≡ job_in row.now }
{
    Job {
        base: row[BASE_AT],
        active: row[ACTIVE_AT],
        number: row[NUMBER_AT],
        place: (row[PLACE_AT] % HALF) as u32,
        saved: from_fn(|depth| row[SAVED_AT + depth]),
        last: row[LAST_AT],
    }
}

// The row of a task.
#[tactic(auto, using(crate::proofs::Parts::lent_from))]
fn job_at(image: &[u64; IMAGE], task: usize) -> Job
    requires { task < most_tasks }
    ensures { result ≡ job_in (drop (rows_at + row_size * task) image.now) }
{
    job_of(&image[ROWS_AT + ROW_SIZE * task..])
}

// The rows, one for each task that a table may have.
fn rows_of(image: &[u64; IMAGE]) -> [Job; TASKS]
    ensures { result ≡ jobs_in most_tasks (drop rows_at image.now) }
{
    from_fn(|task| job_at(image, task))
}

// What is kept, of the state that an image is.
#[tactic(auto, unfolding(crate::specs::Image::decode))]
pub(crate) fn kept_of(image: &[u64; IMAGE]) -> Kept
    ensures { result ≡ (decode image.now).kept }
{
    Kept {
        clock: image[CLOCK_AT],
        count: image[COUNT_AT],
        ready: (image[READY_AT] % HALF) as u32,
        had: (image[HAD_AT] % HALF) as u32,
        rows: rows_of(image),
    }
}

// A row's numbers, at the start of what is lent.
fn put_job(row: &mut [u64], job: &Job)
    requires { row_size ≤ length row.old }
    ensures { row.new ≡ job_cells job.now ++ drop row_size row.old }
{
    row[BASE_AT] = job.base;
    row[ACTIVE_AT] = job.active;
    row[NUMBER_AT] = job.number;
    row[PLACE_AT] = u64::from(job.place);
    row[SAVED_AT..LAST_AT].copy_from_slice(&job.saved);
    row[LAST_AT] = job.last;
}

// The row of a task.
fn put_at(image: &mut [u64; IMAGE], task: usize, job: &Job)
    requires { task < most_tasks }
    ensures { let at = rows_at + row_size * task in image.new ≡ take at image.old ++ (job_cells job.now ++ drop (at + row_size) image.old) }
{
    put_job(&mut image[ROWS_AT + ROW_SIZE * task..], job);
}

// The rows, one for each task that a table may have.
fn put_rows(image: &mut [u64; IMAGE], rows: &[Job; TASKS])
    ensures { image.new ≡ take rows_at image.old ++ row_cells rows.now }
{
    for (task, job) in rows.iter().enumerate() {
        put_at(image, task, job);
    }
}

// What an event changes. The words and their length stay as they lie.
pub(crate) fn put_kept(image: &mut [u64; IMAGE], kept: &Kept)
    ensures { image.new ≡ take clock_at image.old ++ kept_cells kept.now }
{
    image[CLOCK_AT] = kept.clock;
    image[COUNT_AT] = kept.count;
    image[READY_AT] = u64::from(kept.ready);
    image[HAD_AT] = u64::from(kept.had);
    put_rows(image, &kept.rows);
}

// Two words in a number.
#[tactic(auto, using(crate::proofs::Parts::packed_at))]
fn pair_at(words: &[u32; ROOM], k: usize) -> u64
    requires { k < length_at }
    ensures { result ≡ slice_index (packed words.now) k }
{
    u64::from(words[2 * k]) + u64::from(words[2 * k + 1]) * HALF
}

// The words, two in each number.
fn pairs_of(words: &[u32; ROOM]) -> [u64; PACKED]
    ensures { result ≡ packed words.now }
{
    from_fn(|k| pair_at(words, k))
}

// The whole state.
pub(crate) fn put_state(image: &mut [u64; IMAGE], state: &State)
    ensures { image.new ≡ encode state.now }
{
    image[..PACKED].copy_from_slice(&pairs_of(&state.words));
    image[LENGTH_AT] = state.length as u64;
    put_kept(image, &state.kept);
}
