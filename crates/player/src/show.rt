// `show`: the clock, and a line for each ready job.
ghost use Rattle.std.specs.Prelude.{◌≡◌};
ghost use Rattle.table.specs.Table.{task_of};
ghost use Rattle.table.specs.Limits.{most_tasks};
ghost use Rattle.table.specs.Map.{table_at, map_of};
ghost use Rattle.readers.specs.Read.{table_in};
ghost use Rattle.text.specs.Room.{Written};
ghost use Rattle.player.specs.Show.{doing_at, row_text, ready_text, jobs_text, lines_text, show_text};

use dispatch::State;
use lines::Doing;
use lines::write::{write_clock, write_job};
use machine::{Job, Kept};
use readers::Table;
use table::Next;
use table::check::map_of;

// What a job does next.
fn doing(table: &Table<'_>, task: u32, place: u32) -> Doing
    ensures { result ≡ doing_at (task_of (table_in table.now) task).plan place }
{
    match table.next(task, place) {
        Next::Lock(resource, _) => Doing::Lock(resource),
        Next::Unlock => Doing::Unlock(table.innermost(task, place)),
        Next::Finish => Doing::Finish,
    }
}

// A job's line.
fn row(table: &Table<'_>, task: u32, job: Job, out: &mut [u8]) -> usize
    ensures { Written (row_text task (task_of (table_in table.now) task).plan job) out.old out.new result }
{
    let held = table.held(task, job.place);
    let next = doing(table, task, job.place);
    write_job(task, job.base, job.active, job.number, held, next, out)
}

// The line of a ready job. A state that is made up may have a ready job without a row; it has no line.
fn ready(table: &Table<'_>, kept: &Kept, task: u32, out: &mut [u8]) -> usize
    ensures { Written (ready_text (table_in table.now) kept.now task) out.old out.new result }
{
    match kept.rows.get(task as usize) {
        Some(job) => row(table, task, *job, out),
        None => 0,
    }
}

// The lines of the ready jobs, by rising task number.
fn jobs(table: &Table<'_>, kept: &Kept, out: &mut [u8]) -> usize
    ensures { Written (jobs_text most_tasks 0 (table_in table.now) kept.now) out.old out.new result }
{
    let mut at = 0;
    for task in sets::members(kept.ready) {
        at += ready(table, kept, task, &mut out[at..]);
    }
    at
}

// All the lines, by the words of the state's table.
fn lines(words: &[u32], kept: &Kept, out: &mut [u8]) -> usize
    ensures { Written (lines_text (table_at words.now (map_of words.now)) kept.now) out.old out.new result }
{
    let table = Table {
        words,
        map: map_of(words),
    };
    let at = write_clock(kept.clock, out);
    at + jobs(&table, kept, &mut out[at..])
}

// The clock, and a line for each ready job.
#[tactic(auto, unfolding(crate::specs::Show::show_text))]
pub fn show(state: State, out: &mut [u8]) -> usize
    ensures { Written (show_text state) out.old out.new result }
{
    lines(
        state.words.get(..state.length).unwrap_or(&state.words),
        &state.kept,
        out,
    )
}
