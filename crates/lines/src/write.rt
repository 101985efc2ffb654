// Answers as bytes. Each call writes one line, its line feed included, at the start of the buffer that it is lent, as much of it as there is room for, and answers
// how many bytes that is.
ghost use Rattle.dispatch.specs.Heard.{reply_said};
ghost use Rattle.table.specs.Said.{said_of};
ghost use Rattle.verdict.specs.Said.{verdict_said};
ghost use Rattle.text.specs.Bytes.{bytes};
ghost use Rattle.text.specs.Room.{Written};
ghost use Rattle.lines.specs.Lines.{line, finding_text, reply_text, verdict_text, wrong_text, clock_text, job_text};

use crate::Doing;
use crate::pen::write_line;
use crate::texts::{Checked, JobLine};
use dispatch::{Accepted, Refusal};
use table::Finding;
use text::Fault;
use verdict::Verdict;

// The reply to an event.
pub fn write_reply(reply: Result<Accepted, Refusal>, buffer: &mut [u8]) -> usize
    ensures { Written (line (reply_text (reply_said reply))) buffer.old buffer.new result }
{
    write_line(reply, buffer)
}

// The answer to `check`. It and the next differ in one word, and docs/PROMISES.md promises each by name; they share `Checked`.
pub fn write_finding(finding: Result<(), Finding>, buffer: &mut [u8]) -> usize
    ensures { Written (line (finding_text (bytes "sound") (said_of finding))) buffer.old buffer.new result }
{
    let sound = Checked {
        passes: "sound",
        finding,
    };
    write_line(sound, buffer)
}

// The answer to `start`.
pub fn write_started(finding: Result<(), Finding>, buffer: &mut [u8]) -> usize
    ensures { Written (line (finding_text (bytes "started") (said_of finding))) buffer.old buffer.new result }
{
    let started = Checked {
        passes: "started",
        finding,
    };
    write_line(started, buffer)
}

// The answer to `verdict`.
pub fn write_verdict(verdict: Result<Verdict, Finding>, buffer: &mut [u8]) -> usize
    ensures { Written (line (verdict_text (verdict_said verdict))) buffer.old buffer.new result }
{
    write_line(verdict, buffer)
}

// The answer to a line that is no command, with the line's number.
pub fn write_wrong(number: u64, fault: Fault, buffer: &mut [u8]) -> usize
    ensures { Written (line (wrong_text number fault)) buffer.old buffer.new result }
{
    write_line(((("line ", number), ": "), fault), buffer)
}

// The first line of `show`.
pub fn write_clock(time: u64, buffer: &mut [u8]) -> usize
    ensures { Written (line (clock_text time)) buffer.old buffer.new result }
{
    write_line(("clock ", time), buffer)
}

// A job's line of `show`. The promise of `write_job` names each number, so each stays a parameter.
pub fn write_job(
    task: u32,
    base: u64,
    active: u64,
    number: u64,
    held: u32,
    doing: Doing,
    buffer: &mut [u8],
) -> usize
    ensures { Written (line (job_text task base active number held doing)) buffer.old buffer.new result }
{
    let job = JobLine {
        task,
        base,
        active,
        number,
        held,
        doing,
    };
    write_line(job, buffer)
}
