// The texts of docs/SCRIPT.md, as specs/Lines.antt has them.
ghost use Rattle.std.specs.Prelude.{◌≡◌, ℕ, Ok, Err};
ghost use Rattle.numbers.specs.Answers.{name_of};
ghost use Rattle.table.specs.Said.{refusal_said as finding_said, said_of, number_in as finding_number, place_in};
ghost use Rattle.dispatch.specs.Heard.{number_of, turn_said, accepted_said, reply_said};
ghost use Rattle.verdict.specs.Verdict.{number_in as verdict_number};
ghost use Rattle.verdict.specs.Said.{verdict_said};
ghost use Rattle.text.specs.Bytes.{bytes};
ghost use Rattle.lines.specs.Lines.{named_text, refused_text, placed_text, finding_text, turn_text, reply_text, verdict_text, fault_text, held_text, each_text, doing_text, job_text};
ghost use Rattle.lines.specs.Puts.{Puts};
ghost use Rattle.sets.specs.Member.{width, members};

use crate::Doing;
use crate::pen::{Pen, Text};
use dispatch::{Accepted, Refusal, Turn};
use table::Finding;
use text::Fault;
use verdict::Verdict;

// What document 01 has a number and a name for.
pub(crate) trait Named {
    ghost number: { Self → ℕ };

    fn number(self) -> u32
        ensures { result ≡ number self };

    fn name(self) -> &'static str
        ensures { result.now ≡ bytes (name_of (number self)) };
}

impl Named for Finding {
    ghost number = { λ finding. finding_number (finding_said finding) };

    fn number(self) -> u32 {
        Finding::number(self)
    }

    fn name(self) -> &'static str {
        match self {
            Finding::Short(_) => "SHORT",
            Finding::Count(_) => "COUNT",
            Finding::Range(_) => "RANGE",
            Finding::Step(_) => "STEP",
            Finding::Nest(_) => "NEST",
            Finding::Crowded(_) => "CROWDED",
        }
    }
}

impl Named for Refusal {
    ghost number = { number_of };

    fn number(self) -> u32 {
        Refusal::number(self)
    }

    fn name(self) -> &'static str {
        match self {
            Refusal::Torn => "TORN",
            Refusal::Back => "BACK",
            Refusal::End => "END",
            Refusal::Nobody => "NOBODY",
            Refusal::Active => "ACTIVE",
            Refusal::Early => "EARLY",
            Refusal::Held => "HELD",
        }
    }
}

impl Named for Verdict {
    ghost number = { λ verdict. verdict_number (verdict_said (Ok verdict)) };

    fn number(self) -> u32 {
        Verdict::number(self)
    }

    fn name(self) -> &'static str {
        match self {
            Verdict::Fits => "FITS",
            Verdict::Late(_) => "LATE",
            Verdict::Heavy => "HEAVY",
            Verdict::Long => "LONG",
        }
    }
}

// A number and its name: `7 BACK`.
#[derive(Clone, Copy)]
struct NumberAndName<N>(N);

impl<N: Named + Copy> Text for NumberAndName<N> {
    ghost text = { λ it. named_text (N.number it.0) };

    fn put(self, pen: &mut Pen<'_>) {
        ((self.0.number(), " "), self.0.name()).put(pen);
    }
}

impl Text for Refusal {
    ghost text = { λ refusal. refused_text (number_of refusal) };

    fn put(self, pen: &mut Pen<'_>) {
        ("refused ", NumberAndName(self)).put(pen);
    }
}

// A refusal of the check, with its place.
impl Text for Finding {
    ghost text = { λ finding. placed_text (finding_number (finding_said finding)) (place_in (finding_said finding)) };

    fn put(self, pen: &mut Pen<'_>) {
        (
            ("refused ", NumberAndName(self)),
            (" at ", self.place() as u64),
        )
            .put(pen);
    }
}

// What the check answers, and what is said of a list that passes.
#[derive(Clone, Copy)]
pub(crate) struct Checked<'a> {
    pub passes: &'a str,
    pub finding: Result<(), Finding>,
}

impl Text for Checked<'_> {
    ghost text = { λ checked. finding_text checked.passes.now (said_of checked.finding) };

    fn put(self, pen: &mut Pen<'_>) {
        match self.finding {
            Ok(()) => self.passes.put(pen),
            Err(finding) => finding.put(pen),
        }
    }
}

// Who runs.
impl Text for Option<Turn> {
    ghost text = { λ turn. turn_text (turn_said turn) };

    fn put(self, pen: &mut Pen<'_>) {
        match self {
            Some(turn) => (("runs ", turn.task), (", ", turn.deadline)).put(pen),
            None => "idle".put(pen),
        }
    }
}

impl Text for Accepted {
    ghost text = { λ accepted. reply_text (accepted_said accepted) };

    fn put(self, pen: &mut Pen<'_>) {
        match self.late {
            Some(late) => ((("lateness ", late), "; "), self.turn).put(pen),
            None => self.turn.put(pen),
        }
    }
}

// A reply, and what is said of a table's timing: what is accepted and what is refused each have a text.
impl<A: Text, E: Text> Text for Result<A, E> {
    ghost text = { elim [ Ok x ↦ A.text x | Err e ↦ E.text e ] };

    fn put(self, pen: &mut Pen<'_>) {
        match self {
            Ok(x) => x.put(pen),
            Err(e) => e.put(pen),
        }
    }
}

// What is said of a table's timing.
impl Text for Verdict {
    ghost text = { λ verdict. verdict_text (verdict_said (Ok verdict)) };

    fn put(self, pen: &mut Pen<'_>) {
        match self {
            Verdict::Late(t) => (NumberAndName(self), (" ", t)).put(pen),
            _ => NumberAndName(self).put(pen),
        }
    }
}

// What is wrong with a line.
impl Text for Fault {
    ghost text = { fault_text };

    fn put(self, pen: &mut Pen<'_>) {
        match self {
            Fault::Unknown => "unknown word".put(pen),
            Fault::Missing => "number missing".put(pen),
            Fault::Malformed => "malformed number".put(pen),
            Fault::Large => "number too large".put(pen),
            Fault::LeftOver => "something left over".put(pen),
            Fault::TooLong => "line too long".put(pen),
        }
    }
}

// The members of a set, a blank before each.
fn put_members(held: u32, pen: &mut Pen<'_>)
    ensures { Puts (each_text (members width held)) pen.old pen.new }
{
    for k in sets::members(held) {
        (" ", k).put(pen);
    }
}

// What a job holds, as a set of resources.
#[derive(Clone, Copy)]
pub(crate) struct Held(pub u32);

impl Text for Held {
    ghost text = { λ held. held_text held.0 };

    fn put(self, pen: &mut Pen<'_>) {
        if self.0 == 0 {
            " nothing".put(pen);
        } else {
            put_members(self.0, pen);
        }
    }
}

// What a job does next.
impl Text for Doing {
    ghost text = { doing_text };

    fn put(self, pen: &mut Pen<'_>) {
        match self {
            Doing::Lock(resource) => ("lock ", resource).put(pen),
            Doing::Unlock(resource) => ("unlock ", resource).put(pen),
            Doing::Finish => "finish".put(pen),
        }
    }
}

// What `show` tells of a job.
#[derive(Clone, Copy)]
pub(crate) struct JobLine {
    pub task: u32,
    pub base: u64,
    pub active: u64,
    pub number: u64,
    pub held: u32,
    pub doing: Doing,
}

impl Text for JobLine {
    ghost text = { λ job. job_text job.task job.base job.active job.number job.held job.doing };

    fn put(self, pen: &mut Pen<'_>) {
        ("task ", self.task).put(pen);
        (": base ", self.base).put(pen);
        (", active ", self.active).put(pen);
        (", release ", self.number).put(pen);
        ", holds".put(pen);
        Held(self.held).put(pen);
        ", next ".put(pen);
        self.doing.put(pen);
    }
}
