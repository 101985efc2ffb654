// Answers as five numbers: document 01's number or what was accepted, a value with it, and who runs.
ghost use Rattle.std.specs.Prelude.{◌≡◌};
ghost use Rattle.machine.specs.Reply.{refused};
ghost use Rattle.table.specs.Said.{refusal_said, said_of};
ghost use Rattle.dispatch.specs.Heard.{number_of, turn_said, accepted_said};
ghost use Rattle.verdict.specs.Said.{verdict_said};
ghost use Rattle.board.specs.Answer.{turn_answer, event_answer, check_answer, verdict_answer};

use crate::places::ANSWER;
use dispatch::{Accepted, Refusal, Turn};
use table::Finding;
use verdict::Verdict;

// The list is sound, the state is started, the event is accepted. A number and no enum, for it is what C reads.
const ACCEPTED: u64 = 0;

// The event is accepted, and a job has finished with a lateness. No number of document 01 is 64.
const FINISHED: u64 = 64;

// The five numbers.
#[derive(Clone, Copy)]
pub(crate) struct Answer {
    pub numbers: [u64; ANSWER],
}

impl Answer {
    // A number and a value, and who runs: "'runs' with task number and active deadline, or 'idle'".
    fn new(number: u64, value: u64, turn: Option<Turn>) -> Answer
        ensures { result.numbers ≡ turn_answer number value (turn_said turn) }
    {
        let numbers = match turn {
            Some(turn) => [number, value, 1, u64::from(turn.task), turn.deadline],
            None => [number, value, 0, 0, 0],
        };
        Answer { numbers }
    }
}

// What an event answers that is accepted: of a finish its lateness, in two's complement.
impl From<Accepted> for Answer {
    ghost from_gives = { λ accepted answer. answer.numbers ≡ event_answer (accepted_said accepted) };

    fn from(accepted: Accepted) -> Answer {
        match accepted.late {
            Some(late) => Answer::new(FINISHED, late.cast_unsigned(), accepted.turn),
            None => Answer::new(ACCEPTED, 0, accepted.turn),
        }
    }
}

// What an event answers that is turned away: "the number alone".
impl From<Refusal> for Answer {
    ghost from_gives = { λ refusal answer. answer.numbers ≡ event_answer (refused (number_of refusal)) };

    fn from(refusal: Refusal) -> Answer {
        Answer::new(u64::from(refusal.number()), 0, None)
    }
}

// A refusal of the check: "its number and place".
impl From<Finding> for Answer {
    ghost from_gives = { λ finding answer. answer.numbers ≡ check_answer (refusal_said finding) };

    fn from(finding: Finding) -> Answer {
        Answer::new(u64::from(finding.number()), finding.place() as u64, None)
    }
}

// What the check answers.
impl From<Result<(), Finding>> for Answer {
    ghost from_gives = { λ finding answer. answer.numbers ≡ check_answer (said_of finding) };

    fn from(finding: Result<(), Finding>) -> Answer {
        match finding {
            Ok(()) => Answer::new(ACCEPTED, 0, None),
            Err(finding) => Answer::from(finding),
        }
    }
}

// What the verdict says.
impl From<Result<Verdict, Finding>> for Answer {
    ghost from_gives = { λ verdict answer. answer.numbers ≡ verdict_answer (verdict_said verdict) };

    fn from(verdict: Result<Verdict, Finding>) -> Answer {
        match verdict {
            Ok(verdict) => Answer::new(u64::from(verdict.number()), verdict.value(), None),
            Err(finding) => Answer::from(finding),
        }
    }
}
