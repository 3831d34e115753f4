// A line of a case, read: what it asks, and of which image. What a line says: specs/, and crates/run_cases, src/main.rt.
#![tactic(auto)]

ghost use Rattle.std.specs.Prelude.{◌≤◌, ◌↔◌, length, IfNone, IfSome, IsTrue};
ghost use Rattle.case_lines.specs.declared.Case.{Case};
ghost use Rattle.case_lines.specs.Lines.{IsPassedOver, Says};

use case_bytes::bytes_at;
use case_words::{Question, asked_by, question_of};
use lines::numbers::{Numbers, numbers_at};
use lines::places::first_from;

// A question, its numbers, and the bytes of its image.
#[derive(Drop)]
pub struct Case<'a> {
    pub question: Question,
    pub numbers: Numbers,
    pub image: &'a [u8],
}

// A line that is no case: it is empty, or a remark.
pub fn passed_over(line: &[u8]) -> bool
    ensures { IsTrue result ↔ IsPassedOver line.now }
{
    line.is_empty() || line.starts_with(b"#")
}

// The case whose question starts at a place of a line; its image, which ends with the line, goes into the room that is
// lent. None where the line cannot be read.
pub fn case_at<'a>(line: &[u8], start: usize, room: &'a mut [u8]) -> Option<Case<'a>>
    ensures within { IfSome result (λ case. length case.image.now ≤ length room.old) }
    ensures said { IfSome result (λ case. Says line.now start (length room.old) case) }
    ensures unsaid { IfNone result ((case : Case) → ¬ (Says line.now start (length room.old) case)) }
{
    if line.len() <= start {
        return None;
    }
    let end = first_from(line, start + 1, b' ');
    let question = question_of(&line[start..end])?;
    let numbers = numbers_at(line, end, asked_by(question))?;
    let read = bytes_at(line, numbers.end, room);
    if read.end != line.len() {
        return None;
    }
    Some(Case {
        question,
        numbers,
        image: &room[..read.count],
    })
}
