// Document 01's cases (Numbers to test against), and further ones for the numbers that say no. The file `stdin` has a
// case on each line:
//
//     NAME: QUESTION NUMBERS IMAGE
//
// where the question is `image` (no number), `points` (writer, reader, n), `listing` (core, how many bytes are lent),
// `ages` (chain) or `directly` (two periods and n, and no image), and the image stands in hexadecimal. A line that begins
// with # is a remark. Of each case the name is printed, a colon, and what the proved libraries answer. The file `stdout`
// has what document 01 says.
#![tactic(auto)]

use answers::{ask_ages, ask_directly, ask_image, ask_points};
use case_lines::{Case, case_at, passed_over};
use case_words::Question;
use filling::fill_from;
use listing_answers::ask_listing;
use std::io;
use std::io::Write;
use telling::{complain, end_line, tell_name};

// The answer to a case's question.
fn answer<W: Write>(out: &mut W, case: &Case) -> io::Result<()> {
    let image = case.image;
    let numbers = &case.numbers;
    match case.question {
        Question::Image => ask_image(out, image),
        Question::Points => ask_points(out, image, numbers.first, numbers.second, numbers.third),
        Question::Listing => ask_listing(out, image, numbers.first, numbers.second),
        Question::Ages => ask_ages(out, image, numbers.first),
        Question::Directly => ask_directly(out, numbers.first, numbers.second, numbers.third),
    }
}

// A case is answered on a line of its own; a remark is passed over.
fn run_line<W: Write>(out: &mut W, line: &[u8]) -> io::Result<()> {
    if passed_over(line) {
        return Ok(());
    }
    let start = tell_name(out, line)?;
    let mut room = [0u8; 512];
    match case_at(line, start, &mut room) {
        Some(case) => answer(out, &case)?,
        None => complain(out)?,
    }
    end_line(out)
}

// Line after line. What follows the last line's end is empty, and passed over.
fn run_lines<W: Write>(out: &mut W, text: &[u8]) -> io::Result<()> {
    for line in text.split(|byte| *byte == b'\n') {
        run_line(out, line)?;
    }
    Ok(())
}

fn main(rt: HostRuntime) -> io::Result<()> {
    let mut text = [0u8; 16384];
    let count = fill_from(&mut rt.reader(), &mut text)?;
    run_lines(&mut io::writer(&rt), &text[..count])
}
