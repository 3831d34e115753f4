// A case's question, put to the proved libraries, and the answer told to a writer, for the program that runs the cases; a
// listing: crates/listing_answers.
#![tactic(auto)]

use std::io;
use std::io::Write;
use telling::tell_refusal;
use times::Timing;

// The hyperperiod of an image.
pub fn ask_image<W: Write>(out: &mut W, image: &[u8]) -> io::Result<()> {
    match first_line::hyperperiod(image) {
        Ok(ticks) => write!(out, " hyperperiod {ticks}"),
        Err(refused) => tell_refusal(out, refused),
    }
}

// The points of two tasks of an image.
pub fn ask_points<W: Write>(
    out: &mut W,
    image: &[u8],
    writer: u32,
    reader: u32,
    n: u32,
) -> io::Result<()> {
    match questions::points(image, u64::from(writer), u64::from(reader), u64::from(n)) {
        Ok(points) => write!(out, " {} {}", points.publishing, points.reading),
        Err(refused) => tell_refusal(out, refused),
    }
}

// The ages of a chain of an image: paths, longest, worst, best, jitter.
pub fn ask_ages<W: Write>(out: &mut W, image: &[u8], chain: u32) -> io::Result<()> {
    match questions::ages(image, u64::from(chain)) {
        Ok(ages) => write!(
            out,
            " {} {} {} {} {}",
            ages.paths, ages.longest, ages.worst, ages.best, ages.jitter
        ),
        Err(refused) => tell_refusal(out, refused),
    }
}

// The points of two periods, without an image.
pub fn ask_directly<W: Write>(
    out: &mut W,
    writer_period: u32,
    reader_period: u32,
    n: u32,
) -> io::Result<()> {
    let writer = Timing {
        period: writer_period,
    };
    let reader = Timing {
        period: reader_period,
    };
    let publishing = numbered_points::publishing(writer, reader, n);
    let reading = numbered_points::reading(writer, reader, n);
    write!(out, " {publishing} {reading}")
}
