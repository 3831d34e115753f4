// The printing program (document 01): reads an image from standard input and prints its text, or the one line of its
// refusal. The text is made whole before anything is written, so that it goes out once and in as few writes as the
// system takes it.
#![tactic(auto)]

ghost use Rattle.std.specs.Prelude.{IfSome, OnOk};
ghost use Rattle.std.specs.Io.KnownBytes.{Appends};
ghost use Rattle.printing.specs.Printed.{printed};

use filling::fill_from;
use std::io;
use std::io::{Read, Write};

// The text of the image that a reader gives, put to a writer. Where the reader's bytes are known, and the writer says what
// it holds, the text of all of them is what is added to it. An image of any length is answered by its first 1,024 bytes:
// no field of a table lies past byte 480; so of an image that is longer than 481 bytes any more than 481 first bytes are
// answered as the whole is, at the same bit (`first_bytes_decide` in the proofs of `table`). Where a read or a write fails,
// that error is handed on, and after a failed read nothing is written.
fn print_image<R: Read, W: Write>(from: &mut R, to: &mut W) -> io::Result<()>
    ensures { OnOk result (IfSome (R.remaining from.old)
        (λ image. Appends (W.contents to.old) (W.contents to.new) (printed image))) }
{
    let mut image = [0u8; 1024];
    let mut text = whole_texts::room();
    let count = fill_from(from, &mut image)?;
    let size = whole_texts::put_text(&mut text, &image[..count]);
    to.write_all(&text[..size])
}

fn main(rt: HostRuntime) -> io::Result<()> {
    print_image(&mut rt.reader(), &mut io::writer(&rt))
}
