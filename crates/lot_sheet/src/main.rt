// The office's program (document 02, W2): a lot book on standard input, its sheet on standard
// output. Where there is no sheet, nothing is written there, and a message on standard error.
//     office     what is told of a book
//     print      the sheet, or the message
// The book's buffer has one byte more than a book may have: a book that fills it is too long. A
// record has four bytes or more, so the text has room for the lines of all records that the longest
// book can have.
#![tactic(auto)]

mod office;
mod print;

ghost use Rattle.std.specs.Prelude.{◌≡◌, length};
ghost use Rattle.input.specs.Reading.{Parts};

use input::Part;
use std::io::{Result, Stderr, Stdout};

// Prints the sheet of a book that was read so, or a message.
fn answer(out: Stdout, messages: Stderr, book: &[u8], part: Part) -> Result<()>
    requires { (length book.now ≡ 65537) × Parts (length book.now) part }
{
    let mut text = [0u8; 802865];
    let told = office::tell(book, part, &mut text);
    print::say(out, messages, told, &text)
}

fn main(rt: HostRuntime) -> Result<()> {
    let mut source = rt.stdin();
    let mut book = [0u8; 65537];
    match input::fill(&mut source, &mut book) {
        Ok(part) => answer(rt.stdout(), rt.stderr(), &book, part),
        Err(failure) => eprintln!(rt; "{failure}"),
    }
}
