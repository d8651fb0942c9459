// The fitters' program: a book on standard input, its tree as plain text or its refusal on standard output.
#![tactic(auto)]

ghost use Rattle.std.specs.Prelude.{◌≡◌, length};

use std::io;
use std::io::Write;

// Room for the text of any tree: a function, because the check runs out of stack where so long an array stands beside a call.
fn text_room() -> [u8; 4194304]
    ensures { 4194304 ≡ length result }
{
    [0u8; 4194304]
}

fn print_listing(out: &mut impl Write, words: &[u32]) -> io::Result<()> {
    let mut text = text_room();
    match listing::list(words, &mut text) {
        Ok(n) => out.write_all(&text[..n]),
        Err(refusal) => writeln!(out, "refused {refusal}"),
    }
}

fn answer(out: &mut impl Write, book: &[u8]) -> io::Result<()> {
    let mut room = [0u32; 131072];
    match plan::plan(book, &mut room) {
        Ok(n) => print_listing(out, &room[..n]),
        Err(refusal) => writeln!(out, "refused {refusal}"),
    }
}

fn main(rt: HostRuntime) -> io::Result<()> {
    let mut out = io::writer(&rt);
    let mut input = rt.reader();
    let mut book = [0u8; console::MOST_BYTES];
    if let Some(n) = console::read_book(&mut out, &mut input, &mut book)? {
        answer(&mut out, &book[..n])?;
    }
    Ok(())
}
