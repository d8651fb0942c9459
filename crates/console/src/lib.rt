// What the programs share: a book on standard input, and answers on standard output.
#![tactic(auto)]

ghost use Rattle.std.specs.Prelude.{◌≤◌, IfOk, IfSome, length};

use std::io;
use std::io::{Input, Print, Read, Write};

// How many bytes a book may have.
pub const MOST_BYTES: usize = 65536;

// Fills the buffer from its front with what the input still has, and tells how many bytes came. It stays a loop: std's
// `read_to_end` needs a heap, and its `read_exact` fails on a shorter input.
pub fn read_full(input: &mut impl Read, buffer: &mut [u8]) -> io::Result<usize>
    ensures { IfOk result (λ n. n ≤ length buffer.old) }
{
    let mut n: usize = 0;
    while n < buffer.len() {
        let got = input.read(&mut buffer[n..])?;
        if got == 0 {
            return Ok(n);
        }
        n += got;
    }
    Ok(n)
}

// One line of words, a space between each two.
fn print_words(out: &mut impl Write, words: &[u32]) -> io::Result<()> {
    for (k, word) in words.iter().enumerate() {
        if 0 < k {
            out.write_all(b" ")?;
        }
        write!(out, "{word}")?;
    }
    out.write_all(b"\n")
}

// Whether there is a byte behind those that were read.
pub fn is_more(input: &mut impl Read) -> io::Result<bool> {
    let mut one = [0u8; 1];
    let got = input.read(&mut one)?;
    Ok(0 < got)
}

// The book on the input goes to the front of the buffer; how many bytes it has. A longer input is none, and is printed as such.
pub fn read_book(
    out: &mut impl Write,
    input: &mut impl Read,
    book: &mut [u8; MOST_BYTES],
) -> io::Result<Option<usize>>
    ensures { IfOk result (λ o. IfSome o (λ n. n ≤ 65536)) }
{
    let n = read_full(input, book)?;
    if n == MOST_BYTES && is_more(input)? {
        out.write_all(b"too long\n")?;
        return Ok(None);
    }
    Ok(Some(n))
}

// The words of a book's tree, or its refusal.
fn answer(out: &mut impl Write, book: &[u8], room: &mut [u32]) -> io::Result<()> {
    match plan::plan(book, room) {
        Ok(n) => {
            writeln!(out, "words {n}")?;
            print_words(out, &room[..n])
        }
        Err(refusal) => writeln!(out, "refused {refusal}"),
    }
}

// Document 01's program.
pub fn plan_standard_input(rt: &(impl Input + Print)) -> io::Result<()> {
    let mut out = io::writer(rt);
    let mut input = rt.reader();
    let mut book = [0u8; MOST_BYTES];
    if let Some(n) = read_book(&mut out, &mut input, &mut book)? {
        let mut room = [0u32; 16384];
        answer(&mut out, &book[..n], &mut room)?;
    }
    Ok(())
}
