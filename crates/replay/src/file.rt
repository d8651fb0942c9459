// What stands next in a case file: bytes, and little-endian words. No list is trusted to come whole or to fit.
use std::io::Read;

// The most that a case may hold: bytes of book, words of room, sites of a reading. Longer lists in a file are not read.
pub const MOST_BYTES: usize = 66048;

pub const MOST_WORDS: usize = 16384;

pub const MOST_SITES: usize = 1024;

// The bytes of so many words.
const MOST_WORD_BYTES: usize = 65536;

// In the file, instead of a book's length: there is no book.
const NO_BOOK: u32 = 4294967295;

// The file ends too early, or holds more than there is room for.
#[derive(Debug, Drop)]
pub struct Broken;

fn fill(file: &mut impl Read, buffer: &mut [u8]) -> Result<(), Broken> {
    file.read_exact(buffer).map_err(|_| Broken)
}

// The next `n` bytes, at the front of the room.
fn next_bytes<'a>(file: &mut impl Read, n: u32, room: &'a mut [u8]) -> Result<&'a [u8], Broken> {
    let list = room.get_mut(..n as usize).ok_or(Broken)?;
    fill(file, list)?;
    Ok(list)
}

// The next words, as many as there is room for.
fn fill_words(file: &mut impl Read, words: &mut [u32]) -> Result<(), Broken> {
    if words.len() > MOST_WORDS {
        return Err(Broken);
    }
    let mut bytes = [0u8; MOST_WORD_BYTES];
    let bytes = &mut bytes[..4 * words.len()];
    fill(file, bytes)?;
    for (word, four) in words.iter_mut().zip(bytes.as_chunks().0) {
        *word = u32::from_le_bytes(*four);
    }
    Ok(())
}

pub fn word(file: &mut impl Read) -> Result<u32, Broken> {
    let mut bytes = [0u8; 4];
    fill(file, &mut bytes)?;
    Ok(u32::from_le_bytes(bytes))
}

// A word, or a number above every word where it cannot be read: no answer is as great, and no readings are as many. Whether the file
// is broken is told by what stands behind it.
pub fn word_or_above(file: &mut impl Read) -> u64 {
    word(file).map_or(u64::MAX, u64::from)
}

pub fn three_words(file: &mut impl Read) -> Result<[u32; 3], Broken> {
    Ok([word(file)?, word(file)?, word(file)?])
}

// A book behind its length, if there is one.
pub fn book<'a>(file: &mut impl Read, room: &'a mut [u8]) -> Result<Option<&'a [u8]>, Broken> {
    let n = word(file)?;
    if n == NO_BOOK {
        return Ok(None);
    }
    Ok(Some(next_bytes(file, n, room)?))
}

// A list behind its length, as bytes, as words and as signed numbers.
pub fn bytes<'a>(file: &mut impl Read, room: &'a mut [u8]) -> Result<&'a [u8], Broken> {
    let n = word(file)?;
    next_bytes(file, n, room)
}

pub fn words<'a>(file: &mut impl Read, room: &'a mut [u32]) -> Result<&'a [u32], Broken> {
    let n = word(file)?;
    let list = room.get_mut(..n as usize).ok_or(Broken)?;
    fill_words(file, list)?;
    Ok(list)
}

pub fn numbers<'a>(file: &mut impl Read, room: &'a mut [i32]) -> Result<&'a [i32], Broken> {
    let mut as_words = [0u32; MOST_SITES];
    let as_words = words(file, &mut as_words)?;
    let list = room.get_mut(..as_words.len()).ok_or(Broken)?;
    for (number, word) in list.iter_mut().zip(as_words) {
        *number = word.cast_signed();
    }
    Ok(list)
}
