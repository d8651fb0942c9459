// Replays case files: plans every case's book, walks every reading, and prints what differs from the answers that the file has.
// The arguments are the files' names; oracle/casefile.py says what stands in a file. The last line is
// `cases N readings M differ K`.
#![tactic(auto)]

mod file;
mod tell;

use file::{Broken, MOST_BYTES, MOST_SITES, MOST_WORDS};
use std::env::FillError;
use std::fs::File;
use std::io;
use std::io::{Read, Write};
use std::rt::{Env, Files};
use tell::{Answer, Told};

// A file's first two words: "CASE" and the version.
const MARK: u32 = 1163084099;

const VERSION: u32 = 2;

// Every room word before a book is planned.
const FRESH: u32 = 2779096485;

// Why no more is replayed.
#[derive(Debug, Drop)]
enum Stop {
    Broken,
    Io(io::Error),
}

impl From<Broken> for Stop {
    fn from(_broken: Broken) -> Stop {
        Stop::Broken
    }
}

impl From<io::Error> for Stop {
    fn from(error: io::Error) -> Stop {
        Stop::Io(error)
    }
}

// Where differences are printed, and what was counted so far.
#[derive(Drop)]
struct Report<W: Write + Drop> {
    out: W,
    cases: u64,
    readings: u64,
    differ: u64,
}

impl<W: Write + Drop> Report<W> {
    // Plans a book in a fresh room as long as the wanted one, and prints what differs.
    fn plan_case(
        &mut self,
        case: u32,
        book: &[u8],
        wanted: Answer,
        wanted_room: &[u32],
    ) -> Result<(), Stop> {
        let mut room = [FRESH; MOST_WORDS];
        let room = room.get_mut(..wanted_room.len()).ok_or(Broken)?;
        let came = Answer::from(plan::plan(book, room));
        if came != wanted {
            writeln!(self.out, "case {case}: wanted {wanted}, came {came}")?;
            self.differ = self.differ.wrapping_add(1);
        }
        if &*room != wanted_room {
            writeln!(self.out, "case {case}: another room")?;
            self.differ = self.differ.wrapping_add(1);
        }
        Ok(())
    }

    // Reads a reading with its answer, walks the words, and prints what differs.
    fn one_reading(
        &mut self,
        file: &mut impl Read,
        case: u32,
        reading: u64,
        words: &[u32],
    ) -> Result<(), Stop> {
        let mut kinds = [0u8; MOST_SITES];
        let mut numbers = [0i32; MOST_SITES];
        let mut identities = [0u32; MOST_SITES];
        // All three are read, also behind one that is broken.
        let kinds = file::bytes(file, &mut kinds);
        let numbers = file::numbers(file, &mut numbers);
        let identities = file::words(file, &mut identities);
        let (kinds, numbers, identities) = (kinds?, numbers?, identities?);
        let [answer, rule, result] = file::three_words(file)?;
        let wanted = Told {
            answer,
            rule,
            result,
        };
        let came = Told::from(walk::walk(words, kinds, numbers, identities));
        if came != wanted {
            writeln!(
                self.out,
                "case {case} reading {reading}: wanted {wanted}, came {came}"
            )?;
            self.differ = self.differ.wrapping_add(1);
        }
        self.readings = self.readings.wrapping_add(1);
        Ok(())
    }

    // Reads a case, plans its book if it has one, and walks its readings over the room that the file has.
    fn one_case(&mut self, file: &mut impl Read, case: u32) -> Result<(), Stop> {
        let mut book = [0u8; MOST_BYTES];
        let mut room = [0u32; MOST_WORDS];
        let book = file::book(file, &mut book)?;
        let wanted = Answer::from(file::word_or_above(file));
        let room = file::words(file, &mut room)?;
        if let Some(book) = book {
            self.plan_case(case, book, wanted, room)?;
        }
        for reading in 0..file::word_or_above(file) {
            self.one_reading(file, case, reading, room)?;
        }
        Ok(())
    }

    // The cases of a file, one behind the other.
    fn all_cases(&mut self, file: &mut impl Read, count: u32) -> Result<(), Stop> {
        for case in 0..count {
            self.one_case(file, case)?;
            self.cases = self.cases.wrapping_add(1);
        }
        Ok(())
    }

    // An open file: its mark, its version, its number of cases, and the cases, with nothing behind them.
    fn one_file(&mut self, file: &mut impl Read) -> Result<(), Stop> {
        let [mark, version, count] = file::three_words(file)?;
        if mark != MARK || version != VERSION {
            return Err(Stop::Broken);
        }
        let replayed = self.all_cases(file, count);
        if let Err(Stop::Io(error)) = replayed {
            return Err(Stop::Io(error));
        }
        // Behind a broken case too: a file that cannot be read any more is an error of reading, and no damaged file.
        if console::is_more(file)? {
            return Err(Stop::Broken);
        }
        replayed
    }

    // A line that says something of a file.
    fn say(&mut self, name: &[u8], said: &str, n: u64) -> io::Result<()> {
        self.out.write_all(name)?;
        writeln!(self.out, ": {said} {n}")
    }

    // The file that an argument names. Where it differs or cannot be replayed, a line names it.
    fn argument(&mut self, rt: &impl Files, name: &[u8]) -> Result<(), Stop> {
        let (cases, differ) = (self.cases, self.differ);
        let opened = std::str::from_utf8(name)
            .ok()
            .and_then(|path| File::open(rt, path).ok());
        let Some(mut file) = opened else {
            self.say(name, "cannot be read, whole cases", 0)?;
            return Err(Stop::Broken);
        };
        let replayed = self.one_file(&mut file);
        if let Err(Stop::Io(error)) = replayed {
            return Err(Stop::Io(error));
        }
        let differ = self.differ.wrapping_sub(differ);
        if differ != 0 {
            self.say(name, "differ", differ)?;
        }
        if replayed.is_err() {
            let cases = self.cases.wrapping_sub(cases);
            self.say(name, "damaged or too large, whole cases", cases)?;
        }
        replayed
    }

    // Every file that an argument names, up to one that cannot be replayed. A name of more than 4,096 bytes counts as empty.
    fn arguments(&mut self, rt: &(impl Env + Files)) -> Result<(), Stop> {
        for i in 1..usize::MAX {
            let mut name = [0u8; 4096];
            let n = match rt.arg(i, &mut name) {
                Ok(n) => n,
                Err(FillError::TooLong) => 0,
                Err(FillError::NotPresent) => return Ok(()),
            };
            self.argument(rt, &name[..n])?;
        }
        Ok(())
    }

    fn totals(&mut self) -> io::Result<()> {
        let (cases, readings, differ) = (self.cases, self.readings, self.differ);
        writeln!(
            self.out,
            "cases {cases} readings {readings} differ {differ}"
        )
    }
}

// Prints nothing but the last line where all agrees.
fn main(rt: HostRuntime) -> io::Result<()> {
    let mut report = Report {
        out: io::writer(&rt),
        cases: 0,
        readings: 0,
        differ: 0,
    };
    match report.arguments(&rt) {
        Ok(()) => report.totals(),
        Err(Stop::Broken) => Ok(()),
        Err(Stop::Io(error)) => Err(error),
    }
}
