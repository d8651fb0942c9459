// Answers as a case file has them, and as they are printed.
use refusal::Refusal;
use std::fmt;
use walk::Found;

// The highest bit: what is left of the word is a refusal's number.
const REFUSED: u32 = 2147483648;

// Rule and result where there is none.
const NONE: u32 = 65535;

// The planner's answer, as a file has it: how many words, or a refusal's number. It is no Result over `Refusal`, since the number
// in a damaged file may be any.
#[derive(Clone, Copy, PartialEq, Eq)]
pub enum Answer {
    Words(u64),
    Refused(u64),
}

// A word of the file, a word count or the refusal with the highest bit set; or a number above every word, which no planner answers.
impl From<u64> for Answer {
    fn from(word: u64) -> Answer {
        match word.checked_sub(u64::from(REFUSED)) {
            Some(number) => Answer::Refused(number),
            None => Answer::Words(word),
        }
    }
}

impl From<Result<usize, Refusal>> for Answer {
    fn from(planned: Result<usize, Refusal>) -> Answer {
        match planned {
            Ok(n) => Answer::Words(n as u64),
            Err(refusal) => Answer::Refused(u64::from(refusal.number())),
        }
    }
}

impl fmt::Display for Answer {
    fn fmt<W: fmt::Write>(&self, f: &mut fmt::Formatter<W>) -> fmt::Result {
        match *self {
            Answer::Words(n) => write!(f, "words {n}"),
            Answer::Refused(n) => write!(f, "refused {n}"),
        }
    }
}

// A walk's answer: 0 found, 1 nothing, or the refusal with the highest bit set; then rule and result. It stays in the
// words of the file, so that words which stand for no answer differ from every answer.
#[derive(Clone, Copy, PartialEq, Eq)]
pub struct Told {
    pub answer: u32,
    pub rule: u32,
    pub result: u32,
}

impl From<Result<Option<Found>, Refusal>> for Told {
    fn from(walked: Result<Option<Found>, Refusal>) -> Told {
        match walked {
            Ok(Some(found)) => Told {
                answer: 0,
                rule: u32::from(found.rule),
                result: u32::from(found.result),
            },
            Ok(None) => Told {
                answer: 1,
                rule: NONE,
                result: NONE,
            },
            Err(refusal) => Told {
                answer: REFUSED + u32::from(refusal.number()),
                rule: NONE,
                result: NONE,
            },
        }
    }
}

impl fmt::Display for Told {
    fn fmt<W: fmt::Write>(&self, f: &mut fmt::Formatter<W>) -> fmt::Result {
        let Told {
            answer,
            rule,
            result,
        } = *self;
        if answer >= REFUSED {
            write!(f, "refused {}", answer - REFUSED)
        } else if answer == 1 {
            write!(f, "nothing")
        } else {
            write!(f, "found {rule} {result}")
        }
    }
}
