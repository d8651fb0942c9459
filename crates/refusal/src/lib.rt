// Why a call is refused: one name for each number of document 01, "Refusal numbers".
#![tactic(auto)]

ghost use Rattle.std.specs.Prelude.{◌≡◌, Some};
ghost use Rattle.std.specs.Fmt.{decimal};
ghost use Rattle.refusal.specs.Numbers.{number};

use std::fmt;

#[derive(Clone, Copy, Debug, PartialEq, Eq)]
pub enum Refusal {
    // 1: no book has this length.
    Length,
    // 2: the words of a block have another sum.
    Sums,
    // 3: a block's number, kind, count or filler bytes are wrong.
    Frames,
    // 4: a site record breaks its rules.
    SiteRecord,
    // 5: a rule record breaks its rules.
    RuleRecord,
    // 6: one site, pattern kind and number has two field counts.
    FieldCounts,
    // 7: a rule both constrains a site and names it in a pair.
    Apart,
    // 8: a rule reaches a kind 7 site that it does not grant.
    Ungranted,
    // 9: too little room.
    Room,
    // 10: the lists of a reading differ in length.
    Lists,
    // 11: the words are no tree.
    Tree,
    // 12: the tree names a site that the reading lacks.
    Unread,
    // 16: an id above 251, or one id twice.
    Id,
}

impl Refusal {
    pub fn number(self) -> u8
        ensures { result ≡ number self }
    {
        match self {
            Refusal::Length => 1,
            Refusal::Sums => 2,
            Refusal::Frames => 3,
            Refusal::SiteRecord => 4,
            Refusal::RuleRecord => 5,
            Refusal::FieldCounts => 6,
            Refusal::Apart => 7,
            Refusal::Ungranted => 8,
            Refusal::Room => 9,
            Refusal::Lists => 10,
            Refusal::Tree => 11,
            Refusal::Unread => 12,
            Refusal::Id => 16,
        }
    }
}

// A refusal is printed as its number.
impl fmt::Display for Refusal {
    ghost output = { λ r. Some (decimal (number r)) };

    fn fmt<W: fmt::Write>(&self, f: &mut fmt::Formatter<W>) -> fmt::Result {
        let number = self.number();
        write!(f, "{number}")
    }
}
