// What every builder is lent: a book's tables.
ghost use Rattle.std.specs.Prelude.{◌≡◌, ◌<◌};
ghost use Rattle.blocks.specs.Accepted.{Accepted};

use scope::Sites;
use tables::Rule;

// The tables of a book that refusals 3 to 5 let pass, with the number of its rules.
#[derive(Clone, Copy)]
pub struct Book<'a> {
    pub sites: Sites<'a>,
    pub rules: &'a [u32],
    pub rule_count: usize,
    pub ghost accepted: { Accepted sites.count rule_count sites.words.now rules.now },
}

impl Book<'_> {
    // Internal: rule `i` of the table.
    pub fn rule(&self, i: usize) -> Rule<'_>
        requires { i < self.now.rule_count }
        ensures { (result.words.now ≡ self.now.rules.now) × (result.id ≡ i) }
    {
        Rule {
            words: self.rules,
            id: i,
        }
    }
}
