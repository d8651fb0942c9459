// A rule's record whose counts fit, and how many slots a record has.
ghost use Rattle.std.specs.Prelude.{◌≡◌, ◌+◌, ◌*◌, ◌≤◌, length};
ghost use Rattle.definition.specs.Book.{slots};
ghost use Rattle.definition.specs.Tables.{rule_words, rule_at};
ghost use Rattle.checks.specs.Words.{CountsFit};

use tables::RULE_WORDS;

// As many sources a site has room for, and as many constraints, pairs and impure sites a rule has.
pub const SLOTS: usize = 4;

// A rule's record, as refusal 5 leaves it: its counts fit its slots.
#[derive(Clone, Copy)]
pub struct CountedRule<'a> {
    pub words: &'a [u32; RULE_WORDS],
    pub ghost fits: { CountsFit slots words.now 0 },
}

// Internal: rule `i` of a table.
pub fn counted_rule(rules: &[u32], i: usize) -> CountedRule<'_>
    requires { (rule_words slots * i + rule_words slots ≤ length rules.now) × CountsFit slots rules.now i }
    ensures { rule_at slots result.words.now 0 ≡ rule_at slots rules.now i }
{
    CountedRule {
        words: tables::rule_record(rules, i),
    }
}
