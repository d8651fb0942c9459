// Refusal 6: same site, pattern kind and number with two field counts, in any rules.
ghost use Rattle.std.specs.Prelude.{◌≡◌, List, ℕ, ◌+◌, ◌*◌, ◌<◌, ◌≤◌, length};
ghost use Rattle.definition.specs.Book.{most, slots};
ghost use Rattle.definition.specs.Tables.{rule_words, constraint_at, rule_at, book_of};
ghost use Rattle.definition.specs.Accept.{fields_agree, agrees_with, fields_ok};
ghost use Rattle.checks.specs.Words.{Counted, rules_agree, agrees_so_far};

use crate::words::{CountedRule, counted_rule};
use tables::{CONSTRAINT_COUNT_WORD, CONSTRAINT_WORDS, CONSTRAINTS_WORD, RULE_WORDS};

// Constraint `k` of a rule and constraint `m` of another.
#[tactic(auto, using(crate::proofs::RulePairs::agree_is))]
fn fields_agree(rule: &[u32; RULE_WORDS], k: usize, other: &[u32; RULE_WORDS], m: usize) -> bool
    requires { (k < slots) × (m < slots) }
    ensures { result ≡ fields_agree (constraint_at slots rule.now 0 k) (constraint_at slots other.now 0 m) }
{
    let c = CONSTRAINTS_WORD + CONSTRAINT_WORDS * k;
    let d = CONSTRAINTS_WORD + CONSTRAINT_WORDS * m;
    // Read before the chain, so that the range of both words is known to the whole of its proof.
    let same_number = rule[c + 3] == other[d + 3];
    let same = rule[c] == other[d] && rule[c + 1] == other[d + 1] && same_number;
    !same || rule[c + 2] == other[d + 2]
}

// Constraint `k` of a rule and all of another.
fn agrees_with(rule: &CountedRule, k: usize, other: &CountedRule) -> bool
    requires { k < slots }
    ensures { result ≡ agrees_with (rule_at slots other.now.words.now 0).constraints (constraint_at slots rule.now.words.now 0 k) }
{
    let count = other.words[CONSTRAINT_COUNT_WORD] as usize;
    (0..count).all(|m| fields_agree(rule.words, k, other.words, m))
}

// All of a rule and all of another.
fn rules_agree(rule: &CountedRule, other: &CountedRule) -> bool
    ensures { result ≡ rules_agree (rule_at slots rule.now.words.now 0) (rule_at slots other.now.words.now 0) }
{
    let count = rule.words[CONSTRAINT_COUNT_WORD] as usize;
    (0..count).all(|k| agrees_with(rule, k, other))
}

// Rule `i` and the rules up to it: to agree is mutual, so the later ones need not be asked.
fn agrees_so_far(rules: &[u32], i: usize) -> bool
    requires { (rule_words slots * (i + 1) ≤ length rules.now) × (i < most) × Counted slots (i + 1) rules.now }
    ensures { result ≡ agrees_so_far slots rules.now i }
{
    let rule = counted_rule(rules, i);
    (0..i + 1).all(|j| rules_agree(&rule, &counted_rule(rules, j)))
}

// Internal: refusal 6 is not given to a table of `count` rules.
pub fn fields_ok(rules: &[u32], count: usize) -> bool
    requires { (rule_words slots * count ≤ length rules.now) × (count ≤ most) × Counted slots count rules.now }
    ensures { (S : ℕ) (t : List ℕ) → result ≡ fields_ok (book_of slots S count t rules.now) }
{
    (0..count).all(|i| agrees_so_far(rules, i))
}
