// Refusal 8: a rule reaches a kind 7 site that it does not grant. The sites that it reaches are marked, from the last site down,
// so that each is looked at once however many ways lead to it.
ghost use Rattle.std.specs.Prelude.{◌≡◌, true, List, map, ℕ, ◌+◌, ◌*◌, ◌<◌, ◌≤◌, length};
ghost use Rattle.definition.specs.Lists.{◌is◌, ◌implies◌, upto};
ghost use Rattle.definition.specs.Book.{most, slots};
ghost use Rattle.definition.specs.Tables.{site_words, site_word, site_at, rule_words, constraint_at, rule_at, book_of};
ghost use Rattle.definition.specs.Accept.{rule_ok, grants, granted, sound_from, named, sound, sound_ok};
ghost use Rattle.definition.specs.Bytes.{sites_pass, rules_pass};
ghost use Rattle.checks.specs.Marks.{pending, stepped, Marked, SourcesFit, Sourced, Visited};

use crate::words::{CountedRule, counted_rule};
use tables::{
    CONSTRAINT_COUNT_WORD, CONSTRAINT_WORDS, CONSTRAINTS_WORD, IMPURE_COUNT_WORD, IMPURES_WORD,
    KIND_WORD, NUMBER_WORD, PAIR_COUNT_WORD, PAIRS_WORD, PATTERN_WORD, POSITION_WORD, RESULT_WORD,
    RULE_WORDS, SITE_WORDS, SOURCE_COUNT_WORD, SOURCES_WORD,
};
use tree::MOST;

// Constraint `k` of a rule grants a kind 7 site.
#[tactic(auto, using(crate::proofs::Soundness::grants_is), unfolding(definition::specs::Lists::every))]
fn grants(site: &[u32; SITE_WORDS], rule: &[u32; RULE_WORDS], k: usize) -> bool
    requires { (site_word site.now 0 0 ≡ 7) × (site_word site.now 0 1 ≡ 1) × (k < slots) }
    ensures { result ≡ grants (site_at site.now 0) (constraint_at slots rule.now 0 k) }
{
    let start = CONSTRAINTS_WORD + CONSTRAINT_WORDS * k;
    // Read before the chain, so that the range of both words is known to the whole of its proof.
    let same_number = rule[start + 3] == site[NUMBER_WORD];
    site[SOURCES_WORD] == rule[start]
        && rule[start + 1] == site[PATTERN_WORD]
        && same_number
        && site[POSITION_WORD] < rule[start + 2]
}

// Some constraint of a rule grants a kind 7 site.
fn granted(site: &[u32; SITE_WORDS], rule: &CountedRule) -> bool
    requires { (site_word site.now 0 0 ≡ 7) × (site_word site.now 0 1 ≡ 1) }
    ensures { result ≡ granted (rule_at slots rule.now.words.now 0) (site_at site.now 0) }
{
    let count = rule.words[CONSTRAINT_COUNT_WORD] as usize;
    (0..count).any(|k| grants(site, rule.words, k))
}

// A site is granted if it is of kind 7.
#[tactic(auto, unfolding(definition::specs::Tables::site_at))]
fn granted_if_bound(site: &[u32; SITE_WORDS], rule: &CountedRule) -> bool
    requires { site_word site.now 0 0 ≡ 7 → site_word site.now 0 1 ≡ 1 }
    ensures { result ≡ ((site_at site.now 0).kind is 7 implies granted (rule_at slots rule.now.words.now 0) (site_at site.now 0)) }
{
    site[KIND_WORD] != 7 || granted(site, rule)
}

// Marks the sites that `n` words name, from word `at` on, each `step` behind the one before.
fn mark(words: &[u32], at: usize, step: usize, n: usize, limit: usize, marks: &mut [bool])
    requires { (limit ≤ most) × (length marks.old ≡ most)
        × ((k : ℕ) → k < n → (at + step * k < length words.now) × (stepped words.now at step k < limit)) }
    ensures { Marked limit (map (stepped words.now at step) (upto n)) marks.old marks.new }
{
    // `step_by` and `take` in place of the numbers are no plainer.
    for k in 0..n {
        let s = words[at + step * k] as usize;
        marks[s] = true;
    }
}

// Marks the sites that a rule names.
fn mark_named(rule: &[u32; RULE_WORDS], limit: usize, marks: &mut [bool])
    requires { (limit ≤ most) × (length marks.old ≡ most) × (rule_ok slots limit (rule_at slots rule.now 0) ≡ true) }
    ensures { Marked limit (named (rule_at slots rule.now 0)) marks.old marks.new }
{
    let constraints = rule[CONSTRAINT_COUNT_WORD] as usize;
    let pairs = rule[PAIR_COUNT_WORD] as usize;
    let impure = rule[IMPURE_COUNT_WORD] as usize;
    mark(
        rule,
        CONSTRAINTS_WORD,
        CONSTRAINT_WORDS,
        constraints,
        limit,
        marks,
    );
    mark(rule, PAIRS_WORD, 2, pairs, limit, marks);
    mark(rule, PAIRS_WORD + 1, 2, pairs, limit, marks);
    mark(rule, IMPURES_WORD, 1, impure, limit, marks);
    mark(rule, RESULT_WORD, 1, 1, limit, marks);
}

// Judges a site, which is that of id `s`, if it is marked, and marks its sources.
fn visit(site: &[u32; SITE_WORDS], s: usize, rule: &CountedRule, marks: &mut [bool]) -> bool
    requires { (s < most) × (length marks.old ≡ most) × SourcesFit site.now 0 s }
    ensures { Visited slots (site_at site.now 0) (rule_at slots rule.now.words.now 0) s result marks.old marks.new }
{
    if !marks[s] {
        return true;
    }
    if !granted_if_bound(site, rule) {
        return false;
    }
    let count = site[SOURCE_COUNT_WORD] as usize;
    mark(site, SOURCES_WORD, 1, count, s, marks);
    true
}

// Every marked site is granted if it is of kind 7, and so is every site that it reaches: sources have smaller ids.
fn marked_sound(sites: &[u32], count: usize, rule: &CountedRule, marks: &mut [bool]) -> bool
    requires { (site_words * count ≤ length sites.now) × (count ≤ most) × (length marks.old ≡ most) × Sourced count sites.now }
    ensures { (R : ℕ) (u : List ℕ) → result
        ≡ pending (sound_from (book_of slots count R sites.now u) (rule_at slots rule.now.words.now 0)) marks.old count }
{
    for s in (0..count).rev() {
        if !visit(tables::site_record(sites, s), s, rule, marks) {
            return false;
        }
    }
    true
}

fn sound(sites: &[u32], count: usize, rule: &CountedRule) -> bool
    requires { (site_words * count ≤ length sites.now) × (count ≤ most) × Sourced count sites.now
        × (rule_ok slots count (rule_at slots rule.now.words.now 0) ≡ true) }
    ensures { (R : ℕ) (u : List ℕ) → result ≡ sound (book_of slots count R sites.now u) (rule_at slots rule.now.words.now 0) }
{
    let mut marks = [false; MOST];
    mark_named(rule.words, count, &mut marks);
    marked_sound(sites, count, rule, &mut marks)
}

// Internal: refusal 8 is not given to tables that pass 4 and 5.
pub fn sound_ok(sites: &[u32], site_count: usize, rules: &[u32], rule_count: usize) -> bool
    requires { (site_words * site_count ≤ length sites.now) × (site_count ≤ most)
        × (rule_words slots * rule_count ≤ length rules.now) × (rule_count ≤ most)
        × (sites_pass slots site_count rule_count sites.now rules.now ≡ true)
        × (rules_pass slots site_count rule_count sites.now rules.now ≡ true) }
    ensures { result ≡ sound_ok (book_of slots site_count rule_count sites.now rules.now) }
{
    (0..rule_count).all(|i| sound(sites, site_count, &counted_rule(rules, i)))
}
