// The best test of a part of the order.
#![tactic(auto)]

pub mod asked;
pub mod tests;

ghost use Rattle.std.specs.Prelude.{◌≡◌, map, ◌*◌, ◌<◌, max};
ghost use Rattle.definition.specs.Book.{most, slots};
ghost use Rattle.definition.specs.Lists.{upto};
ghost use Rattle.definition.specs.Tables.{rule_word, rule_at};
ghost use Rattle.laws.specs.Ascending.{stands_in};
ghost use Rattle.tables.specs.Held.{Named, end_slot};
ghost use Rattle.order.specs.Parts.{Parts, Names};
ghost use Rattle.choice.specs.Worth.{worth_in, Marks, marked_ends, Nears, decoded, constraints_worth, pair_worth, end_worth};
ghost use Rattle.choice.specs.Worth.{pairs_worth, top_of, rule_worth, part_worth, Chosen};

use asked::Asked;
use tables::{Rule, Test};
use tests::{CODE_ROOM, LAST_CODE, of_test};
use tree::MOST;

// Whether site `x` is one of the first `k` ends of the rule's pairs. Such an end was asked before.
fn stands_before(rule: &Rule, k: usize, x: usize) -> bool
    requires { k < 2 * rule_word slots rule.now.words.now rule.now.id 4 }
    ensures { result ≡ stands_in (map (end_slot rule.now.words.now rule.now.id) (upto k)) x }
{
    (0..k).any(|j| rule.end_site(j) == x)
}

// The greatest worth of a constraint of the rule, or `best`.
fn of_constraints(asked: &Asked, rule: &Rule, best: usize) -> usize
    requires { Named most rule.now.words.now rule.now.id }
    ensures { result ≡ max best (constraints_worth (worth_in asked.now) rule.now.words.now rule.now.id) }
{
    let n = rule.constraint_count();
    let mut most = best;
    for k in 0..n {
        let s = rule.constraint_site(k);
        most = of_test(asked, Test::On(s), most);
    }
    most
}

// The same of the pair of sites `x` and `y`, if the rule has it.
fn of_two(asked: &Asked, rule: &Rule, x: usize, y: usize, best: usize) -> usize
    requires { (x < most) × (y < most) }
    ensures { result ≡ max best (pair_worth (worth_in asked.now) (rule_at slots rule.now.words.now rule.now.id) x y) }
{
    if x < y && rule.links(x, y) {
        return of_test(asked, Test::Same(x, y), best);
    }
    best
}

// The same of the pairs of `x` and an end of a pair of the rule.
fn of_end(asked: &Asked, rule: &Rule, x: usize, best: usize) -> usize
    requires { Named most rule.now.words.now rule.now.id × (x < most) }
    ensures { result ≡ max best (end_worth (worth_in asked.now) rule.now.words.now rule.now.id x) }
{
    let n = rule.end_count();
    let mut most = best;
    for k in 0..n {
        let y = rule.end_site(k);
        if !stands_before(rule, k, y) {
            most = of_two(asked, rule, x, y, most);
        }
    }
    most
}

// The same of the pairs of the rule.
fn of_pairs(asked: &Asked, rule: &Rule, best: usize) -> usize
    requires { Named most rule.now.words.now rule.now.id }
    ensures { result ≡ max best (pairs_worth (worth_in asked.now) rule.now.words.now rule.now.id) }
{
    let n = rule.end_count();
    let mut most = best;
    for k in 0..n {
        let x = rule.end_site(k);
        if !stands_before(rule, k, x) {
            most = of_end(asked, rule, x, most);
        }
    }
    most
}

// The rules of a part that may have a pair of a rule, at the front of `ids`. `bar` is one more than the highest
// priority of the others, or 0. A list with its count beside it, since there is no heap to make a list of its length.
#[derive(Clone, Copy)]
struct Near {
    ids: [u8; MOST],
    count: usize,
    bar: usize,
}

// Marks the ends of the rule's pairs.
fn marks_of(rule: &Rule) -> [bool; MOST]
    requires { Named most rule.now.words.now rule.now.id }
    ensures { Marks rule.now.words.now rule.now.id result }
{
    let n = rule.end_count();
    let mut marks = [false; MOST];
    for k in 0..n {
        marks[rule.end_site(k)] = true;
    }
    marks
}

// How many ends of the rule's pairs are marked.
fn marked(rule: &Rule, marks: &[bool; MOST]) -> usize
    requires { Named most rule.now.words.now rule.now.id }
    ensures { result ≡ marked_ends rule.now.words.now marks.now rule.now.id }
{
    let n = rule.end_count();
    let mut m: usize = 0;
    for k in 0..n {
        m += usize::from(marks[rule.end_site(k)]);
    }
    m
}

// A rule that has a pair of the marked rule has two marked ends. The others are left out, and raise the bar.
fn sharing(asked: &Asked, marks: &[bool; MOST]) -> Near
    requires { Names most asked.now.rules.now asked.now.part.now }
    ensures { Nears asked.now.rules.now marks.now asked.now.part.now result }
{
    let mut ids = [0u8; MOST];
    let mut n: usize = 0;
    let mut bar: usize = 0;
    for &x in asked.part {
        let rule = order::rule_at(asked.rules, x);
        if 2 <= marked(&rule, marks) {
            ids[n] = x;
            n += 1;
        } else {
            bar = bar.max(rule.priority() as usize + 1);
        }
    }
    Near { ids, count: n, bar }
}

// The same of the pairs of the rule, which is of the table that is asked, asked only of the rules that may have one of them.
fn of_near(asked: &Asked, rule: &Rule, best: usize) -> usize
    requires { Names most asked.now.rules.now asked.now.part.now
        × ((rule.now.words.now ≡ asked.now.rules.now) × Named most rule.now.words.now rule.now.id) }
    ensures { result ≡ max best (pairs_worth (worth_in asked.now) rule.now.words.now rule.now.id) }
{
    if rule.end_count() == 0 {
        return best;
    }
    let marks = marks_of(rule);
    let near = sharing(asked, &marks);
    of_pairs(
        &Asked {
            rules: asked.rules,
            states: asked.states,
            root: asked.root,
            part: &near.ids[..near.count],
            bar: asked.bar.max(near.bar),
        },
        rule,
        best,
    )
}

// The same of the tests of the rule, which is of the table that is asked, if its priority is the highest.
fn of_rule(asked: &Asked, top: usize, rule: &Rule, best: usize) -> usize
    requires { Names most asked.now.rules.now asked.now.part.now
        × ((rule.now.words.now ≡ asked.now.rules.now) × Named most rule.now.words.now rule.now.id) }
    ensures { result ≡ max best (rule_worth (worth_in asked.now) rule.now.words.now top rule.now.id) }
{
    if rule.priority() as usize + 1 == top {
        let most = of_constraints(asked, rule, best);
        return of_near(asked, rule, most);
    }
    best
}

// One more than the highest priority in the part.
fn top_of(asked: &Asked) -> usize
    ensures { result ≡ top_of asked.now.rules.now asked.now.part.now }
{
    let mut most: usize = 0;
    for &x in asked.part {
        most = most.max(order::rule_at(asked.rules, x).priority() as usize + 1);
    }
    most
}

// The greatest worth of a test. Only a test that a rule of highest priority has can count a rule.
fn best_worth(asked: &Asked) -> usize
    requires { Names most asked.now.rules.now asked.now.part.now }
    ensures { result ≡ part_worth (worth_in asked.now) asked.now.rules.now asked.now.part.now }
{
    let top = top_of(asked);
    let mut most: usize = 0;
    for &x in asked.part {
        let rule = order::rule_at(asked.rules, x);
        most = of_rule(asked, top, &rule, most);
    }
    most
}

// The test of a worth.
#[tactic(auto, unfolding(crate::specs::Worth::decoded, crate::specs::Worth::of_code))]
fn decode(key: usize) -> Option<Test>
    ensures { result ≡ decoded key }
{
    if key == 0 {
        return None;
    }
    let c = LAST_CODE.checked_sub(key % CODE_ROOM)?;
    if c < 256 {
        return Some(Test::On(c));
    }
    Some(Test::Same((c - 256) / 256, (c - 256) % 256))
}

// Internal: the best test of the part's rules, in a scope of these states and class roots.
pub fn best_control_flow(
    rules: &[u32],
    states: &[u8; MOST],
    root: &[u8; MOST],
    part: &[u8],
) -> Option<Test>
    requires { Parts rules.now part.now × Names most rules.now part.now }
    ensures { Chosen rules.now states.now root.now part.now result }
{
    decode(best_worth(&Asked {
        rules,
        states,
        root,
        part,
        bar: 0,
    }))
}
