// One test: whether it is open, how many rules it counts, and what it is worth.
ghost use Rattle.std.specs.Prelude.{◌≡◌, ◌+◌, ◌<◌, ◌≤◌, max};
ghost use Rattle.definition.specs.Book.{most};
ghost use Rattle.definition.specs.Choice.{testable};
ghost use Rattle.sets.specs.View.{same_root};
ghost use Rattle.tables.specs.Held.{test_of};
ghost use Rattle.choice.specs.Worth.{open_at, state_at, count_from, code, worth_in, Tells, SitesBelow};

use crate::asked::Asked;
use scope::{MATCHED, UNAVAILABLE};
use tables::Test;
use tree::MOST;

// A test's worth has three parts: its count, its state (0 to 3), and how far its code is below the last, which no code exceeds.
// It is one number, 0 for a test that counts no rule, so that the best test is a maximum; a struct with a derived order would be
// compared three times where one comparison serves.
pub const LAST_CODE: usize = 65791;

pub const CODE_ROOM: usize = 131072;

const STATE_ROOM: usize = 524288;

// Which places of a part have a rule with a test, and one more than the highest priority of the other rules, or 0.
#[derive(Clone, Copy)]
struct Told {
    had: [bool; MOST],
    top: usize,
}

// Each rule of the part is asked once.
fn ask_once(asked: &Asked, test: Test) -> Told
    ensures { Tells asked.now.rules.now (test_of test) asked.now.part.now result }
{
    let mut had = [false; MOST];
    let mut top: usize = 0;
    for (k, &x) in asked.part.iter().enumerate() {
        let rule = order::rule_at(asked.rules, x);
        let has = rule.has(test);
        had[k] = has;
        if !has {
            top = top.max(rule.priority() as usize + 1);
        }
    }
    Told { had, top }
}

// Internal: how many rules of the part a test counts: those that have it, less those that a higher rule without it
// bars. `bar` is one more than the highest priority of such rules outside the part, or 0.
pub fn count(asked: &Asked, test: Test) -> usize
    ensures { (result ≡ count_from asked.now.rules.now (test_of test) asked.now.part.now asked.now.bar) × (result ≤ most) }
{
    let told = ask_once(asked, test);
    let top = asked.bar.max(told.top);
    let mut n: usize = 0;
    for (k, &x) in asked.part.iter().enumerate() {
        if told.had[k] && top <= order::rule_at(asked.rules, x).priority() as usize + 1 {
            n += 1;
        }
    }
    n
}

// Neither Unavailable nor Matched.
fn is_testable(states: &[u8; MOST], s: usize) -> bool
    requires { s < most }
    ensures { result ≡ testable states.now s }
{
    states[s] != UNAVAILABLE && states[s] != MATCHED
}

// Whether two different sites are in one class on this path: their roots are the same, and not 0.
#[tactic(auto, unfolding(sets::specs::View::same_root))]
fn same_class(root: &[u8; MOST], x: usize, y: usize) -> bool
    requires { (x < most) × (y < most) }
    ensures { result ≡ same_root root.now x y }
{
    root[x] != 0 && root[x] == root[y]
}

// Whether a test may still be made: its sites can be tested, and a pair is not in one class yet.
#[tactic(auto, unfolding(crate::specs::Worth::open_at))]
fn is_open(states: &[u8; MOST], root: &[u8; MOST], test: Test) -> bool
    requires { SitesBelow most (test_of test) }
    ensures { result ≡ open_at states.now root.now (test_of test) }
{
    match test {
        Test::On(s) => is_testable(states, s),
        Test::Same(x, y) => {
            is_testable(states, x) && is_testable(states, y) && !same_class(root, x, y)
        }
    }
}

// A pair has the lesser state.
#[tactic(auto, unfolding(crate::specs::Worth::state_at))]
fn state_of(states: &[u8; MOST], test: Test) -> usize
    requires { SitesBelow most (test_of test) }
    ensures { (result ≡ state_at states.now (test_of test)) × (result < 256) }
{
    match test {
        Test::On(s) => usize::from(states[s]),
        Test::Same(x, y) => usize::from(states[x].min(states[y])),
    }
}

// Tests in the order of the last tie: Match before Equal, then smaller ids.
#[tactic(auto, unfolding(crate::specs::Worth::code))]
fn code_of(test: Test) -> usize
    requires { SitesBelow most (test_of test) }
    ensures { (result ≡ code (test_of test)) × (result ≤ 65791) }
{
    match test {
        Test::On(s) => s,
        Test::Same(x, y) => 256 * x + y + 256,
    }
}

// Internal: the worth of a test, or `best` if that is greater. A test that would not be better if it counted every rule is not
// counted.
pub fn of_test(asked: &Asked, test: Test, best: usize) -> usize
    requires { SitesBelow most (test_of test) }
    ensures { result ≡ max best (worth_in asked.now (test_of test)) }
{
    if !is_open(asked.states, asked.root, test) {
        return best;
    }
    let tie = state_of(asked.states, test) * CODE_ROOM + (LAST_CODE - code_of(test));
    if asked.part.len() * STATE_ROOM + tie <= best {
        return best;
    }
    let n = count(asked, test);
    if n == 0 {
        return best;
    }
    best.max(n * STATE_ROOM + tie)
}
