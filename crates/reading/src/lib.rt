// Reads the words of a tree, and tells a reader what stands there, part by part. The words are not trusted: every one of
// the root block is looked at.
#![tactic(auto)]

ghost use Rattle.std.specs.Prelude.{◌≡◌, ◌+◌, ◌-◌, ◌<◌, ◌≤◌, length, map, true, false, IfSome, MatchOption};
ghost use Rattle.definition.specs.Lists.{all};
ghost use Rattle.definition.specs.Tables.{signed};
ghost use Rattle.definition.specs.Read.{id_ok, place_ok, place_of, number, numbers, read_lets, read_pattern, read_flow};
ghost use Rattle.definition.specs.Read.{read_arm, read_tagged, read_step, read_counted, read_block};
ghost use Rattle.tree.specs.Patterns.{pattern_at};
ghost use Rattle.reading.specs.Acts.{steps_after, flow_after, block_after, step_after, arm_after};
ghost use Rattle.reading.specs.Bounds.{above};
ghost use Rattle.reading.specs.Ends.{Ends, one_word, some_words, pattern_of};

use tree::{DEPTH, EMPTY, EQUAL, LAST, MATCH, RETURN};

// An arm's pattern, and its places: each a site or empty.
#[derive(Clone, Copy)]
pub struct Named<'a> {
    pub kind: u32,
    pub number: i32,
    pub places: &'a [u32],
}

// Who is told of a tree's parts, in their order. Where a Match, an arm or an Equal is entered, a reader answers with a mark,
// and is given it back where that is left.
pub trait Reader {
    ghost use Rattle.reading.specs.Acts.{Acts};

    type Mark: Drop;

    ghost acts: { Acts Self Self.Mark };

    // Step `number` of its block begins with these lets.
    fn lets(&mut self, number: u32, sites: &[u32])
        ensures { self.new ≡ acts.lets self.old number sites.now };

    // The same, with one more than the greatest of the sites, or 0: a reader that asks no more of them need not go over them again.
    fn lets_below(&mut self, number: u32, sites: &[u32], bound: usize)
        requires { bound ≡ above sites.now }
        ensures { self.new ≡ acts.lets self.old number sites.now }
    {
        self.lets(number, sites);
    }

    fn enter_match(&mut self, site: u32) -> Self::Mark
        requires { site ≤ 251 }
        ensures into { self.new ≡ (acts.matches self.old site).0 }
        ensures mark { result ≡ (acts.matches self.old site).1 };

    // Arm `number` of a Match with this source.
    fn enter_arm(&mut self, number: u32, site: u32, named: &Named<'_>) -> Self::Mark
        requires { site ≤ 251 }
        ensures into { self.new ≡ (acts.arm_of self.old number site
            (pattern_at named.now.kind named.now.number (length named.now.places.now), map place_of named.now.places.now)).0 }
        ensures mark { result ≡ (acts.arm_of self.old number site
            (pattern_at named.now.kind named.now.number (length named.now.places.now), map place_of named.now.places.now)).1 };

    fn enter_equal(&mut self, a: u32, b: u32) -> Self::Mark
        requires { (a < b) × (b ≤ 251) }
        ensures into { self.new ≡ (acts.equals self.old a b).0 }
        ensures mark { result ≡ (acts.equals self.old a b).1 };

    fn returned(&mut self, rule: u32, pos: u32, site: u32)
        requires { (rule ≤ 251) × (site ≤ 251) }
        ensures { self.new ≡ acts.returns self.old rule pos site };

    fn leave(&mut self, mark: Self::Mark)
        ensures { self.new ≡ acts.leaves self.old mark };
}

// One word, and n words.
fn number(w: &[u32]) -> Option<(u32, &[u32])>
    ensures { number w.now ≡ one_word result }
{
    let (first, rest) = w.split_first()?;
    Some((*first, rest))
}

fn numbers(w: &[u32], n: u32) -> Option<(&[u32], &[u32])>
    ensures read { numbers n w.now ≡ some_words result }
    ensures counted { IfSome result (λ p. length p.0.now ≡ n) }
{
    w.split_at_checked(n as usize)
}

// One more than the greatest of the sites, 0 where there is none; nothing, where one of them is no id.
fn bound_of(sites: &[u32]) -> Option<usize>
    ensures { MatchOption result (all id_ok sites.now ≡ false) (λ b. (all id_ok sites.now ≡ true) × (b ≡ above sites.now)) }
{
    let mut bound: usize = 0;
    for s in sites {
        if *s > LAST {
            return None;
        }
        bound = bound.max(*s as usize + 1);
    }
    Some(bound)
}

// A place names a site or is empty.
fn is_place(w: u32) -> bool
    ensures { result ≡ place_ok (place_of w) }
{
    w == EMPTY || w <= LAST
}

fn are_places(places: &[u32]) -> bool
    ensures { result ≡ all place_ok (map place_of places.now) }
{
    places.iter().all(|p| is_place(*p))
}

// The signed number of a word.
fn signed_of(w: u32) -> i32
    ensures { result ≡ signed w }
{
    w.cast_signed()
}

// An arm's pattern and its places.
#[tactic(auto, unfolding(definition::specs::Read::read_pattern, definition::specs::Read::read_places))]
fn pattern(w: &[u32]) -> Option<(Named<'_>, &[u32])>
    ensures { read_pattern w.now ≡ pattern_of result }
{
    let (kind, w) = number(w)?;
    let (fields, w) = number(w)?;
    let (word, w) = number(w)?;
    if !tree::pattern_ok(kind, fields, word) {
        return None;
    }
    let (places, w) = numbers(w, fields)?;
    if !are_places(places) {
        return None;
    }
    let named = Named {
        kind,
        number: signed_of(word),
        places,
    };
    Some((named, w))
}

// A count, and as many ids.
#[tactic(auto, unfolding(definition::specs::Read::read_lets))]
fn lets<'a, R: Reader>(w: &'a [u32], step: u32, reader: &mut R) -> Option<&'a [u32]>
    ensures { Ends (R.acts.lets reader.old step) (read_lets w.now) result reader.new }
{
    let (count, w) = number(w)?;
    let (sites, w) = numbers(w, count)?;
    let bound = bound_of(sites)?;
    reader.lets_below(step, sites, bound);
    Some(w)
}

// A Return: its rule, pos and result.
#[tactic(auto, unfolding(definition::specs::Read::read_flow, definition::specs::Read::id_ok, crate::specs::Acts::flow_after))]
fn end<'a, R: Reader>(w: &'a [u32], reader: &mut R) -> Option<&'a [u32]>
    ensures { Ends (flow_after R.acts reader.old) (read_flow (read_block 0) 3 w.now) result reader.new }
{
    let (rule, w) = number(w)?;
    let (pos, w) = number(w)?;
    let (site, w) = number(w)?;
    if rule > LAST || site > LAST {
        return None;
    }
    reader.returned(rule, pos, site);
    Some(w)
}

// A block, in which at most `left` blocks stand one inside another.
#[cycle(reading)]
#[tactic(auto, unfolding(definition::specs::Read::read_block, definition::specs::Read::read_framed))]
fn block<'a, R: Reader>(w: &'a [u32], left: usize, reader: &mut R) -> Option<&'a [u32]>
    ensures { Ends (block_after R.acts reader.old) (read_block left w.now) result reader.new }
{
    if left == 0 {
        return None;
    }
    let (count, w) = number(w)?;
    let (inside, behind) = numbers(w, count)?;
    let rest = steps(inside, left - 1, reader)?;
    if !rest.is_empty() {
        return None;
    }
    Some(behind)
}

// A count, and as many steps, numbered from 1.
#[cycle(reading)]
#[tactic(auto, unfolding(definition::specs::Read::read_counted, crate::specs::Acts::steps_after))]
fn steps<'a, R: Reader>(w: &'a [u32], left: usize, reader: &mut R) -> Option<&'a [u32]>
    ensures { Ends (block_after R.acts reader.old) (read_counted (read_block left) w.now) result reader.new }
{
    let (count, w) = number(w)?;
    let mut rest = w;
    for i in 0..count {
        rest = step(rest, i + 1, left, reader)?;
    }
    Some(rest)
}

// Lets, and what they are for.
#[cycle(reading)]
#[tactic(auto, unfolding(definition::specs::Read::read_step))]
fn step<'a, R: Reader>(w: &'a [u32], i: u32, left: usize, reader: &mut R) -> Option<&'a [u32]>
    ensures { Ends (step_after R.acts i reader.old) (read_step (read_block left) w.now) result reader.new }
{
    let w = lets(w, i, reader)?;
    flow(w, left, reader)
}

// A tag, and what it says.
#[cycle(reading)]
#[tactic(auto, unfolding(definition::specs::Read::read_tagged, definition::specs::Read::read_flow))]
fn flow<'a, R: Reader>(w: &'a [u32], left: usize, reader: &mut R) -> Option<&'a [u32]>
    ensures { Ends (flow_after R.acts reader.old) (read_tagged (read_block left) w.now) result reader.new }
{
    let (tag, w) = number(w)?;
    match tag {
        MATCH => arms(w, left, reader),
        EQUAL => pair(w, left, reader),
        RETURN => end(w, reader),
        _ => None,
    }
}

// A Match: its source, a count, and as many arms, numbered from 1.
#[cycle(reading)]
#[tactic(auto, unfolding(definition::specs::Read::read_flow, definition::specs::Read::id_ok, crate::specs::Acts::flow_after))]
fn arms<'a, R: Reader>(w: &'a [u32], left: usize, reader: &mut R) -> Option<&'a [u32]>
    ensures { Ends (flow_after R.acts reader.old) (read_flow (read_block left) 0 w.now) result reader.new }
{
    let (site, w) = number(w)?;
    let (count, w) = number(w)?;
    if site > LAST {
        return None;
    }
    let mark = reader.enter_match(site);
    let mut rest = w;
    for i in 0..count {
        rest = arm(rest, i + 1, site, left, reader)?;
    }
    reader.leave(mark);
    Some(rest)
}

// An arm of a Match with source `site`: its pattern and its block.
#[cycle(reading)]
#[tactic(auto, unfolding(definition::specs::Read::read_arm))]
fn arm<'a, R: Reader>(
    w: &'a [u32],
    i: u32,
    site: u32,
    left: usize,
    reader: &mut R,
) -> Option<&'a [u32]>
    requires { site ≤ 251 }
    ensures { Ends (arm_after R.acts site i reader.old) (read_arm (read_block left) w.now) result reader.new }
{
    let (named, w) = pattern(w)?;
    let mark = reader.enter_arm(i, site, &named);
    let rest = block(w, left, reader)?;
    reader.leave(mark);
    Some(rest)
}

// An Equal: two sites and a block.
#[cycle(reading)]
#[tactic(auto, unfolding(definition::specs::Read::read_flow, definition::specs::Read::id_ok, crate::specs::Acts::flow_after))]
fn pair<'a, R: Reader>(w: &'a [u32], left: usize, reader: &mut R) -> Option<&'a [u32]>
    ensures { Ends (flow_after R.acts reader.old) (read_flow (read_block left) 1 w.now) result reader.new }
{
    let (a, w) = number(w)?;
    let (b, w) = number(w)?;
    if a >= b || b > LAST {
        return None;
    }
    let mark = reader.enter_equal(a, b);
    let rest = block(w, left, reader)?;
    reader.leave(mark);
    Some(rest)
}

// Tells the reader of the tree that stands first in the words, and gives the words behind it.
pub fn read<'a, R: Reader>(words: &'a [u32], reader: &mut R) -> Option<&'a [u32]>
    ensures { Ends (block_after R.acts reader.old) (read_block 9 words.now) result reader.new }
{
    block(words, DEPTH, reader)
}
