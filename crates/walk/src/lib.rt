// Walks the words of a tree under a reading: a reader that is told of the tree's parts. Every site named is looked at, and
// the walk's answer is found on the same way.
#![tactic(auto)]

ghost use Rattle.std.specs.Prelude.{◌≡◌, ◌<◌, length, map, get_or, pos, [], ◌∷◌};
ghost use Rattle.definition.specs.Lists.{all, ◌below◌};
ghost use Rattle.definition.specs.Read.{place_of};
ghost use Rattle.definition.specs.Walk.{holds, agree, placed_in};
ghost use Rattle.definition.specs.Answers.{walked};
ghost use Rattle.reading.specs.Bounds.{above};
ghost use Rattle.tree.specs.Patterns.{pattern_at};
ghost use Rattle.refusal.specs.Numbers.{told};
ghost use Rattle.walk.specs.Walks.{stop_of, reading};
ghost use Rattle.walk.specs.Determined.{walk_determined};

use reading::{Named, Reader};
use refusal::Refusal;
use std::marker::Model;
use tree::EMPTY;

// The Return at which a walk stops.
#[derive(Clone, Copy, Debug, PartialEq, Eq)]
pub struct Found {
    pub rule: u16,
    pub result: u16,
}

// A reading, which clauses see as the definition's: three lists, as the call is lent them, whose lengths may differ (refusal 10).
#[derive(Drop)]
pub struct Reading<'a> {
    kinds: &'a [u8],
    numbers: &'a [i32],
    identities: &'a [u32],
}

impl<'a> Model for Reading<'a> {
    ghost use Rattle.definition.specs.Walk as definition;

    ghost Value = { definition.Reading };

    ghost view = { λ r. record { kinds = r.kinds.now; numbers = r.numbers.now; identities = r.identities.now } };
}

impl<'a> Reading<'a> {
    // Behind the end of its list a site's kind, number and identity are 0. Three methods, and none over the type of the list: a clause
    // could not say 0 of any type.
    fn kind_at(&self, s: u32) -> u32
        ensures { result ≡ get_or self.now.kinds s 0 }
    {
        u32::from(self.kinds.get(s as usize).copied().unwrap_or(0))
    }

    fn number_at(&self, s: u32) -> i32
        ensures { result ≡ get_or self.now.numbers s (pos 0) }
    {
        self.numbers.get(s as usize).copied().unwrap_or(0)
    }

    fn identity_at(&self, s: u32) -> u32
        ensures { result ≡ get_or self.now.identities s 0 }
    {
        self.identities.get(s as usize).copied().unwrap_or(0)
    }

    // An arm with this pattern holds at site s.
    fn holds(&self, s: u32, kind: u32, number: i32) -> bool
        ensures { result ≡ holds self.now s (pattern_at kind number 0) }
    {
        self.kind_at(s) == kind && self.number_at(s) == number
    }

    #[tactic(auto, unfolding(definition::specs::Walk::agree))]
    fn agrees(&self, a: u32, b: u32) -> bool
        ensures { result ≡ agree self.now a b }
    {
        self.identity_at(a) == self.identity_at(b)
    }

    // The reading has all these sites.
    fn has_all(&self, sites: &[u32]) -> bool
        ensures { result ≡ all (λ s. s below (length self.now.kinds)) sites.now }
    {
        let n = self.kinds.len();
        sites.iter().all(|s| (*s as usize) < n)
    }

    // The same of sites the greatest of which is one less than `bound`.
    fn has_below(&self, sites: &[u32], bound: usize) -> bool
        requires { bound ≡ above sites.now }
        ensures { result ≡ all (λ s. s below (length self.now.kinds)) sites.now }
    {
        are_read(sites, bound, self.kinds.len())
    }

    fn has_places(&self, places: &[u32]) -> bool
        ensures { result ≡ all (λ s. s below (length self.now.kinds)) (placed_in (map place_of places.now)) }
    {
        let n = self.kinds.len();
        places.iter().all(|p| is_read(*p, n))
    }
}

// Whether all sites are of n: the greatest of them, which is one less than `bound`, tells.
fn are_read(sites: &[u32], bound: usize, n: usize) -> bool
    requires { bound ≡ above sites.now }
    ensures { result ≡ all (λ s. s below n) sites.now }
{
    bound <= n
}

// A place is empty, or names one of n sites.
fn is_read(place: u32, n: usize) -> bool
    ensures { result ≡ all (λ s. s below n) (placed_in (map place_of (place ∷ []))) }
{
    place == EMPTY || (place as usize) < n
}

// A walk on its way: whether the reading has all sites named so far, where the walk stops, and whether it is here at all.
#[derive(Drop)]
pub struct Walker<'a> {
    reading: Reading<'a>,
    known: bool,
    stop: Option<Found>,
    here: bool,
}

impl Reader for Walker<'_> {
    ghost use Rattle.walk.specs.Walks.{acts};

    // What was here before.
    type Mark = bool;

    ghost acts = { acts };

    fn lets(&mut self, _number: u32, sites: &[u32]) {
        self.known = self.known && self.reading.has_all(sites);
    }

    fn lets_below(&mut self, _number: u32, sites: &[u32], bound: usize) {
        self.known = self.known && self.reading.has_below(sites, bound);
    }

    fn enter_match(&mut self, site: u32) -> bool {
        self.known = self.known && self.reading.has_all(&[site]);
        self.here
    }

    // The arms behind one that holds are not entered.
    #[tactic(auto, unfolding(definition::specs::Walk::holds))]
    fn enter_arm(&mut self, _number: u32, site: u32, named: &Named<'_>) -> bool {
        self.known = self.known && self.reading.has_places(named.places);
        let held = self.reading.holds(site, named.kind, named.number);
        let onward = self.here && !held;
        self.here = self.here && held;
        onward
    }

    fn enter_equal(&mut self, a: u32, b: u32) -> bool {
        self.known = self.known && self.reading.has_all(&[a, b]);
        let before = self.here;
        self.here = before && self.reading.agrees(a, b);
        before
    }

    fn returned(&mut self, rule: u32, _pos: u32, site: u32) {
        self.known = self.known && self.reading.has_all(&[site]);
        if self.here && self.stop.is_none() {
            self.stop = Some(Found {
                rule: rule as u16,
                result: site as u16,
            });
        }
    }

    fn leave(&mut self, mark: bool) {
        self.here = mark;
    }
}

// Walks the tree that stands first in `words` under a reading of three lists. Refusals 10, 11 and 12; words after the root
// block are ignored.
pub fn walk(
    words: &[u32],
    kinds: &[u8],
    numbers: &[i32],
    identities: &[u32],
) -> Result<Option<Found>, Refusal>
    ensures { told stop_of result ≡ walked words.now (reading kinds.now numbers.now identities.now) }
{
    if kinds.len() != numbers.len() || kinds.len() != identities.len() {
        return Err(Refusal::Lists);
    }
    let mut walker = Walker {
        reading: Reading {
            kinds,
            numbers,
            identities,
        },
        known: true,
        stop: None,
        here: true,
    };
    let Some(_) = reading::read(words, &mut walker) else {
        return Err(Refusal::Tree);
    };
    if !walker.known {
        return Err(Refusal::Unread);
    }
    Ok(walker.stop)
}
