// Refusal 4: a site record breaks its rules. Only the bytes that no word holds are left to the reader of bytes.
ghost use Rattle.std.specs.Prelude.{◌≡◌, List, map, ℕ, ◌+◌, ◌*◌, ◌<◌, ◌≤◌, length, get_or};
ghost use Rattle.definition.specs.Lists.{all, upto};
ghost use Rattle.definition.specs.Book.{most};
ghost use Rattle.definition.specs.Tables.{site_words, site_word, source_at, site_at, site_tidy, zero_from};
ghost use Rattle.definition.specs.Accept.{twins, smaller_than};
ghost use Rattle.definition.specs.Bytes.{sites_pass};
ghost use Rattle.checks.specs.Words.{shape_words, twinless, site_fine};

use crate::words::SLOTS;
use tables::{
    KIND_WORD, NUMBER_WORD, PATTERN_WORD, POSITION_WORD, SITE_WORDS, SOURCE_COUNT_WORD,
    SOURCES_WORD,
};

#[tactic(auto, using(crate::proofs::Shape::shapes))]
fn shape_ok(kind: u32, count: u32, pattern: u32, position: u32, number: u32) -> bool
    ensures { result ≡ shape_words kind count pattern position number }
{
    match kind {
        0..=2 => count == 0,
        3 => count == 1,
        4..=6 => count <= 4,
        7 => count == 1 && (pattern == 2 || pattern == 3 && position == 0 && number == 0),
        _ => false,
    }
}

// Each of so many sources of a site has an id smaller than `s`.
fn sources_smaller(site: &[u32; SITE_WORDS], s: usize, count: usize) -> bool
    requires { count ≤ 4 }
    ensures { result ≡ all (smaller_than s) (map (source_at site.now 0) (upto count)) }
{
    (0..count).all(|k| (site[SOURCES_WORD + k] as usize) < s)
}

// The first source, 0 if there is none.
#[tactic(auto, using(tables::proofs::Fields::first_source))]
fn first_source(site: &[u32; SITE_WORDS]) -> u32
    ensures { result ≡ get_or (site_at site.now 0).sources 0 0 }
{
    if site[SOURCE_COUNT_WORD] == 0 {
        return 0;
    }
    site[SOURCES_WORD]
}

#[tactic(auto, using(crate::proofs::SiteTests::twins_is), unfolding(definition::specs::Lists::every))]
fn twins(site: &[u32; SITE_WORDS], other: &[u32; SITE_WORDS]) -> bool
    ensures { result ≡ twins (site_at site.now 0) (site_at other.now 0) }
{
    // Read before the chain, so that the range of both words is known to the whole of its proof.
    let same_number = site[NUMBER_WORD] == other[NUMBER_WORD];
    site[KIND_WORD] == 7
        && other[KIND_WORD] == 7
        && first_source(site) == first_source(other)
        && site[PATTERN_WORD] == other[PATTERN_WORD]
        && same_number
        && site[POSITION_WORD] == other[POSITION_WORD]
}

// None of the sites before the one of id `s` is its twin.
fn no_twin_before(sites: &[u32], site: &[u32; SITE_WORDS], s: usize) -> bool
    requires { site_words * s ≤ length sites.now }
    ensures { result ≡ all (twinless sites.now (site_at site.now 0)) (upto s) }
{
    (0..s).all(|r| !twins(tables::site_record(sites, r), site))
}

// Internal: `n` words from `at` on are zero.
pub fn zero_words(words: &[u32], at: usize, n: usize) -> bool
    requires { at + n ≤ length words.now }
    ensures { result ≡ zero_from words.now at n }
{
    words[at..at + n].iter().all(|w| *w == 0)
}

// The sources behind the count are zero.
#[tactic(auto, unfolding(definition::specs::Tables::site_tidy))]
fn tidy(site: &[u32; SITE_WORDS]) -> bool
    requires { site_word site.now 0 1 ≤ 4 }
    ensures { result ≡ site_tidy site.now 0 }
{
    if site[KIND_WORD] == 7 {
        return true;
    }
    let count = site[SOURCE_COUNT_WORD] as usize;
    zero_words(site, SOURCES_WORD + count, SLOTS - count)
}

// A site, which is that of id `s`, keeps the rules of its record.
#[tactic(auto, using(crate::proofs::SiteTests::fine_words, crate::proofs::Shape::shape_count), unfolding(definition::specs::Lists::every))]
fn site_ok(sites: &[u32], site: &[u32; SITE_WORDS], s: usize) -> bool
    requires { site_words * s ≤ length sites.now }
    ensures { result ≡ site_fine sites.now site.now 0 s }
{
    let count = site[SOURCE_COUNT_WORD];
    let shaped = shape_ok(
        site[KIND_WORD],
        count,
        site[PATTERN_WORD],
        site[POSITION_WORD],
        site[NUMBER_WORD],
    );
    shaped
        && sources_smaller(site, s, count as usize)
        && no_twin_before(sites, site, s)
        && tidy(site)
}

// Internal: refusal 4 is not given to a table of `count` sites.
pub fn sites_pass(sites: &[u32], count: usize) -> bool
    requires { (site_words * count ≤ length sites.now) × (count ≤ most) }
    ensures { (n R : ℕ) (u : List ℕ) → result ≡ sites_pass n count R sites.now u }
{
    (0..count).all(|s| site_ok(sites, tables::site_record(sites, s), s))
}
