// The records of a book as words, a word a field, and the bytes of a record that no word holds.
ghost use Rattle.std.specs.Prelude.{◌≡◌, map, ◌+◌, ◌*◌, ◌/◌, ◌<◌, ◌≤◌, length};
ghost use Rattle.std.proofs.lemmas.List.Edits.{sets};
ghost use Rattle.definition.specs.Lists.{upto, flat};
ghost use Rattle.definition.specs.Book.{most, slots};
ghost use Rattle.definition.specs.Tables.{site_words, rule_words, zero_from};
ghost use Rattle.definition.specs.Bytes.{site_fields, constraint_fields, id_field, rule_fields, site_offset, rule_offset};
ghost use Rattle.definition.specs.Bytes.{site_table, rule_table, site_gaps, rule_gaps};
ghost use Rattle.frames.specs.Shapes.{blocks_in};
ghost use Rattle.book.specs.Shapes.{record_gap};

use frames::fields::{read8, read16, read32};
use frames::{BLOCK_BYTES, RULE_BYTES, RULES_A_BLOCK, SITE_BYTES, SITES_A_BLOCK};

// Where the record of site `s` begins.
fn site_offset(s: usize) -> usize
    requires { s < most }
    ensures { result ≡ site_offset s }
{
    BLOCK_BYTES * (1 + s / SITES_A_BLOCK) + 4 + SITE_BYTES * (s % SITES_A_BLOCK)
}

// Where the record of rule `i` begins, in a book of so many sites.
fn rule_offset(sites: usize, i: usize) -> usize
    requires { (sites ≤ most) × (i < most) }
    ensures { result ≡ rule_offset slots sites i }
{
    let first = 1 + sites.div_ceil(SITES_A_BLOCK);
    BLOCK_BYTES * (first + i / RULES_A_BLOCK) + 4 + RULE_BYTES * (i % RULES_A_BLOCK)
}

// The words of the site record at byte `o`.
#[tactic(auto, using(crate::proofs::Recording::site_bound, crate::proofs::Recording::site_plain))]
fn site_fields(book: &[u8], o: usize) -> [u32; 6]
    requires { o + 12 ≤ length book.now }
    ensures { result ≡ site_fields book.now o }
{
    let kind = read8(book, o);
    let count = read8(book, o + 1);
    let first = read16(book, o + 2);
    if kind == 7 {
        let number = read32(book, o + 6);
        return [
            kind,
            count,
            first,
            read8(book, o + 4),
            read8(book, o + 5),
            number,
        ];
    }
    let (second, third, fourth) = (
        read16(book, o + 4),
        read16(book, o + 6),
        read16(book, o + 8),
    );
    [kind, count, first, second, third, fourth]
}

// Internal: the site table of a book of `count` sites.
pub fn put_sites(book: &[u8], count: usize, sites: &mut [u32])
    requires { (count ≤ most) × (512 * (1 + (count + 41) / 42) ≤ length book.now) × (site_words * count ≤ length sites.old) }
    ensures { sites.new ≡ sets sites.old 0 (site_table book.now count) }
{
    for s in 0..count {
        let at = tables::SITE_WORDS * s;
        sites[at..at + tables::SITE_WORDS].copy_from_slice(&site_fields(book, site_offset(s)));
    }
}

// The words of constraint `k` of the rule record at byte `o`.
#[tactic(auto, unfolding(definition::specs::Bytes::constraint_fields))]
fn constraint_fields(book: &[u8], o: usize, k: usize) -> [u32; 4]
    requires { (o + 72 ≤ length book.now) × (k < slots) }
    ensures { result ≡ constraint_fields book.now o k }
{
    let c = o + 14 + 8 * k;
    [
        read16(book, c),
        read8(book, c + 2),
        read8(book, c + 3),
        read32(book, c + 4),
    ]
}

// The words of the four constraints of the rule record at byte `o`.
fn put_constraints(book: &[u8], o: usize, rules: &mut [u32], at: usize)
    requires { (o + 72 ≤ length book.now) × (at + 16 ≤ length rules.old) }
    ensures { rules.new ≡ sets rules.old at (flat (constraint_fields book.now o) (upto slots)) }
{
    for k in 0..4 {
        let start = at + 4 * k;
        rules[start..start + 4].copy_from_slice(&constraint_fields(book, o, k));
    }
}

// The twelve ids of the rule record at byte `o`: of four pairs, and of four impure sites.
fn put_ids(book: &[u8], o: usize, rules: &mut [u32], at: usize)
    requires { (o + 72 ≤ length book.now) × (at + 12 ≤ length rules.old) }
    ensures { rules.new ≡ sets rules.old at (map (id_field slots book.now o) (upto 12)) }
{
    for k in 0..12 {
        let id = read16(book, o + 46 + 2 * k);
        rules[at + k] = id;
    }
}

// The words of the rule record at byte `o`.
#[tactic(auto, using(crate::proofs::Recording::rule_run, crate::proofs::Recording::written))]
fn put_rule(book: &[u8], o: usize, rules: &mut [u32], at: usize)
    requires { (o + 72 ≤ length book.now) × (at + rule_words slots ≤ length rules.old) }
    ensures { rules.new ≡ sets rules.old at (rule_fields slots book.now o) }
{
    rules[at..at + 6].copy_from_slice(&[
        read32(book, o),
        read32(book, o + 4),
        read16(book, o + 8),
        read8(book, o + 10),
        read8(book, o + 11),
        read8(book, o + 12),
    ]);
    put_constraints(book, o, rules, at + 6);
    put_ids(book, o, rules, at + 22);
}

// Internal: the rule table of a book of so many sites and `count` rules.
pub fn put_rules(book: &[u8], sites: usize, count: usize, rules: &mut [u32])
    requires { (sites ≤ most) × (count ≤ most) × (512 * blocks_in sites count ≤ length book.now)
        × (rule_words slots * count ≤ length rules.old) }
    ensures { rules.new ≡ sets rules.old 0 (rule_table slots book.now sites count) }
{
    for i in 0..count {
        put_rule(book, rule_offset(sites, i), rules, tables::RULE_WORDS * i);
    }
}

// The bytes of the site record at byte `o` that no word holds are zero.
#[tactic(auto, unfolding(definition::specs::Tables::is_zero))]
fn site_gap(book: &[u8], o: usize) -> bool
    requires { o + 12 ≤ length book.now }
    ensures { result ≡ zero_from book.now (o + 10) 2 }
{
    book[o + 10] == 0 && book[o + 11] == 0
}

// Internal: the bytes of site records that no word holds are zero.
pub fn site_gaps(book: &[u8], count: usize) -> bool
    requires { (count ≤ most) × (512 * (1 + (count + 41) / 42) ≤ length book.now) }
    ensures { result ≡ site_gaps book.now count }
{
    (0..count).all(|s| site_gap(book, site_offset(s)))
}

// The bytes of the rule record at byte `o` that no word holds are zero.
#[tactic(auto, unfolding(definition::specs::Tables::is_zero))]
fn rule_gap(book: &[u8], o: usize) -> bool
    requires { o + 72 ≤ length book.now }
    ensures { result ≡ record_gap book.now o }
{
    book[o + 13] == 0 && book[o + 70] == 0 && book[o + 71] == 0
}

// Internal: the same of all rule records.
pub fn rule_gaps(book: &[u8], sites: usize, count: usize) -> bool
    requires { (sites ≤ most) × (count ≤ most) × (512 * blocks_in sites count ≤ length book.now) }
    ensures { result ≡ rule_gaps slots book.now sites count }
{
    (0..count).all(|i| rule_gap(book, rule_offset(sites, i)))
}
