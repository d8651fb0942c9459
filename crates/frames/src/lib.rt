// Refusals 1 to 3: the length of a book, the sums of its blocks, and their frames with the filler bytes.
#![tactic(auto)]

pub mod fields;

ghost use Rattle.std.specs.Prelude.{◌≡◌, ◌+◌, ◌*◌, ◌/◌, ◌<◌, ◌≤◌, [], ◌∷◌, length};
ghost use Rattle.definition.specs.Lists.{all, upto};
ghost use Rattle.definition.specs.Book.{most, slots};
ghost use Rattle.definition.specs.Accept.{lowest};
ghost use Rattle.definition.specs.Bytes.{edition_1, length_ok, sum_of, sums_ok, framed, frame_ok, frames_ok};
ghost use Rattle.refusal.specs.Numbers.{refusal_of};
ghost use Rattle.frames.specs.Shapes.{frame_with, blocks_in};

use fields::{read16, read32};
use refusal::Refusal;
use tree::MOST;

pub const BLOCK_BYTES: usize = 512;

// The bytes of a block between its head of four bytes and its check of four.
const RECORDS_BYTES: usize = 504;

// The words of a block, added and wrapped at 32 bits.
const RIGHT_SUM: u32 = 0x4C49_4654;

pub const SITES_A_BLOCK: usize = 42;

pub const RULES_A_BLOCK: usize = 7;

pub const SITE_BYTES: usize = 12;

pub const RULE_BYTES: usize = 72;

#[tactic(auto, unfolding(definition::specs::Bytes::length_ok))]
fn length_ok(book: &[u8]) -> bool
    ensures { result ≡ length_ok book.now }
{
    !book.is_empty() && book.len() % BLOCK_BYTES == 0
}

// The sum of the 128 words from `at` on, wrapped at 32 bits.
fn block_sum(book: &[u8], at: usize) -> u32
    requires { at + 512 ≤ length book.now }
    ensures { result ≡ sum_of edition_1.weight book.now at 128 }
{
    let mut sum: u32 = 0;
    for k in 0..128 {
        sum = sum.wrapping_add(read32(book, at + 4 * k));
    }
    sum
}

fn sums_ok(book: &[u8]) -> bool
    ensures { result ≡ sums_ok book.now }
{
    (0..book.len() / BLOCK_BYTES).all(|i| block_sum(book, BLOCK_BYTES * i) == RIGHT_SUM)
}

// Block `i` has its number, that kind and count, and zeros behind the bytes in use.
#[tactic(auto, unfolding(definition::specs::Bytes::framed, definition::specs::Lists::every))]
fn framed(book: &[u8], i: usize, kind: u8, count: u8, used: usize) -> bool
    requires { (512 * i + 512 ≤ length book.now) × (used ≤ 504) }
    ensures { result ≡ framed book.now i (frame_with kind count used) }
{
    let o = BLOCK_BYTES * i;
    read16(book, o) as usize == i
        && book[o + 2] == kind
        && book[o + 3] == count
        && book[o + 4 + used..o + 4 + RECORDS_BYTES]
            .iter()
            .all(|x| *x == 0)
}

// Block `i` of a book of so many sites and rules.
#[tactic(auto, using(crate::proofs::Framing::frames), unfolding(definition::specs::Bytes::frame_ok))]
fn frame_ok(book: &[u8], i: usize, sites: usize, rules: usize) -> bool
    requires { (512 * i + 512 ≤ length book.now) × (sites ≤ most) × (rules ≤ most) × (i < blocks_in sites rules) }
    ensures { result ≡ frame_ok slots sites rules book.now i }
{
    let site_blocks = sites.div_ceil(SITES_A_BLOCK);
    if i == 0 {
        return framed(book, i, 1, 0, 4);
    }
    if i <= site_blocks {
        let count = SITES_A_BLOCK.min(sites - SITES_A_BLOCK * (i - 1));
        return framed(book, i, 2, count as u8, SITE_BYTES * count);
    }
    let count = RULES_A_BLOCK.min(rules - RULES_A_BLOCK * (i - 1 - site_blocks));
    framed(book, i, 3, count as u8, RULE_BYTES * count)
}

fn all_framed(book: &[u8], count: usize, sites: usize, rules: usize) -> bool
    requires { (512 * count ≤ length book.now) × (sites ≤ most) × (rules ≤ most) × (count ≡ blocks_in sites rules) }
    ensures { result ≡ all (frame_ok slots sites rules book.now) (upto count) }
{
    (0..count).all(|i| frame_ok(book, i, sites, rules))
}

#[tactic(auto, using(crate::proofs::Framing::totals))]
fn frames_ok(book: &[u8]) -> bool
    requires { 512 ≤ length book.now }
    ensures { result ≡ frames_ok slots book.now }
{
    let sites = read16(book, 4) as usize;
    let rules = read16(book, 6) as usize;
    let count = book.len() / BLOCK_BYTES;
    sites <= MOST
        && rules <= MOST
        && count == 1 + sites.div_ceil(SITES_A_BLOCK) + rules.div_ceil(RULES_A_BLOCK)
        && all_framed(book, count, sites, rules)
}

// Internal: refuses a book by the first of the tests 1 to 3 that it fails.
#[tactic(auto, using(crate::proofs::Framing::at_least_one))]
pub fn check_blocks(book: &[u8]) -> Result<(), Refusal>
    ensures { refusal_of result ≡ lowest 1 (length_ok book.now ∷ sums_ok book.now ∷ frames_ok slots book.now ∷ []) }
{
    if !length_ok(book) {
        return Err(Refusal::Length);
    }
    if !sums_ok(book) {
        return Err(Refusal::Sums);
    }
    if !frames_ok(book) {
        return Err(Refusal::Frames);
    }
    Ok(())
}
