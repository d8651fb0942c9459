// A book on the line, read into word tables or refused (document 01, "The book" and "Refusal numbers").
#![tactic(auto)]

mod records;

ghost use Rattle.std.specs.Prelude.{◌≡◌, ◌&&◌, List, ℕ, ◌+◌, ◌*◌, ◌/◌, ◌≤◌, length, take};
ghost use Rattle.definition.specs.Book.{most, slots};
ghost use Rattle.definition.specs.Tables.{site_words, rule_words};
ghost use Rattle.definition.specs.Accept.{lowest};
ghost use Rattle.definition.specs.Bytes.{site_gaps, rule_gaps, sites_pass, rules_pass};
ghost use Rattle.refusal.specs.Numbers.{refusal_of};
ghost use Rattle.frames.specs.Shapes.{blocks_in, Sizes};
ghost use Rattle.book.specs.Shapes.{record_tests};
ghost use Rattle.book.specs.Reply.{Judged, Decoded};

use frames::fields::read16;
use refusal::Refusal;

// The words of the tables of the most sites and of the most rules that a book has.
pub const SITE_ROOM: usize = tables::SITE_WORDS * tree::MOST;

pub const RULE_ROOM: usize = tables::RULE_WORDS * tree::MOST;

// How many sites and rules a book has.
#[derive(Clone, Copy)]
pub struct Size {
    pub sites: usize,
    pub rules: usize,
}

// Refusal 4 is not given.
fn site_records_ok(book: &[u8], sites: &[u32], count: usize) -> bool
    requires { (count ≤ most) × (512 * (1 + (count + 41) / 42) ≤ length book.now) × (site_words * count ≤ length sites.now) }
    ensures { (n R : ℕ) (u : List ℕ) → result ≡ (site_gaps book.now count && sites_pass n count R sites.now u) }
{
    records::site_gaps(book, count) && checks::sites::sites_pass(sites, count)
}

// Refusal 5 is not given.
fn rule_records_ok(book: &[u8], rules: &[u32], size: Size) -> bool
    requires { (size.sites ≤ most) × (size.rules ≤ most) × (512 * blocks_in size.sites size.rules ≤ length book.now)
        × (rule_words slots * size.rules ≤ length rules.now) }
    ensures { (t : List ℕ) → result ≡ (rule_gaps slots book.now size.sites size.rules
        && rules_pass slots size.sites size.rules t rules.now) }
{
    records::rule_gaps(book, size.sites, size.rules)
        && checks::rules::rules_pass(rules, size.rules, size.sites)
}

// Refuses a book with these tables by the first of the tests 4 to 8 that it fails.
fn check_records(book: &[u8], sites: &[u32], rules: &[u32], size: Size) -> Result<(), Refusal>
    requires { (size.sites ≤ most) × (size.rules ≤ most) × (512 * blocks_in size.sites size.rules ≤ length book.now)
        × (site_words * size.sites ≤ length sites.now) × (rule_words slots * size.rules ≤ length rules.now) }
    ensures { refusal_of result ≡ lowest 4 (record_tests book.now size.sites size.rules sites.now rules.now) }
{
    if !site_records_ok(book, sites, size.sites) {
        return Err(Refusal::SiteRecord);
    }
    if !rule_records_ok(book, rules, size) {
        return Err(Refusal::RuleRecord);
    }
    checks::check_book(sites, size.sites, rules, size.rules)
}

// The same with the tables at the front of what is lent.
fn check_front(book: &[u8], sites: &[u32], rules: &[u32], size: Size) -> Result<(), Refusal>
    requires { (size.sites ≤ most) × (size.rules ≤ most) × (512 * blocks_in size.sites size.rules ≤ length book.now)
        × (site_words * size.sites ≤ length sites.now) × (rule_words slots * size.rules ≤ length rules.now) }
    ensures { refusal_of result ≡ lowest 4 (record_tests book.now size.sites size.rules
        (take (site_words * size.sites) sites.now) (take (rule_words slots * size.rules) rules.now)) }
{
    let sites = &sites[..tables::SITE_WORDS * size.sites];
    let rules = &rules[..tables::RULE_WORDS * size.rules];
    check_records(book, sites, rules, size)
}

// Fills the tables, and refuses them by the first of the tests 4 to 8 that they fail.
fn fill(
    book: &[u8],
    size: Size,
    sites: &mut [u32; SITE_ROOM],
    rules: &mut [u32; RULE_ROOM],
) -> Result<(), Refusal>
    requires { Sizes book.now size.sites size.rules }
    ensures { Judged book.now size.sites size.rules (refusal_of result) sites.new rules.new }
{
    records::put_sites(book, size.sites, sites);
    records::put_rules(book, size.sites, size.rules, rules);
    check_front(book, sites, rules, size)
}

// Internal: the tables of a book, at the front of what is lent, or its refusal. What the tables hold after a refusal is not
// promised.
pub fn read(
    book: &[u8],
    sites: &mut [u32; SITE_ROOM],
    rules: &mut [u32; RULE_ROOM],
) -> Result<Size, Refusal>
    ensures { Decoded book.now result sites.new rules.new }
{
    frames::check_blocks(book)?;
    let size = Size {
        sites: read16(book, 4) as usize,
        rules: read16(book, 6) as usize,
    };
    fill(book, size, sites, rules)?;
    Ok(size)
}
