// A book's tables of words, read field by field: 6 words a site, 34 a rule.
#![tactic(auto)]

ghost use Rattle.std.specs.Prelude.{◌≡◌, ◌+◌, ◌*◌, ◌<◌, ◌≤◌, map, length, take, drop, slice_index};
ghost use Rattle.definition.specs.Book.{slots, constrains, pattern_on, linked};
ghost use Rattle.definition.specs.Tables.{signed, site_words, site_word, site_at, rule_words, rule_word, constraint_at, rule_at};
ghost use Rattle.definition.specs.Scope.{never_listed};
ghost use Rattle.definition.specs.Choice.{has};
ghost use Rattle.laws.specs.Loops.{relabel};
ghost use Rattle.tables.specs.Held.{Held, Sited, biased, rank_of, shown, test_of, site_slot, end_slot, FirstOn, Labels, Ended};

pub const SITE_WORDS: usize = 6;

pub const RULE_WORDS: usize = 34;

// The words of a site record: its kind, how many sources it has, and four sources.
pub const KIND_WORD: usize = 0;

pub const SOURCE_COUNT_WORD: usize = 1;

pub const SOURCES_WORD: usize = 2;

// A kind 7 site has one source, and behind it:
pub const PATTERN_WORD: usize = 3;

pub const POSITION_WORD: usize = 4;

pub const NUMBER_WORD: usize = 5;

// The words of a rule record: its fields, its counts, and the first word of each kind of slot.
pub const PRIORITY_WORD: usize = 0;

pub const POS_WORD: usize = 1;

pub const RESULT_WORD: usize = 2;

pub const CONSTRAINT_COUNT_WORD: usize = 3;

pub const PAIR_COUNT_WORD: usize = 4;

pub const IMPURE_COUNT_WORD: usize = 5;

pub const CONSTRAINTS_WORD: usize = 6;

pub const PAIRS_WORD: usize = 22;

pub const IMPURES_WORD: usize = 30;

// A constraint's words: site, pattern kind, field count, number.
pub const CONSTRAINT_WORDS: usize = 4;

// What a constraint asks of its site. The derived order is the order of arms: kind, then signed number, then field count.
// `kind` is no enum: `pattern_on` promises the definition's pattern of every rule that may be read, and its word may be any.
#[derive(Clone, Copy, Debug, PartialEq, Eq, PartialOrd, Ord)]
pub struct Pattern {
    pub kind: u32,
    pub number: i32,
    pub fields: u32,
}

// A test: a constraint on a site, or a pair of sites in one class, the smaller first.
#[derive(Clone, Copy, Debug, PartialEq, Eq)]
pub enum Test {
    On(usize),
    Same(usize, usize),
}

// A site record of a book's table that may be read: it stands in the table, and its count is that of a record.
#[derive(Clone, Copy)]
pub struct Site<'a> {
    pub words: &'a [u32],
    pub id: usize,
    pub ghost sited: { Sited words.now id },
}

// A rule record of a book's table that may be read: it stands in the table, and its counts are those of a record.
#[derive(Clone, Copy)]
pub struct Rule<'a> {
    pub words: &'a [u32],
    pub id: usize,
    pub ghost held: { Held words.now id },
}

// A signed number's word with the sign's bit turned, so that the order of words is the order of numbers. No `i32`, since a choice
// counts one more than a priority.
fn turned(w: u32) -> u32
    ensures { result ≡ biased w }
{
    w.wrapping_add(0x8000_0000)
}

// Internal: the words of site `s`, whether or not its count fits.
pub fn site_record(sites: &[u32], s: usize) -> &[u32; SITE_WORDS]
    requires { site_words * s + site_words ≤ length sites.now }
    ensures { result.now ≡ take site_words (drop (site_words * s) sites.now) }
{
    sites[SITE_WORDS * s..].first_chunk::<SITE_WORDS>().unwrap()
}

// Internal: word `k` of site `s`.
pub fn site_word(sites: &[u32], s: usize, k: usize) -> u32
    requires { (site_words * s + site_words ≤ length sites.now) × (k < site_words) }
    ensures { result ≡ site_word sites.now s k }
{
    sites[SITE_WORDS * s + k]
}

// Internal: the words of rule `i`, whether or not its counts fit.
pub fn rule_record(rules: &[u32], i: usize) -> &[u32; RULE_WORDS]
    requires { rule_words slots * i + rule_words slots ≤ length rules.now }
    ensures { result.now ≡ take (rule_words slots) (drop (rule_words slots * i) rules.now) }
{
    rules[RULE_WORDS * i..].first_chunk::<RULE_WORDS>().unwrap()
}

// Internal: word `k` of rule `i`.
pub fn rule_word(rules: &[u32], i: usize, k: usize) -> u32
    requires { (rule_words slots * i + rule_words slots ≤ length rules.now) × (k < rule_words slots) }
    ensures { result ≡ rule_word slots rules.now i k }
{
    rules[RULE_WORDS * i + k]
}

// Internal: word `k` of rule `i`, as an id or a count.
pub fn rule_id(rules: &[u32], i: usize, k: usize) -> usize
    requires { (rule_words slots * i + rule_words slots ≤ length rules.now) × (k < rule_words slots) }
    ensures { result ≡ rule_word slots rules.now i k }
{
    rule_word(rules, i, k) as usize
}

// What has the label `from` gets the label `to`.
fn relabelled(old: [u32; 8], from: u32, to: u32) -> [u32; 8]
    ensures { result ≡ map (relabel from to) old }
{
    old.map(|v| if v == from { to } else { v })
}

impl<'a> Site<'a> {
    // Word `k` of the record.
    fn word(&self, k: usize) -> u32
        requires { k < site_words }
        ensures { result ≡ site_word self.now.words.now self.now.id k }
    {
        site_word(self.words, self.id, k)
    }

    // Internal: the site's kind. A word and no enum: a record that may be read may be of any kind.
    #[tactic(auto, unfolding(definition::specs::Tables::site_at))]
    pub fn kind(&self) -> u32
        ensures { result ≡ (site_at self.now.words.now self.now.id).kind }
    {
        self.word(KIND_WORD)
    }

    // Internal: how many sources the site has.
    #[tactic(auto, using(crate::proofs::Fields::source_count))]
    pub fn source_count(&self) -> usize
        ensures { (result ≡ length (site_at self.now.words.now self.now.id).sources) × (result ≤ 4) }
    {
        self.word(SOURCE_COUNT_WORD) as usize
    }

    // Internal: source `k` of the site.
    #[tactic(auto, using(crate::proofs::Fields::source_count, crate::proofs::Fields::source_is))]
    pub fn source(&self, k: usize) -> usize
        requires { k < length (site_at self.now.words.now self.now.id).sources }
        ensures { result ≡ slice_index (site_at self.now.words.now self.now.id).sources k }
    {
        self.word(SOURCES_WORD + k) as usize
    }

    // Internal: the pattern kind of a kind 7 site.
    #[tactic(auto, using(crate::proofs::Fields::bound_kind))]
    pub fn bound_kind(&self) -> u32
        requires { (site_at self.now.words.now self.now.id).kind ≡ 7 }
        ensures { result ≡ (site_at self.now.words.now self.now.id).pattern }
    {
        self.word(PATTERN_WORD)
    }

    // Internal: the position of a kind 7 site.
    #[tactic(auto, using(crate::proofs::Fields::bound_position))]
    pub fn bound_position(&self) -> u32
        requires { (site_at self.now.words.now self.now.id).kind ≡ 7 }
        ensures { result ≡ (site_at self.now.words.now self.now.id).position }
    {
        self.word(POSITION_WORD)
    }

    // Internal: the word of a kind 7 site's number.
    #[tactic(auto, using(crate::proofs::Fields::bound_number))]
    pub fn bound_number(&self) -> u32
        requires { (site_at self.now.words.now self.now.id).kind ≡ 7 }
        ensures { signed result ≡ (site_at self.now.words.now self.now.id).number }
    {
        self.word(NUMBER_WORD)
    }

    // Internal: whether the site never stands in a let list.
    pub fn never_listed(&self) -> bool
        ensures { result ≡ never_listed (site_at self.now.words.now self.now.id) }
    {
        let kind = self.word(KIND_WORD);
        kind < 4 || kind < 6 && self.word(SOURCE_COUNT_WORD) == 0
    }
}

impl<'a> Rule<'a> {
    // Word `k` of the record.
    fn word(&self, k: usize) -> u32
        requires { k < rule_words slots }
        ensures { result ≡ rule_word slots self.now.words.now self.now.id k }
    {
        rule_word(self.words, self.id, k)
    }

    // Word `k` of the record, as an id or a count.
    fn id_at(&self, k: usize) -> usize
        requires { k < rule_words slots }
        ensures { result ≡ rule_word slots self.now.words.now self.now.id k }
    {
        rule_id(self.words, self.id, k)
    }

    // Internal: the rule's priority, as a word whose order is the signed number's.
    pub fn priority(&self) -> u32
        ensures { result ≡ rank_of self.now.words.now self.now.id }
    {
        turned(self.word(PRIORITY_WORD))
    }

    // Internal: the rule's position in its source text.
    #[tactic(auto, unfolding(definition::specs::Tables::rule_at))]
    pub fn pos(&self) -> u32
        ensures { result ≡ (rule_at slots self.now.words.now self.now.id).pos }
    {
        self.word(POS_WORD)
    }

    // Internal: the site that the rule returns.
    #[tactic(auto, unfolding(definition::specs::Tables::rule_at))]
    pub fn result(&self) -> u32
        ensures { result ≡ (rule_at slots self.now.words.now self.now.id).result }
    {
        self.word(RESULT_WORD)
    }

    // Internal: how many impure sites the rule has.
    #[tactic(auto, using(crate::proofs::Fields::impure_count))]
    pub fn impure_count(&self) -> usize
        ensures { (result ≡ length (rule_at slots self.now.words.now self.now.id).impure)
            × ((result ≡ rule_word slots self.now.words.now self.now.id 5) × (result ≤ 4)) }
    {
        self.id_at(IMPURE_COUNT_WORD)
    }

    // Internal: impure site `k` of the rule.
    #[tactic(auto, using(crate::proofs::Fields::impure_count, crate::proofs::Fields::impure_is))]
    pub fn impure(&self, k: usize) -> usize
        requires { k < length (rule_at slots self.now.words.now self.now.id).impure }
        ensures { result ≡ slice_index (rule_at slots self.now.words.now self.now.id).impure k }
    {
        self.id_at(IMPURES_WORD + k)
    }

    // Internal: how many constraints the rule has.
    pub fn constraint_count(&self) -> usize
        ensures { (result ≡ rule_word slots self.now.words.now self.now.id 3) × (result ≤ 4) }
    {
        self.id_at(CONSTRAINT_COUNT_WORD)
    }

    // Internal: how many ends the rule's pairs have, two each.
    pub fn end_count(&self) -> usize
        ensures { (result ≡ 2 * rule_word slots self.now.words.now self.now.id 4) × (result ≤ 8) }
    {
        2 * self.id_at(PAIR_COUNT_WORD)
    }

    // Internal: the site of constraint `k` of the rule.
    pub fn constraint_site(&self, k: usize) -> usize
        requires { k < slots }
        ensures { result ≡ site_slot self.now.words.now self.now.id k }
    {
        self.id_at(CONSTRAINTS_WORD + CONSTRAINT_WORDS * k)
    }

    // Internal: whether the rule constrains site `s`.
    pub fn constrains(&self, s: usize) -> bool
        ensures { result ≡ constrains (rule_at slots self.now.words.now self.now.id) s }
    {
        let n = self.constraint_count();
        (0..n).any(|k| self.constraint_site(k) == s)
    }

    // Internal: the site at end `k` of the rule's pairs, whose first and second sites stand in a row.
    pub fn end_site(&self, k: usize) -> usize
        requires { k < 8 }
        ensures { result ≡ end_slot self.now.words.now self.now.id k }
    {
        self.id_at(PAIRS_WORD + k)
    }

    // The place of the first constraint on site `s`, if there is one.
    fn constraint_on(&self, s: usize) -> Option<usize>
        ensures { FirstOn self.now.words.now self.now.id s result }
    {
        let n = self.constraint_count();
        (0..n).find(|k| self.constraint_site(*k) == s)
    }

    // The pattern of constraint `k`.
    fn constraint_pattern(&self, k: usize) -> Pattern
        requires { k < slots }
        ensures { shown result ≡ (constraint_at slots self.now.words.now self.now.id k).pattern }
    {
        let at = CONSTRAINTS_WORD + CONSTRAINT_WORDS * k;
        Pattern {
            kind: self.word(at + 1),
            number: self.word(at + 3).cast_signed(),
            fields: self.word(at + 2),
        }
    }

    // Internal: the pattern that the rule asks of site `s`, which it constrains.
    pub fn pattern_on(&self, s: usize) -> Pattern
        ensures { shown result ≡ pattern_on (rule_at slots self.now.words.now self.now.id) s }
    {
        match self.constraint_on(s) {
            Some(k) => self.constraint_pattern(k),
            None => Pattern {
                kind: 0,
                number: 0,
                fields: 0,
            },
        }
    }

    // The place of site `x` among the ends of the rule's pairs, if it is one of them.
    fn end_of(&self, x: usize) -> Option<usize>
        ensures { Ended self.now.words.now self.now.id x result }
    {
        let n = self.end_count();
        (0..n).find(|k| self.end_site(*k) == x)
    }

    // The ends of the rule's pairs, each of which is its own label at first.
    fn own_labels(&self) -> [u32; 8]
        ensures { Labels self.now.words.now self.now.id 0 result }
    {
        let at = RULE_WORDS * self.id + PAIRS_WORD;
        let mut l = [0u32; 8];
        l.copy_from_slice(&self.words[at..at + 8]);
        l
    }

    // The labels of the ends after all pairs are joined, the last one first.
    fn labels(&self) -> [u32; 8]
        ensures { Labels self.now.words.now self.now.id (rule_word slots self.now.words.now self.now.id 4) result }
    {
        let mut l = self.own_labels();
        let n = self.id_at(PAIR_COUNT_WORD);
        for k in (0..n).rev() {
            l = relabelled(l, l[2 * k + 1], l[2 * k]);
        }
        l
    }

    // Internal: whether sites `x` and `y` are in one class of the rule.
    pub fn links(&self, x: usize, y: usize) -> bool
        ensures { result ≡ linked (rule_at slots self.now.words.now self.now.id).pairs x y }
    {
        if x == y {
            return true;
        }
        let Some(j) = self.end_of(x) else {
            return false;
        };
        let Some(k) = self.end_of(y) else {
            return false;
        };
        let l = self.labels();
        l[j] == l[k]
    }

    // Internal: whether the rule has a test.
    pub fn has(&self, test: Test) -> bool
        ensures { result ≡ has (rule_at slots self.now.words.now self.now.id) (test_of test) }
    {
        match test {
            Test::On(s) => self.constrains(s),
            Test::Same(x, y) => self.links(x, y),
        }
    }
}
