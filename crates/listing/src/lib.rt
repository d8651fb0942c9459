// The listing of a tree, for people: a reader that is told of the tree's parts and writes a line for each. The words are not
// trusted: every one of the root block is looked at.
#![tactic(auto)]

ghost use Rattle.std.specs.Prelude.{◌≡◌};
ghost use Rattle.definition.specs.Read.{read_block};
ghost use Rattle.definition.specs.Answers.{listed};
ghost use Rattle.definition.specs.Listing.{listing};
ghost use Rattle.room.specs.Wrote.{after_all};
ghost use Rattle.reading.specs.Ends.{Ends};
ghost use Rattle.listing.specs.Determined.{list_determined};
ghost use Rattle.listing.specs.Ends.{Leaves, is_some};

use line::Path;
use reading::{Named, Reader};
use refusal::Refusal;
use room::Writer;

// A listing on its way: its text so far, and the path and the number of the step that comes next.
#[derive(Drop)]
struct Lister<'a, 'b> {
    out: &'a mut Writer<'b, u8>,
    path: Path,
    step: u32,
}

impl Reader for Lister<'_, '_> {
    ghost use Rattle.listing.specs.Told.{acts};

    // The path of what is left.
    type Mark = Path;

    ghost acts = { acts };

    fn lets(&mut self, number: u32, sites: &[u32]) {
        line::put_lets(&self.path, sites, self.out);
        self.step = number;
    }

    fn enter_match(&mut self, site: u32) -> Path {
        line::put_match(&self.path, self.step, site, self.out);
        self.path.enter(self.step)
    }

    fn enter_arm(&mut self, number: u32, _site: u32, named: &Named<'_>) -> Path {
        line::put_arm(
            &self.path,
            number,
            named.kind,
            named.number,
            named.places,
            self.out,
        );
        self.path.enter(number)
    }

    fn enter_equal(&mut self, a: u32, b: u32) -> Path {
        line::put_equal(&self.path, self.step, a, b, self.out);
        self.path.enter(self.step)
    }

    fn returned(&mut self, rule: u32, pos: u32, site: u32) {
        line::put_return(&self.path, self.step, rule, pos, site, self.out);
    }

    fn leave(&mut self, mark: Path) {
        self.path = mark;
    }
}

// A reader that writes nothing, for whether a tree is there at all.
#[derive(Drop)]
struct Silent;

impl Reader for Silent {
    ghost use Rattle.listing.specs.Told.{nothing};

    type Mark = ();

    ghost acts = { nothing };

    fn lets(&mut self, _number: u32, _sites: &[u32]) {}

    fn enter_match(&mut self, _site: u32) {}

    fn enter_arm(&mut self, _number: u32, _site: u32, _named: &Named<'_>) {}

    fn enter_equal(&mut self, _a: u32, _b: u32) {}

    fn returned(&mut self, _rule: u32, _pos: u32, _site: u32) {}

    fn leave(&mut self, _mark: ()) {}
}

// Whether a tree stands first in the words.
fn is_tree(words: &[u32]) -> bool
    ensures { result ≡ is_some (read_block 9 words.now) }
{
    reading::read(words, &mut Silent).is_some()
}

// Writes the listing of the tree that stands first in the words, and gives the words behind it.
fn write<'a>(words: &'a [u32], out: &mut Writer<u8>) -> Option<&'a [u32]>
    ensures { Ends (λ k. after_all out.old (listing k)) (read_block 9 words.now) result out.new }
{
    let mut lister = Lister {
        out,
        path: Path::root(),
        step: 0,
    };
    reading::read(words, &mut lister)
}

// The listing of the tree that stands first in `words`, at the front of the text; what is behind it stays, and the answer is its
// length. `Refusal::Tree`, the words are no tree, leaves the text unchanged, and `Refusal::Room` leaves it all zero.
pub fn list(words: &[u32], text: &mut [u8]) -> Result<usize, Refusal>
    ensures { Leaves (listed words.now text.old) result text.new }
{
    // Where the words are no tree, nothing is written: they are read once more, for the text, when that is known.
    if !is_tree(words) {
        return Err(Refusal::Tree);
    }
    let mut out = Writer { room: text, at: 0 };
    write(words, &mut out).ok_or(Refusal::Tree)?;
    if out.room.len() < out.at {
        out.room.fill(0);
        return Err(Refusal::Room);
    }
    Ok(out.at)
}
