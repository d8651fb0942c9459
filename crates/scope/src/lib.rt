// The scope of a block: the state of every site and the classes joined on the path. A nested block starts from its parent's,
// by value, and nothing comes back.
#![tactic(auto)]

ghost use Rattle.std.specs.Prelude.{◌≡◌, ◌<◌};
ghost use Rattle.scope.specs.Table.{Table};

use tables::Site;
use tree::MOST;

pub mod arms;
pub mod classes;
pub mod lets;
pub mod states;

// States are bytes and no enum: docs/PROMISES.md names `add_bindings`, `use_expr`, `match_source` and `enter_arm` as public,
// and they take a scope of any bytes.
pub const UNAVAILABLE: u8 = 0;

pub const AVAILABLE: u8 = 1;

pub const EMITTED: u8 = 2;

pub const MATCHED: u8 = 3;

// A book's site table that refusals 3 and 4 let pass, with the number of its sites. What needs a fact of the whole table, as that
// a source has a smaller id, takes this and a site's id, and no `Site`.
#[derive(Clone, Copy)]
pub struct Sites<'a> {
    pub words: &'a [u32],
    pub count: usize,
    pub ghost table: { Table count words.now },
}

impl Sites<'_> {
    // Internal: site `x` of the table.
    pub fn site(&self, x: usize) -> Site<'_>
        requires { x < self.now.count }
        ensures { (result.words.now ≡ self.now.words.now) × (result.id ≡ x) }
    {
        Site {
            words: self.words,
            id: x,
        }
    }
}

#[derive(Clone, Copy)]
pub struct Scope {
    // Entry x: the state of site x.
    pub states: [u8; MOST],
    // The classes, as the two arrays of a store of sets. They are no `Store`: the public functions named above take any roots
    // and ranks, and a Store's type asks that its calls made it.
    pub root: [u8; MOST],
    pub rank: [u8; MOST],
}
