// Disjoint sets of the ids 0 to 251, in a store of fixed size.
#![tactic(auto)]

ghost use Rattle.std.specs.Prelude.{◌≡◌, ◌<◌, ◌≤◌, get_or, MatchResult};
ghost use Rattle.definition.specs.Book.{most};
ghost use Rattle.laws.specs.Loops.{relabel};
ghost use Rattle.refusal.specs.declared.Refusal.{Refusal};
ghost use Rattle.sets.specs.View.{Made};
ghost use Rattle.sets.specs.Told.{Tells};

use refusal::Refusal;
use std::cmp::Ordering;
use tree::MOST;

// A store of disjoint sets. The two arrays are public, because `scope` keeps them apart and makes a store to merge.
#[derive(Clone, Copy)]
pub struct Store {
    // Entry z: 0 where z is unmerged, and else 1 more than z's representative.
    pub root: [u8; MOST],
    // Entry r: the rank of the set whose representative is r.
    pub rank: [u8; MOST],
    // A representative represents itself, and its rank is below the number of its set's members. The arrays are two and no array of
    // pairs, since `told_of` is asked where a `root` alone lies.
    pub ghost made: { Made root rank },
}

// The members of a removed set, ascending at the front of `ids`, with zeros behind them: a buffer with its length,
// because the project uses no heap.
#[derive(Clone, Copy, Debug)]
pub struct Members {
    pub ids: [u8; MOST],
    pub count: usize,
}

// The entry of x in a store's `root`. An id above 251 is refused.
fn entry_of(root: &[u8; MOST], x: usize) -> Result<u8, Refusal>
    ensures { MatchResult result (λ e. (x < most) × (e ≡ get_or root.now x 0)) (λ r. (most ≤ x) × (r ≡ Refusal.Id)) }
{
    root.get(x).copied().ok_or(Refusal::Id)
}

// An entry after the entries `from` have become `to`.
fn renamed(v: u8, from: u8, to: u8) -> u8
    ensures { result ≡ relabel from to v }
{
    if v == from { to } else { v }
}

// The question of `in_same_set` to a store's `root` where it lies, with no copy of the store.
pub fn told_of(root: &[u8; MOST], x: usize, y: usize) -> Result<bool, Refusal>
    ensures { Tells root.now x y result }
{
    let a = entry_of(root, x)?;
    let b = entry_of(root, y)?;
    Ok(a != 0 && a == b)
}

impl Store {
    ghost use Rattle.std.specs.Prelude.{map};
    ghost use Rattle.definition.specs.Sets.{no_sets, enter, join};
    ghost use Rattle.laws.specs.Loops.{relabel};
    ghost use Rattle.sets.specs.Promises.{view, listed, Finds, Merges, Sames, Removes};
    ghost use Rattle.sets.specs.Entries.{Joinable, ids_with};
    ghost use Rattle.sets.specs.Determined.{empty_determined, find_determined, merge_determined};
    ghost use Rattle.sets.specs.Determined.{same_determined, told_determined, remove_determined};

    // The store in which every id is unmerged.
    pub fn empty() -> Store
        ensures { view result ≡ no_sets }
    {
        Store {
            root: [0; MOST],
            rank: [0; MOST],
        }
    }

    // The roots after the entries `from` have become `to`. A loop, since the library's `map` goes over the array three times, by way
    // of options of its entries.
    fn relabelled(&self, from: u8, to: u8) -> [u8; MOST]
        ensures { result ≡ map (relabel from to) self.now.root }
    {
        let mut root = self.root;
        for z in 0..MOST {
            root[z] = renamed(root[z], from, to);
        }
        root
    }

    // The ids whose entry is `entry`, ascending.
    fn ids_with(&self, entry: u8) -> Members
        ensures { result ≡ listed (ids_with entry self.now.root most) }
    {
        let mut ids = [0; MOST];
        let mut count: usize = 0;
        for (id, v) in self.root.iter().enumerate() {
            if *v == entry {
                ids[count] = id as u8;
                count += 1;
            }
        }
        Members { ids, count }
    }

    // An unmerged id becomes a set of its own.
    fn enter(&mut self, x: usize)
        requires x_bound { x < most }
        ensures { view self.new ≡ enter (view self.old) x }
    {
        if self.root[x] != 0 {
            return;
        }
        self.root[x] = (x + 1) as u8;
        self.rank[x] = 0;
    }

    // The sets of x and y become one: the root of greater rank stays, on a tie the first one's, whose rank grows.
    fn join(&mut self, x: usize, y: usize)
        requires { Joinable self.old x y }
        ensures { view self.new ≡ join x y (view self.old) }
    {
        let a = self.root[x];
        let b = self.root[y];
        if a == b {
            return;
        }
        let j = self.rank[usize::from(a) - 1];
        let k = self.rank[usize::from(b) - 1];
        let (from, to, rank) = match j.cmp(&k) {
            Ordering::Less => (a, b, k),
            Ordering::Greater => (b, a, j),
            Ordering::Equal => (b, a, j + 1),
        };
        self.root = self.relabelled(from, to);
        self.rank[usize::from(to) - 1] = rank;
    }

    // The representative of x's set; an unmerged id has none. An id above 251 is refused.
    pub fn find(&self, x: usize) -> Result<Option<usize>, Refusal>
        ensures { Finds self.now x result }
    {
        let label = entry_of(&self.root, x)?;
        Ok(usize::from(label).checked_sub(1))
    }

    // The sets of x and y become one, and an unmerged id enters it. Refused is an id above 251, or one id twice;
    // the store is then as it came.
    pub fn merge(&mut self, x: usize, y: usize) -> Result<(), Refusal>
        ensures { Merges self.old x y self.new result }
    {
        if MOST <= x || MOST <= y || x == y {
            return Err(Refusal::Id);
        }
        self.enter(x);
        self.enter(y);
        self.join(x, y);
        Ok(())
    }

    // Whether x and y are in one set; an unmerged id is in none, not even with itself. An id above 251 is refused.
    pub fn in_same_set(&self, x: usize, y: usize) -> Result<bool, Refusal>
        ensures { Sames self.now x y result }
    {
        told_of(&self.root, x, y)
    }

    // The members of x's set, which are unmerged again; an unmerged id has none. An id above 251 is refused, and the
    // store is then as it came.
    pub fn remove_set_of(&mut self, x: usize) -> Result<Members, Refusal>
        ensures { Removes self.old x self.new result }
    {
        let entry = entry_of(&self.root, x)?;
        if entry == 0 {
            return Ok(Members {
                ids: [0; MOST],
                count: 0,
            });
        }
        let members = self.ids_with(entry);
        self.root = self.relabelled(entry, 0);
        Ok(members)
    }
}
