// States of sites, and availability.
ghost use Rattle.std.specs.Prelude.{◌≡◌, ◌<◌};
ghost use Rattle.definition.specs.Book.{Book};
ghost use Rattle.definition.specs.Lists.{all};
ghost use Rattle.definition.specs.Tables.{site_at};
ghost use Rattle.definition.specs.Scope.{ready, is_there, nowhere, worked_out};
ghost use Rattle.scope.specs.Drawn.{Drawn};
ghost use Rattle.scope.specs.States.{Fresh, With};

use crate::{AVAILABLE, Scope, Sites, UNAVAILABLE};
use tree::MOST;

// The kind of a site that is bound by a pattern.
pub const BOUND_KIND: u32 = 7;

// Every site Unavailable, and no classes.
#[tactic(auto, unfolding(definition::specs::Scope::nowhere))]
pub fn fresh() -> Scope
    ensures { Fresh nowhere result }
{
    Scope {
        states: [UNAVAILABLE; MOST],
        root: [0u8; MOST],
        rank: [0u8; MOST],
    }
}

// Whether a site is Unavailable, not of kind 7, and has no Unavailable source.
#[tactic(auto, using(crate::proofs::Sweeps::ready_tests))]
fn is_ready(sites: &Sites, states: &[u8; MOST], x: usize) -> bool
    requires { x < sites.now.count }
    ensures { (b : Book) → Drawn sites.now b → result ≡ ready b states.now x }
{
    if states[x] != UNAVAILABLE {
        return false;
    }
    let bound = sites.site(x).kind() == BOUND_KIND;
    !bound && has_sources(sites, states, x)
}

// Whether no source of a site is Unavailable.
fn has_sources(sites: &Sites, states: &[u8; MOST], x: usize) -> bool
    requires { x < sites.now.count }
    ensures { result ≡ all (is_there states.now) (site_at sites.now.words.now x).sources }
{
    let site = sites.site(x);
    (0..site.source_count()).all(|k| states[site.source(k)] != UNAVAILABLE)
}

// Internal: availability worked out. One pass in id order meets a site's sources before the site.
pub fn add_bindings(sites: &Sites, scope: &mut Scope)
    ensures { (b : Book) → Drawn sites.now b → With (worked_out b scope.old.states) scope.old scope.new }
{
    for x in 0..sites.count {
        if is_ready(sites, &scope.states, x) {
            scope.states[x] = AVAILABLE;
        }
    }
}

// Internal: the scope of the root block.
pub fn root_scope(sites: &Sites) -> Scope
    ensures { (b : Book) → Drawn sites.now b → Fresh (worked_out b nowhere) result }
{
    let mut scope = fresh();
    add_bindings(sites, &mut scope);
    scope
}
