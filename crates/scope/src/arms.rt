// Arms of a Match: the scope inside one, and the words of its pattern.
ghost use Rattle.std.specs.Prelude.{◌≡◌, map, ◌<◌, set};
ghost use Rattle.definition.specs.Book.{Book, most};
ghost use Rattle.definition.specs.Tables.{site_at};
ghost use Rattle.definition.specs.Scope.{matched, binds, emit_bound};
ghost use Rattle.definition.specs.Plan.{place_at, places};
ghost use Rattle.definition.specs.Tree.{place_word, pattern_words};
ghost use Rattle.room.specs.Wrote.{Puts, Writes};
ghost use Rattle.tables.specs.Held.{shown};
ghost use Rattle.scope.specs.Drawn.{Drawn};
ghost use Rattle.scope.specs.States.{arm_bindings, With};
ghost use Rattle.scope.specs.Places.{site_in};

use crate::states::{BOUND_KIND, add_bindings};
use crate::{EMITTED, MATCHED, Scope, Sites};
use room::Writer;
use tables::Pattern;
use tree::EMPTY;

// Whether `x` is a kind 7 site of source `s` and pattern `p`, its position below the field count.
#[tactic(auto, using(crate::proofs::Binds::bound_tests))]
fn is_bound(sites: &Sites, s: usize, p: Pattern, x: usize) -> bool
    requires { x < sites.now.count }
    ensures { result ≡ binds s (shown p) (site_at sites.now.words.now x) }
{
    let site = sites.site(x);
    site.kind() == BOUND_KIND
        && site.source(0) == s
        && site.bound_kind() == p.kind
        && site.bound_number().cast_signed() == p.number
        && site.bound_position() < p.fields
}

// Those sites become Emitted.
fn emit_bound(sites: &Sites, s: usize, p: Pattern, scope: &mut Scope)
    ensures { (b : Book) → Drawn sites.now b → With (emit_bound b s (shown p) scope.old.states) scope.old scope.new }
{
    for x in 0..sites.count {
        if is_bound(sites, s, p, x) {
            scope.states[x] = EMITTED;
        }
    }
}

// Internal: the scope that the arms of a Match on site `s` share: the site is Matched.
pub fn match_source(mut scope: Scope, s: usize) -> Scope
    requires { s < most }
    ensures { With (set scope.states s matched) scope result }
{
    scope.states[s] = MATCHED;
    scope
}

// Internal: the scope inside the arm of pattern `p`, from the one that the arms of the Match on `s` share.
pub fn enter_arm(sites: &Sites, s: usize, p: Pattern, mut scope: Scope) -> Scope
    ensures { (b : Book) → Drawn sites.now b → With (arm_bindings b s (shown p) scope.states) scope result }
{
    emit_bound(sites, s, p, &mut scope);
    add_bindings(sites, &mut scope);
    scope
}

// Internal: the site that stands at position `k` of pattern `p` on source `s`.
pub fn find_binding(sites: &Sites, s: usize, p: Pattern, k: u32) -> Option<u8>
    ensures { (b : Book) → Drawn sites.now b → site_in result ≡ place_at b s (shown p) k }
{
    for x in 0..sites.count {
        if is_bound(sites, s, p, x) && sites.site(x).bound_position() == k {
            return Some(x as u8);
        }
    }
    None
}

// The word of a place.
fn put_place(place: Option<u8>, out: &mut Writer<u32>)
    ensures { Puts out.old (place_word (site_in place)) out.new }
{
    out.put(place.map_or(EMPTY, u32::from));
}

// One word a position of the pattern.
fn put_places(sites: &Sites, s: usize, p: Pattern, out: &mut Writer<u32>)
    ensures { (b : Book) → Drawn sites.now b → Writes out.old (map place_word (places b s (shown p))) out.new }
{
    for k in 0..p.fields {
        put_place(find_binding(sites, s, p, k), out);
    }
}

// Internal: the words of an arm in front of its block: pattern kind, field count, number, one word a position.
pub fn put_pattern(sites: &Sites, s: usize, p: Pattern, out: &mut Writer<u32>)
    ensures { (b : Book) → Drawn sites.now b → Writes out.old (pattern_words (shown p) (places b s (shown p))) out.new }
{
    out.put(p.kind);
    out.put(p.fields);
    out.put(p.number.cast_unsigned());
    put_places(sites, s, p, out);
}
