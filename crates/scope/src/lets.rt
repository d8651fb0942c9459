// Let lists: the sites that a use lists are written as it goes. Each use hands back how many lets it wrote.
ghost use Rattle.std.specs.Prelude.{ℕ, ◌<◌};
ghost use Rattle.definition.specs.Lists.{each};
ghost use Rattle.definition.specs.Book.{Book, most, slots};
ghost use Rattle.definition.specs.Tables.{rule_at};
ghost use Rattle.definition.specs.Scope.{use_below, use_site};
ghost use Rattle.definition.specs.Plan.{uses_of, tested};
ghost use Rattle.tables.specs.Held.{test_of};
ghost use Rattle.room.specs.Wrote.{Puts};
ghost use Rattle.scope.specs.Drawn.{Drawn, Among, Usable};
ghost use Rattle.scope.specs.Uses.{Placed, Listed};

use crate::{EMITTED, Scope, Sites};
use room::Writer;
use tables::{Rule, Test};

// Internal: uses a site, if it is below Emitted: marks it, uses its sources in listed order, and lists it.
// The id falls at every call.
pub fn use_expr(sites: &Sites, x: usize, scope: &mut Scope, out: &mut Writer<u32>) -> u32
    requires { x < sites.now.count }
    ensures { (b : Book) → Drawn sites.now b → (f : ℕ) → x < f
        → Placed (use_below f b x) scope.old out.old result scope.new out.new }
{
    if EMITTED <= scope.states[x] {
        return 0;
    }
    scope.states[x] = EMITTED;
    let site = sites.site(x);
    let sources = site.source_count();
    let mut lets: u32 = 0;
    for k in 0..sources {
        lets += use_expr(sites, site.source(k), scope, out);
    }
    if site.never_listed() {
        return lets;
    }
    put_let(x, out);
    lets + 1
}

// Lists a site.
fn put_let(x: usize, out: &mut Writer<u32>)
    requires { x < most }
    ensures { Puts out.old x out.new }
{
    out.put(x as u32);
}

// Uses the sites of a test.
fn use_test(sites: &Sites, test: Test, scope: &mut Scope, out: &mut Writer<u32>) -> u32
    requires { Among sites.now.count test }
    ensures { (b : Book) → Drawn sites.now b
        → Placed (each (use_site b) (tested (test_of test))) scope.old out.old result scope.new out.new }
{
    match test {
        Test::On(s) => use_expr(sites, s, scope, out),
        Test::Same(x, y) => {
            let lets = use_expr(sites, x, scope, out);
            lets + use_expr(sites, y, scope, out)
        }
    }
}

// Uses the impure sites of a rule in order, then its result.
fn use_rule(sites: &Sites, rule: &Rule, scope: &mut Scope, out: &mut Writer<u32>) -> u32
    requires { Usable sites.now.count rule.now.words.now rule.now.id }
    ensures { (b : Book) → Drawn sites.now b
        → Placed (each (use_site b) (uses_of (rule_at slots rule.now.words.now rule.now.id)))
        scope.old out.old result scope.new out.new }
{
    let mut lets: u32 = 0;
    for k in 0..rule.impure_count() {
        lets += use_expr(sites, rule.impure(k), scope, out);
    }
    let result = rule.result() as usize;
    lets + use_expr(sites, result, scope, out)
}

// Internal: the let list of a step that makes a test. The count stands in front, and is filled in when the lets are written.
pub fn test_lets(sites: &Sites, test: Test, scope: &mut Scope, out: &mut Writer<u32>) -> u32
    requires { Among sites.now.count test }
    ensures { (b : Book) → Drawn sites.now b
        → Listed b (tested (test_of test)) scope.old out.old result scope.new out.new }
{
    let count_at = out.at;
    out.put(0);
    let lets = use_test(sites, test, scope, out);
    out.patch(count_at, lets);
    lets
}

// Internal: the let list of a rule's Return step.
pub fn rule_lets(sites: &Sites, rule: &Rule, scope: &mut Scope, out: &mut Writer<u32>) -> u32
    requires { Usable sites.now.count rule.now.words.now rule.now.id }
    ensures { (b : Book) → Drawn sites.now b
        → Listed b (uses_of (rule_at slots rule.now.words.now rule.now.id)) scope.old out.old result scope.new out.new }
{
    let count_at = out.at;
    out.put(0);
    let lets = use_rule(sites, rule, scope, out);
    out.patch(count_at, lets);
    lets
}
