// The limits that every reader and writer of a tree's words keeps: ids, places, nesting, patterns.
#![tactic(auto)]

ghost use Rattle.std.specs.Prelude.{◌≡◌};
ghost use Rattle.definition.specs.Accept.{pattern_ok};
ghost use Rattle.definition.specs.Tables.{signed};
ghost use Rattle.tree.specs.Patterns.{pattern_at};

// How many sites, rules or ids of sets there are at most, and the greatest id.
pub const MOST: usize = 252;

pub const LAST: u32 = 251;

// The word of an empty place, as a tree's words have it.
pub const EMPTY: u32 = 65535;

// How many blocks stand one inside another at most, the root block with them.
pub const DEPTH: usize = 9;

// The tags of what a step does.
pub const MATCH: u32 = 0;

pub const EQUAL: u32 = 1;

pub const RETURN: u32 = 3;

// A pattern that a rule record may hold. Its kind is a word and no enum, since the words of trees and tables are not trusted:
// 0 ConstInt, 1 ConstPrim, 2 Variant, 3 Some.
pub fn pattern_ok(kind: u32, fields: u32, number: u32) -> bool
    ensures { result ≡ pattern_ok (pattern_at kind (signed number) fields) }
{
    match kind {
        0 | 1 => fields == 0,
        2 => fields <= 4,
        3 => fields == 1 && number == 0,
        _ => false,
    }
}
