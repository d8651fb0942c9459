// Bytes, numbers and lines of a listing, written into lent text one behind the other until it is full.
#![tactic(auto)]

ghost use Rattle.std.specs.Prelude.{◌≡◌, ◌++◌, ◌∷◌, [], length, map};
ghost use Rattle.definition.specs.Lists.{flat};
ghost use Rattle.definition.specs.Tables.{signed};
ghost use Rattle.definition.specs.Read.{place_of};
ghost use Rattle.definition.specs.Listing.{decimal, sign, magnitude, signed_decimal, degrees, kind_text, place_text, places_text};
ghost use Rattle.definition.specs.Listing.{indent, points, start, let_line, arm_line, match_line, equal_line, return_line};
ghost use Rattle.room.specs.Wrote.{Writes};
ghost use Rattle.tree.specs.Patterns.{pattern_at};
ghost use Rattle.line.specs.Writes.{Spelled, deeper};

use room::Writer;
use std::marker::Model;
use std::mem;
use tree::{DEPTH, EMPTY};

// The kinds of a pattern that have a number; every other is a Some.
const CONST_INT: u32 = 0;

const CONST_PRIM: u32 = 1;

const VARIANT: u32 = 2;

// The numbers of a path at most: two for each block that may stand one inside another.
pub const LONGEST: usize = 2 * DEPTH;

// The numbers of the steps and arms that something stands in, the outermost first. A buffer and its length: no heap is used.
#[derive(Clone, Copy)]
pub struct Path {
    pub numbers: [u32; LONGEST],
    pub depth: usize,
}

impl Model for Path {
    ghost use Rattle.std.specs.Prelude.{List, ℕ, take, length};
    ghost use Rattle.line.specs.Paths.{Kept, padded, front_long, given_back};

    ghost Value = { List ℕ };

    ghost view = { λ p. take p.depth p.numbers };

    // Zeros stand behind the numbers, so that a list gives its path back, which a type that is copied asks.
    ghost invariant = { λ p. Kept p.depth p.numbers };

    ghost inverse = { λ l. record { numbers = padded l; depth = length l } };

    ghost inverse_ok = { λ p h i. record { numbers = given_back p.depth p.numbers h i; depth = front_long p.depth p.numbers h i } };
}

impl Path {
    pub const fn root() -> Path
        ensures { result ≡ [] }
    {
        Path {
            numbers: [0; LONGEST],
            depth: 0,
        }
    }

    // One number more; a path that is as long as can be stays.
    fn deeper(&self, i: u32) -> Path
        ensures { result ≡ deeper self.now i }
    {
        let mut numbers = self.numbers;
        let mut depth = self.depth;
        if depth < LONGEST {
            numbers[depth] = i;
            depth += 1;
        }
        Path { numbers, depth }
    }

    // Internal: goes one number deeper, and gives the path that it was.
    pub fn enter(&mut self, i: u32) -> Path
        ensures into { self.new ≡ deeper self.old i }
        ensures left { result ≡ self.old }
    {
        let inner = self.deeper(i);
        mem::replace(self, inner)
    }
}

// Every byte goes through here: whoever is lent a room of bytes knows that it is shorter than 2^63, as `put` requires.
fn put_byte(b: u8, out: &mut Writer<u8>)
    ensures { Writes out.old (b ∷ []) out.new }
{
    out.put(b);
}

fn put_text(source: &[u8], out: &mut Writer<u8>)
    ensures { Writes out.old source.now out.new }
{
    for byte in source {
        put_byte(*byte, out);
    }
}

// The digits in front of the last one, then the last one. By hand, because what std prints goes to memory of its own or to a
// formatter, whose text no clause ties to the definition's digits.
#[tactic(auto, using(crate::proofs::Writing::spelled_one, crate::proofs::Writing::spelled_more))]
fn put_digits(n: u32, out: &mut Writer<u8>)
    ensures { Spelled n out.old out.new }
{
    if n >= 10 {
        put_digits(n / 10, out);
    }
    put_byte(b'0' + (n % 10) as u8, out);
}

#[tactic(auto, using(crate::proofs::Writing::spelled_decimal))]
fn put_decimal(n: u32, out: &mut Writer<u8>)
    ensures { Writes out.old (decimal n) out.new }
{
    put_digits(n, out);
}

// A name and a number.
fn put_field(name: &[u8], n: u32, out: &mut Writer<u8>)
    ensures { Writes out.old (name.now ++ decimal n) out.new }
{
    put_text(name, out);
    put_decimal(n, out);
}

// The sign of the signed number whose word is w.
fn put_sign(w: u32, out: &mut Writer<u8>)
    ensures { Writes out.old (sign (signed w)) out.new }
{
    if w.cast_signed() < 0 {
        put_byte(b'-', out);
    }
}

fn magnitude(w: u32) -> u32
    ensures { result ≡ magnitude (signed w) }
{
    w.cast_signed().unsigned_abs()
}

// The signed number whose word is w.
#[tactic(auto, using(room::proofs::Written::writes_then), unfolding(definition::specs::Listing::signed_decimal))]
fn put_signed(w: u32, out: &mut Writer<u8>)
    ensures { Writes out.old (signed_decimal (signed w)) out.new }
{
    put_sign(w, out);
    put_decimal(magnitude(w), out);
}

// Tenths of a degree as degrees with one decimal.
fn put_degrees(tenths: u32, out: &mut Writer<u8>)
    ensures { Writes out.old (degrees (signed tenths)) out.new }
{
    put_sign(tenths, out);
    let size = magnitude(tenths);
    put_decimal(size / 10, out);
    put_byte(b'.', out);
    put_decimal(size % 10, out);
}

// A name and a signed number.
fn put_named(name: &[u8], w: u32, out: &mut Writer<u8>)
    ensures { Writes out.old (name.now ++ signed_decimal (signed w)) out.new }
{
    put_text(name, out);
    put_signed(w, out);
}

// A ConstInt: an oil limit in tenths of a degree.
fn put_limit(w: u32, out: &mut Writer<u8>)
    ensures { Writes out.old (kind_text 0 (signed w)) out.new }
{
    put_named(b"ConstInt ", w, out);
    put_text(b" tenths = ", out);
    put_degrees(w, out);
    put_text(b" degrees", out);
}

// A pattern's kind and number.
#[tactic(auto, using(room::proofs::Written::writes_then), unfolding(definition::specs::Listing::kind_text))]
fn put_kind(kind: u32, w: u32, out: &mut Writer<u8>)
    ensures { Writes out.old (kind_text kind (signed w)) out.new }
{
    match kind {
        CONST_INT => put_limit(w, out),
        CONST_PRIM => put_named(b"ConstPrim ", w, out),
        VARIANT => put_named(b"Variant ", w, out),
        _ => put_text(b"Some", out),
    }
}

// A place names a site or is empty.
#[tactic(auto, using(room::proofs::Written::writes_then), unfolding(definition::specs::Listing::place_text, definition::specs::Listing::field))]
fn put_place(w: u32, out: &mut Writer<u8>)
    ensures { Writes out.old (place_text (place_of w)) out.new }
{
    if w == EMPTY {
        put_text(b" empty", out);
    } else {
        put_field(b" ", w, out);
    }
}

// Nothing, where there is no place.
fn put_places(places: &[u32], out: &mut Writer<u8>)
    ensures { Writes out.old (places_text (map place_of places.now)) out.new }
{
    if places.is_empty() {
        return;
    }
    put_text(b" places", out);
    for place in places {
        put_place(*place, out);
    }
}

// Two spaces for each number of a path.
fn put_indent(path: &Path, out: &mut Writer<u8>)
    ensures { Writes out.old (indent path.now) out.new }
{
    for _ in &path.numbers[..path.depth] {
        put_text(b"  ", out);
    }
}

// Each number of the path with a point behind it.
fn put_points(path: &Path, out: &mut Writer<u8>)
    ensures { Writes out.old (points path.now) out.new }
{
    for n in &path.numbers[..path.depth] {
        put_decimal(*n, out);
        put_byte(b'.', out);
    }
}

// The beginning of a line.
fn put_start(path: &Path, i: u32, out: &mut Writer<u8>)
    ensures { Writes out.old (start path.now i) out.new }
{
    put_indent(path, out);
    put_points(path, out);
    put_decimal(i, out);
    put_byte(b' ', out);
}

// The line of a let.
fn put_let(path: &Path, s: u32, out: &mut Writer<u8>)
    ensures { Writes out.old (let_line path.now s) out.new }
{
    put_indent(path, out);
    put_field(b"let site ", s, out);
    put_byte(b'\n', out);
}

// Internal: the lines of a step's lets.
pub fn put_lets(path: &Path, sites: &[u32], out: &mut Writer<u8>)
    ensures { Writes out.old (flat (let_line path.now) sites.now) out.new }
{
    for site in sites {
        put_let(path, *site, out);
    }
}

// Internal: the line of a Match.
pub fn put_match(path: &Path, i: u32, s: u32, out: &mut Writer<u8>)
    ensures { Writes out.old (match_line path.now i s) out.new }
{
    put_start(path, i, out);
    put_field(b"match site ", s, out);
    put_byte(b'\n', out);
}

// Internal: the line of an arm: its pattern and its places.
pub fn put_arm(path: &Path, i: u32, kind: u32, number: i32, places: &[u32], out: &mut Writer<u8>)
    ensures { Writes out.old (arm_line path.now i (pattern_at kind number (length places.now)) (map place_of places.now)) out.new }
{
    put_start(path, i, out);
    put_text(b"is ", out);
    put_kind(kind, number.cast_unsigned(), out);
    put_places(places, out);
    put_byte(b'\n', out);
}

// Internal: the line of an Equal.
pub fn put_equal(path: &Path, i: u32, a: u32, b: u32, out: &mut Writer<u8>)
    ensures { Writes out.old (equal_line path.now i a b) out.new }
{
    put_start(path, i, out);
    put_field(b"equal sites ", a, out);
    put_field(b" and ", b, out);
    put_byte(b'\n', out);
}

// Internal: the line of a Return.
pub fn put_return(path: &Path, i: u32, rule: u32, pos: u32, res: u32, out: &mut Writer<u8>)
    ensures { Writes out.old (return_line path.now i rule pos res) out.new }
{
    put_start(path, i, out);
    put_field(b"return rule ", rule, out);
    put_field(b" pos ", pos, out);
    put_field(b" result ", res, out);
    put_byte(b'\n', out);
}
