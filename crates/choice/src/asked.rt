// What a block asks of its part of the order.
ghost use Rattle.order.specs.Parts.{Parts};

use tree::MOST;

// The rules of a part of the order, in a scope of these states and class roots. `bar` is one more than the highest priority
// of the rules beside the part that lack what is asked, or 0: a bar that every rule reaches, so no Option is needed.
#[derive(Clone, Copy)]
pub struct Asked<'a> {
    pub rules: &'a [u32],
    pub states: &'a [u8; MOST],
    pub root: &'a [u8; MOST],
    pub part: &'a [u8],
    pub bar: usize,
    pub ghost parts: { Parts rules.now part.now },
}
