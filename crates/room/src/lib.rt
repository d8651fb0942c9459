// Items written into lent room, one behind the other, until it is full.
#![tactic(auto)]

ghost use Rattle.std.specs.Prelude.{◌^◌, ◌<◌, length};
ghost use Rattle.room.specs.Wrote.{Puts, Patches};

// Where the next item goes in lent room; one past the room's end where the items do not fit.
#[derive(Drop)]
pub struct Writer<'a, T> {
    pub room: &'a mut [T],
    pub at: usize,
}

impl<T: Copy> Writer<'_, T> {
    // Internal: an item behind those that were put. No room of words or bytes is as long as 2^63.
    pub fn put(&mut self, x: T)
        requires { length self.old.room.now < 2 ^ 63 }
        ensures { Puts self.old x self.new }
    {
        if self.at < self.room.len() {
            self.room[self.at] = x;
            self.at += 1;
        } else {
            self.at = self.room.len() + 1;
        }
    }

    // An item in place of the one that stands at `at`, if that is within the room: a count, filled in when what it counts
    // is written.
    pub fn patch(&mut self, at: usize, x: T)
        ensures { Patches self.old at x self.new }
    {
        if at < self.room.len() {
            self.room[at] = x;
        }
    }
}
