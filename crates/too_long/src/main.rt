// The planner's program once more: a program crate is run on one standard input, and this one's has 65,537 bytes.
#![tactic(auto)]

use std::io;

fn main(rt: HostRuntime) -> io::Result<()> {
    console::plan_standard_input(&rt)
}
