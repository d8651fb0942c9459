// The planner's program: a book on standard input, its tree's words or its refusal on standard output.
#![tactic(auto)]

use std::io;

fn main(rt: HostRuntime) -> io::Result<()> {
    console::plan_standard_input(&rt)
}
