#![tactic(auto)]

// Laws of tests, lists, numbers and loops: see specs/.
pub fn nothing() {}
