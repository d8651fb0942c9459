#![tactic(auto)]

// Document 01 as definitions: see specs/.
pub fn nothing() {}
