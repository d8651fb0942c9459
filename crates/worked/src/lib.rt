// The worked books of document 01 as one table, specs/Table.antt, and listings of some of them: proofs/ shows that they are so.
#![tactic(auto)]

pub fn nothing() {}
