// What the tree of every accepted book obeys: specs/Demands.antt states it. And what a listing tells: Decimal and FitsRead.
#![tactic(auto)]

ghost use Rattle.theorems.specs.Proved.{demands};
ghost use Rattle.theorems.specs.BytesToAnswer.{end_to_end};
ghost use Rattle.theorems.specs.Decimal.{signed_back, no_minus_zero};
ghost use Rattle.theorems.specs.FitsRead.{one_listing_one_tree};

pub fn nothing() {}
