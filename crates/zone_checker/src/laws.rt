//! The law of pairs, as the contract of a function that computes nothing.
#![tactic(auto)]

ghost use Rattle.zone_checker.specs.Laws.{PairsAreOneNumber, PairsAreSomeNumber};

/// At each board a root has one number of pairs: it hasn't two, and can't be without. So it says something that the work is less.
pub fn root_has_one_number_of_pairs()
    ensures one { PairsAreOneNumber }
    ensures some { PairsAreSomeNumber }
{}
