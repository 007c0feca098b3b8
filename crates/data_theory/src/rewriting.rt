//! What a term goes to by rewriting.

ghost use Rattle.data_theory.specs.Rewriting.{DecidedNoIsFalse, DecidedYesIsTrue, FinishedRewritingsAreChains, GoesToAddsNoVariable, GoesToIsProvablyEqual, GoesToKeepsTheSort, GoesToOneTerm, UnmatchedRootsStay, WhatItGoesToIsNormal};

/// A term goes to at most one term, in at most one number of uses.
pub fn goes_to_one_term()
    ensures { GoesToOneTerm }
{}

/// What a term goes to has its sort and no variable that the term hasn't, and is provably equal to it in every closed
/// instance; so what is decided yes is provably true then, and what is decided no is provably false.
pub fn goes_to_is_sound()
    ensures variables { GoesToAddsNoVariable }
    ensures sort { GoesToKeepsTheSort }
    ensures equal { GoesToIsProvablyEqual }
    ensures yes { DecidedYesIsTrue }
    ensures no { DecidedNoIsFalse }
{}

/// What a term goes to is normal.
pub fn what_it_goes_to_is_normal()
    ensures { WhatItGoesToIsNormal }
{}

/// A finished rewriting is a chain of as many uses.
pub fn finished_rewritings_are_chains()
    ensures { FinishedRewritingsAreChains }
{}

/// A root at which no equation matches stays.
pub fn unmatched_roots_stay()
    ensures { UnmatchedRootsStay }
{}
