//! How many uses the rewritings of a term have.

ghost use Rattle.data_theory.specs.Fuel.{EnoughFuelIsEnough, NoChainIsLonger, UsesAreFew};

/// No rewriting of a term, finished or not, has more uses than the one that ends in what the term goes to.
pub fn no_chain_is_longer()
    ensures { NoChainIsLonger }
{}

/// Where no equation is written, no rewriting of a well-sorted term of n nodes, finished or not, has more than 4 * n * n + 4
/// uses.
pub fn enough_fuel_is_enough()
    ensures unfinished { EnoughFuelIsEnough }
    ensures finished { UsesAreFew }
{}
