//! Laws of first values.

ghost use Rattle.term_pool.specs.FirstValueLaws.{ArgumentsAreFirst, FirstValuesAreOne, FirstValuesStay, FirstNumbersAreFirst};

/// The arguments of a first value are first values.
pub fn arguments_are_first()
    ensures { ArgumentsAreFirst }
{}

/// A sort has one first value at most.
pub fn first_values_are_one()
    ensures { FirstValuesAreOne }
{}

/// A first value stays so where functions are added.
pub fn first_values_stay()
    ensures { FirstValuesStay }
{}

/// A first value that is a number is 1 of Pos, and 0 of Nat and Int.
pub fn first_numbers_are_first()
    ensures { FirstNumbersAreFirst }
{}
