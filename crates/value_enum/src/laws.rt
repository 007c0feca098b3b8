//! Laws of first values.

ghost use Rattle.value_enum.specs.Laws.{FirstValuesAreOne, ValuesAreClosedTerms};

/// What the first values of a sort are for a bound is determined.
pub fn first_values_are_one()
    ensures { FirstValuesAreOne }
{}

/// The term of a constructor value has the value's sort, and no variables.
pub fn values_are_closed_terms()
    ensures { ValuesAreClosedTerms }
{}
