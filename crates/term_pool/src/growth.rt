//! Inhabited sorts: what stays where a signature grows, and what the data of a signature say of them.

ghost use Rattle.term_pool.specs.GrowthLaws.{ConstantsStay, InhabitedSortsStayInhabited};
ghost use Rattle.term_pool.specs.InhabitedData.{SortsHaveValuesWhereNoneIsEmpty, ValuesAreConstructedTerms};

/// Where texts, sorts, functions and variables come behind the old ones, a sort that has a value has one still.
pub fn inhabited_sorts_stay_inhabited()
    ensures { InhabitedSortsStayInhabited }
{}

/// The constants of a pool are constants of the signature still, so that [`closed_term`](crate::Pool::closed_term) may be asked
/// again.
pub fn constants_stay()
    ensures { ConstantsStay }
{}

/// Each sort of a signature has a value exactly where no sort of the data that it means is empty.
pub fn sorts_have_values_where_none_is_empty()
    ensures { SortsHaveValuesWhereNoneIsEmpty }
{}

/// A sort of a signature has a value exactly where the sort that it means has a closed term of constructors, numerals and unknown
/// elements.
pub fn values_are_constructed_terms()
    ensures { ValuesAreConstructedTerms }
{}
