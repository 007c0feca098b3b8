//! Numerals and constructors of structured sorts, up to provable equality.

ghost use Rattle.data_theory.specs.ConsistencyLaws.{ConstructorsAreInjective, DifferentNumeralsAreNotEqual, EqualConstructorsAreTheSame, EqualNumeralsAreTheSame, ProjectionsCompute, RecognisersAccept, RecognisersReject};

/// Over consistent data two different numerals of one sort are not provably equal.
pub fn equal_numerals_are_the_same()
    ensures same { EqualNumeralsAreTheSame }
    ensures different { DifferentNumeralsAreNotEqual }
{}

/// Over consistent data two different constructors of a structured sort are not provably equal.
pub fn equal_constructors_are_the_same()
    ensures { EqualConstructorsAreTheSame }
{}

/// A constructor of a structured sort gives provably equal terms only for provably equal arguments.
pub fn constructors_are_injective()
    ensures { ConstructorsAreInjective }
{}

/// A projection of what is provably its constructor's term is provably the argument.
pub fn projections_compute()
    ensures { ProjectionsCompute }
{}

/// A recogniser is provably true of what is provably its constructor's term, and provably false of another one's.
pub fn recognisers_compute()
    ensures of_its_own { RecognisersAccept }
    ensures of_another { RecognisersReject }
{}
