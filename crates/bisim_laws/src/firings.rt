//! What a linear process does.

ghost use Rattle.bisim_laws.specs.LinkLaws.{EqualArgumentsFireAlike, EqualEnvironmentsServe, FiringsAreSteps, FiringsAreWrittenSteps, FiringsKeepSorts, OtherEnvironmentsServe, PrintedTablesAreWritten, StepsAreFirings, WrittenStepsAreFirings};

/// A step of a linear process's state is a firing of one summand.
pub fn steps_are_firings()
    ensures { StepsAreFirings }
{}

/// Each firing of a summand is a step.
pub fn firings_are_steps()
    ensures { FiringsAreSteps }
{}

/// The same holds of each definition that a text may write for a linear process, where a condition `true` is written or left
/// out. The definition that is printed is one of them.
pub fn written_definitions_fire()
    ensures steps { WrittenStepsAreFirings }
    ensures firings { FiringsAreWrittenSteps }
    ensures printed { PrintedTablesAreWritten }
{}

/// A firing keeps the sorts of the arguments.
pub fn firings_keep_sorts()
    ensures { FiringsKeepSorts }
{}

/// Another environment serves a summand as well where it has the same terms for the summand's variables, and up to provable
/// equality where it has provably equal ones.
pub fn other_environments_serve()
    ensures same { OtherEnvironmentsServe }
    ensures equal { EqualEnvironmentsServe }
{}

/// From provably equal arguments there are firings with labels that agree and provably equal next arguments.
pub fn equal_arguments_fire_alike()
    ensures { EqualArgumentsFireAlike }
{}
