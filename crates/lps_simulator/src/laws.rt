//! Laws of options. The functions do nothing: each contract is a law.

ghost use Rattle.lps_simulator.specs.OptionLaws.{CutSummandsAreTold, MovesAreSteps, NothingIsMissed, UndecidedSummandsHaveCauses};

/// Each move is a step of the linear process from the state: its label agrees in order with the step's, and its next state is
/// provably equal. It needs no consistency.
pub fn moves_are_steps()
    ensures { MovesAreSteps }
{}

/// Where a summand isn't undecided, each combination of listed values whose condition isn't provably false is a move. A summand is cut
/// exactly where the listed values of a sum aren't all.
pub fn nothing_is_missed()
    ensures moves { NothingIsMissed }
    ensures cut { CutSummandsAreTold }
{}

/// An undecided summand has a combination of listed values whose condition is stuck, or from which a chain of more uses than the fuel
/// starts.
pub fn undecided_summands_have_causes()
    ensures { UndecidedSummandsHaveCauses }
{}
