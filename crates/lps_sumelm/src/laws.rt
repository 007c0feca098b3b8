//! The laws of solved sums. The functions do nothing: each contract is a law.

ghost use Rattle.lps_sumelm.specs.SolvingLaws.{WhatGivesNothingIsNotSolvable, WhatIsGivenIsSolvable};

/// What a part gives for a sum variable is told exactly.
pub fn solvable_parts_are_told()
    ensures given { WhatIsGivenIsSolvable }
    ensures nothing { WhatGivesNothingIsNotSolvable }
{}

ghost use Rattle.lps_sumelm.specs.SolvingLaws.{StepsAnswer, StepsKeepTheShape, StepsKeepTheSorts};

/// A step for a solvable part keeps the shape, the sorts and what the summand does.
pub fn steps_keep_summands()
    ensures shape { StepsKeepTheShape }
    ensures sorts { StepsKeepTheSorts }
    ensures answers { StepsAnswer }
{}
