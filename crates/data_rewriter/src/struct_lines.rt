//! The built-in equations on projections and recognisers.

ghost use Rattle.std.specs.Prelude.{◌≡◌, ℕ, List, MatchOption};
ghost use Rattle.data_theory.specs.Signature.{Sig};
ghost use Rattle.data_theory.specs.IdTables.{IsTable};
ghost use Rattle.data_theory.specs.IdData.{data_meant};
ghost use Rattle.data_theory.specs.IdTrees.{Tree};
ghost use Rattle.data_theory.specs.Terms.{Term, Terms, function, application};
ghost use Rattle.data_theory.specs.Declarations.{IsData, function_at, projection, recogniser};
ghost use Rattle.data_theory.specs.Equations.{one, term_at, trueᵗ};
ghost use Rattle.data_rewriter.specs.Standing.{StandsFor, IsSymbolOf};
ghost use Rattle.data_rewriter.specs.Views.{IsView};
ghost use Rattle.data_rewriter.specs.FirstLines.{IsFirstLine};

use crate::rights::{Line, Right};
use crate::truth_lines::line;
use crate::views::{View, constructor_of};
use data_theory::{FunId, TermId};

/// The first equation at the projection of a constructor's place. Where the argument is an application of that constructor, its
/// argument at the place is given, if there is one.
pub fn projection_line(constructor: FunId, argument: View, at_place: Option<TermId>) -> Option<Line>
    ensures { (sig : Sig) (ts : List Tree) (p c i : ℕ) (t : Term) → IsTable sig → IsData (data_meant sig) → IsSymbolOf sig constructor (function c) → (function_at (data_meant sig) p).role ≡ projection c i → IsView sig ts t argument → ((us : Terms) → t ≡ application (function c) us → MatchOption at_place (term_at us i ≡ trueᵗ) (λ id. StandsFor sig ts id (term_at us i))) → IsFirstLine sig ts (one (function p) t) result }
{
    let Some(found) = constructor_of(argument) else {
        return None;
    };
    if found != constructor {
        return None;
    }
    match at_place {
        Some(term) => line(52, Right::Is(term)),
        None => line(52, Right::Truth(true)),
    }
}

/// The first equation at the recogniser of a constructor.
pub fn recogniser_line(constructor: FunId, argument: View) -> Option<Line>
    ensures { (sig : Sig) (ts : List Tree) (r c : ℕ) (t : Term) → IsTable sig → IsData (data_meant sig) → IsSymbolOf sig constructor (function c) → (function_at (data_meant sig) r).role ≡ recogniser c → IsView sig ts t argument → IsFirstLine sig ts (one (function r) t) result }
{
    let Some(found) = constructor_of(argument) else {
        return None;
    };
    if found == constructor {
        line(53, Right::Truth(true))
    } else {
        line(54, Right::Truth(false))
    }
}
