//! Numerals that merge with what stands over them.

ghost use Rattle.std.specs.Prelude.{◌≡◌, ◌↔◌, [], IfSome, MatchOption, None, false, pos};
ghost use lib.Signed.{lt_z};
ghost use lib.IntN.{neg_ℤ};
ghost use Rattle.data_theory.specs.Table.{int_sort};
ghost use Rattle.data_theory.specs.Whole.{whole_of};
ghost use Rattle.data_theory.specs.IdTrees.{function, numeral, none, more, apply_to_numeral};
ghost use Rattle.data_theory.specs.IdTreeSorts.{HasNumber};
ghost use Rattle.term_pool.specs.HeadTrees.{head_tree, Stands};

use crate::terms::Head;
use data_theory::{FunId, Num, SortId};

const POS: SortId = SortId(1);

const NAT: SortId = SortId(2);

const INT: SortId = SortId(3);

/// The numeral of the negative number, where the number is above zero.
fn negated(num: Num) -> Option<Head>
    ensures above_zero { result ≡ None ↔ (lt_z (pos 0) (whole_of num) ≡ false) }
    ensures negates { IfSome result (λ head. head_tree head [] ≡ numeral int_sort (neg_ℤ (whole_of num))) }
    ensures stands { IfSome result (λ head. Stands head []) }
{
    if num.negative || num.magnitude == 0 {
        return None;
    }
    Some(Head::Num(
        INT,
        Num {
            negative: true,
            magnitude: num.magnitude,
        },
    ))
}

/// The numeral that a function makes of one directly under it, where the two merge: `Pos2Nat`, `Nat2Int` and `Pos2Int` give
/// the numeral of the wider sort, and the prefix `-` of Pos, Nat and Int gives the negative numeral of one above zero.
pub fn merged_numeral(fun: FunId, sort: SortId, num: Num) -> Option<Head>
    requires { HasNumber sort (whole_of num) }
    ensures merges { MatchOption result (apply_to_numeral fun sort (whole_of num) ≡ function fun (more (numeral sort (whole_of num)) none)) (λ head. apply_to_numeral fun sort (whole_of num) ≡ head_tree head []) }
    ensures stands { IfSome result (λ head. Stands head []) }
{
    match (fun.0, sort) {
        (0, POS) | (1, NAT) | (2, INT) => negated(num),
        (3, POS) => Some(Head::Num(NAT, num)),
        (4, NAT) | (5, POS) => Some(Head::Num(INT, num)),
        _ => None,
    }
}
