//! Numbers of Pos, and conditions that a term is one.

ghost use Rattle.std.specs.Prelude.{◌≡◌, ◌≤◌, IfOk};
ghost use Rattle.term_pool.specs.HeadTrees.{tree_at, IsIn};
ghost use Rattle.term_pool.specs.Pools.{Extends};
ghost use Rattle.lps_core.specs.NumberTrees.{equals_number, number_tree};

use data_theory::{FunId, NoMemory, Num, SortId, TermId};
use term_pool::{Head, Pool};

const POS: SortId = SortId(1);

/// `==` on Pos
const EQUAL: FunId = FunId(15);

/// The term of a number of Pos.
pub fn numeral(pool: &mut Pool, number: usize) -> Result<TermId, NoMemory>
    requires { 1 ≤ number }
    ensures kept { Extends pool.old.trees pool.new.trees }
    ensures constants { pool.new.constants ≡ pool.old.constants }
    ensures within { IfOk result (λ id. IsIn pool.new.trees id) }
    ensures tree { IfOk result (λ id. tree_at pool.new.trees id ≡ number_tree number) }
{
    let num = Num {
        negative: false,
        magnitude: number as u128,
    };
    pool.intern(Head::Num(POS, num), &[])
}

/// The condition that a term is this number.
pub fn equals_number(pool: &mut Pool, term: TermId, number: usize) -> Result<TermId, NoMemory>
    requires term { IsIn pool.old.trees term }
    requires number { 1 ≤ number }
    ensures kept { Extends pool.old.trees pool.new.trees }
    ensures constants { pool.new.constants ≡ pool.old.constants }
    ensures within { IfOk result (λ id. IsIn pool.new.trees id) }
    ensures tree { IfOk result (λ id. tree_at pool.new.trees id ≡ equals_number (tree_at pool.old.trees term) number) }
{
    let numeral = numeral(pool, number)?;
    pool.intern(Head::Fun(EQUAL), &[term, numeral])
}
