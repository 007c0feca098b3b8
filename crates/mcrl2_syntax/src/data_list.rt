//! Lists of data expressions.

ghost use Rattle.std.specs.Prelude.{◌≡◌, ◌∷◌, [], IfOk, length};

use crate::data_tree::DataTree;
use std::alloc::{AllocError, Global};
use std::marker::Model;
use std::slice;

/// Where the expressions of a list stand.
#[derive(Debug, Drop)]
enum Kept {
    /// There are none.
    Nowhere,
    /// A lone one has a block for itself.
    Lone(Box<DataTree>),
    /// Several have a block in common.
    Block(Box<Vec<DataTree>>),
}

/// Data expressions, in their order. Where there are none they take no memory of their own.
#[derive(Debug, Drop)]
pub struct DataList {
    kept: Kept,
}

impl Model for DataList {
    ghost use Rattle.mcrl2_syntax.specs.ListedData.{ListedData};

    ghost Value = { ListedData };

    ghost use Rattle.std.specs.Coded.{codes};
    ghost use Rattle.mcrl2_syntax.specs.contracts.data_tree.DataTree as trees;

    ghost coded = { Prim.hlevel (codes, trees.the_row.coded) };

    ghost use Rattle.mcrl2_syntax.specs.DataLists.{kept_data};

    ghost view = { λ list. record { items = kept_data list.kept } };
}

impl DataList {
    /// No expressions.
    pub fn none() -> DataList
        ensures { result.items ≡ [] }
    {
        DataList {
            kept: Kept::Nowhere,
        }
    }

    /// A lone expression.
    ///
    /// # Errors
    ///
    /// `AllocError` where no memory is left.
    pub fn lone(alloc: Global, tree: DataTree) -> Result<DataList, AllocError>
        ensures { IfOk result (λ list. list.items ≡ tree ∷ []) }
    {
        let tree = Box::new(alloc, tree)?;
        Ok(DataList {
            kept: Kept::Lone(tree),
        })
    }

    /// An expression in front of others.
    ///
    /// # Errors
    ///
    /// `AllocError` where no memory is left.
    pub fn led(
        alloc: Global,
        first: DataTree,
        others: Vec<DataTree>,
    ) -> Result<DataList, AllocError>
        ensures { IfOk result (λ list. list.items ≡ first ∷ others.items) }
    {
        let mut all = others;
        all.reserve_exact(1)?;
        all.insert(0, first)?;
        let all = Box::new(alloc, all)?;
        Ok(DataList {
            kept: Kept::Block(all),
        })
    }

    /// The expressions. It takes no memory.
    pub fn as_slice(&self) -> &[DataTree]
        ensures value { result.now ≡ self.now.items }
        ensures len { length result.now ≡ length self.now.items }
    {
        match &self.kept {
            Kept::Nowhere => &[],
            Kept::Lone(tree) => slice::from_ref(tree),
            Kept::Block(all) => all.as_slice(),
        }
    }
}
