//! The identifiers of expressions.

ghost use Rattle.std.specs.Prelude.{◌≡◌, ◌++◌, map, IfOk, OnOk};
ghost use Rattle.mcrl2_syntax.specs.DataTrees.{plain_data, plain_operands, datas_of, operands_of};
ghost use Rattle.sort_table.specs.Identifiers.{in_data, in_datas, in_operands};
ghost use Rattle.sort_table.specs.LentTexts.{texts_of};

use data_theory::NoMemory;
use mcrl2_syntax::{DataTree, InfixSign};
use std::alloc::Global;

/// The identifiers of an expression, in the order of the text.
///
/// # Errors
///
/// `NoMemory` where there is none for the list.
pub(crate) fn data_identifiers<'a>(
    alloc: Global,
    tree: &'a DataTree,
) -> Result<Vec<&'a [u8]>, NoMemory>
    ensures { IfOk result (λ list. texts_of list.items ≡ in_data (plain_data tree.now)) }
{
    let mut list = Vec::new(alloc);
    add_data(&mut list, tree)?;
    Ok(list)
}

/// Puts the identifiers of an expression behind the others.
#[cycle(datas)]
fn add_data<'a>(list: &mut Vec<&'a [u8]>, tree: &'a DataTree) -> Result<(), NoMemory>
    ensures { OnOk result (texts_of list.new.items ≡ texts_of list.old.items ++ in_data (plain_data tree.now)) }
{
    match tree {
        DataTree::Name(name) => {
            list.push(name.bytes.as_slice())?;
            Ok(())
        }
        DataTree::Numeral(_) | DataTree::True(_) | DataTree::False(_) => Ok(()),
        DataTree::List(_, parts) | DataTree::And(_, parts) | DataTree::Or(_, parts) => {
            add_datas(list, parts.as_slice())
        }
        DataTree::Apply(_, application) => {
            list.push(application.name.bytes.as_slice())?;
            add_datas(list, application.arguments.as_slice())
        }
        DataTree::Brackets(_, inner) | DataTree::Prefix(_, _, inner) => add_data(list, inner),
        DataTree::Infix(_, _, left, right) => {
            add_data(list, left)?;
            add_data(list, right)
        }
        DataTree::Sum(_, chain) | DataTree::Product(_, chain) => {
            add_data(list, &chain.first)?;
            add_operands(list, chain.further.as_slice())
        }
    }
}

/// Puts the identifiers of expressions behind the others.
#[cycle(datas)]
fn add_datas<'a>(list: &mut Vec<&'a [u8]>, trees: &'a [DataTree]) -> Result<(), NoMemory>
    ensures { OnOk result (texts_of list.new.items ≡ texts_of list.old.items ++ in_datas (datas_of (map plain_data trees.now))) }
{
    for tree in trees {
        add_data(list, tree)?;
    }
    Ok(())
}

/// Puts the identifiers of operands behind the others.
#[cycle(datas)]
fn add_operands<'a>(
    list: &mut Vec<&'a [u8]>,
    operands: &'a [(InfixSign, DataTree)],
) -> Result<(), NoMemory>
    ensures { OnOk result (texts_of list.new.items ≡ texts_of list.old.items ++ in_operands (operands_of (plain_operands operands.now))) }
{
    for operand in operands {
        add_data(list, &operand.1)?;
    }
    Ok(())
}
