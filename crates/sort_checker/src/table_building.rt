//! The table of a text's processes.

ghost use Rattle.std.specs.Prelude.{◌≡◌, ◌++◌, List, map, cond, Some, None, bytes_eq, IfOk, OnOk};
ghost use Rattle.std.specs.List.{AllByRecursion};
ghost use Rattle.std.specs.Option.{option_or};
ghost use Rattle.sort_table.specs.Expressions.{Name};
ghost use Rattle.sort_checker.specs.NameNumbers.{number_under};
ghost use Rattle.mcrl2_syntax.specs.Declarations.{plain_decl};
ghost use Rattle.mcrl2_syntax.specs.ProcessParts.{var_group_of};
ghost use Rattle.sort_table.specs.BareProcesses.{bare_group, bare_variables};
ghost use Rattle.sort_table.specs.DeclarationTrees.{declaration_of};
ghost use Rattle.sort_table.specs.SignatureVocabularies.{vocabulary_of};
ghost use Rattle.data_typing.specs.Contexts.{AreTablesOf};
ghost use Rattle.sort_checker.specs.FullVocabularies.{Written, process_by, processes_in};
ghost use Rattle.sort_checker.specs.ParameterTables.{sorted_variables};
ghost use Rattle.sort_checker.specs.ReadyTrees.{IsReadyGroup, AreReadyGroups, IsReadyDeclaration};
ghost use Rattle.sort_checker.specs.CodeContexts.{parameter_of, IsParameterOver, IsTableOver};
ghost use Rattle.sort_checker.specs.ElaboratedTexts.{IsReadyScoped, declarations_listed};
ghost use Rattle.sort_checker.specs.TextProcesses.{ListsProcesses};

use crate::name_numbers::NameNumbers;
use crate::process_tables::{Parameter, ProcessTable};
use crate::scoped_declarations::ScopedDecl;
use crate::sorted_actions::sorted_actions;
use crate::variable_sorts::{name_number, sort_of};
use data_theory::{NoMemory, Signature};
use data_typing::sort_tables::SortTables;
use mcrl2_syntax::{Decl, VarGroup};
use std::alloc::Global;

/// Adds the variables of a group, where they have a sort.
fn add_group<'a>(
    sig: &Signature,
    tables: &SortTables,
    list: &mut Vec<Parameter<'a>>,
    group: &'a VarGroup,
) -> Result<(), NoMemory>
    requires tables { AreTablesOf sig.now tables.now }
    requires ready { IsReadyGroup sig.now.texts (var_group_of group.now) }
    ensures means { OnOk result (map parameter_of list.new.items ≡ map parameter_of list.old.items ++ sorted_variables (vocabulary_of sig.now).sort_names (bare_group (var_group_of group.now))) }
    ensures over { OnOk result (AllByRecursion (IsParameterOver sig.now) list.old.items → AllByRecursion (IsParameterOver sig.now) list.new.items) }
{
    let Some(sort) = sort_of(sig, tables, &group.sort)? else {
        return Ok(());
    };
    for word in group.names.as_slice() {
        let name = word.bytes.as_slice();
        let number = name_number(sig, name);
        list.push(Parameter { name, number, sort })?;
    }
    Ok(())
}

/// The variables of these groups that have a sort, each with it.
fn parameters_of<'a>(
    alloc: Global,
    sig: &Signature,
    tables: &SortTables,
    groups: &'a [VarGroup],
) -> Result<Vec<Parameter<'a>>, NoMemory>
    requires tables { AreTablesOf sig.now tables.now }
    requires ready { AreReadyGroups sig.now.texts (map var_group_of groups.now) }
    ensures means { IfOk result (λ list. map parameter_of list.items ≡ sorted_variables (vocabulary_of sig.now).sort_names (bare_variables (map var_group_of groups.now))) }
    ensures over { IfOk result (λ list. AllByRecursion (IsParameterOver sig.now) list.items) }
{
    let mut list = Vec::new(alloc);
    for group in groups {
        add_group(sig, tables, &mut list, group)?;
    }
    Ok(list)
}

/// Puts a number under a name that has none.
fn put_first<'a>(
    places: &mut NameNumbers<'a>,
    name: &'a [u8],
    number: usize,
) -> Result<(), NoMemory>
    ensures { OnOk result ((n : Name) → number_under places.new n ≡ option_or (number_under places.old n) (cond (bytes_eq name.now n) (Some number) None)) }
{
    if places.get(name).is_some() {
        return Ok(());
    }
    places.put(name, number)?;
    Ok(())
}

/// Adds the process that a declaration defines. Of several processes of one name the first one is found.
fn add_process<'a>(
    alloc: Global,
    sig: &Signature,
    tables: &SortTables,
    table: &mut ProcessTable<'a>,
    declaration: &'a Decl,
) -> Result<(), NoMemory>
    requires tables { AreTablesOf sig.now tables.now }
    requires ready { IsReadyDeclaration sig.now.texts (plain_decl declaration.now) }
    ensures lists { OnOk result ((ws : List Written) → ListsProcesses sig.now ws table.old → ListsProcesses sig.now (ws ++ process_by (declaration_of declaration.now)) table.new) }
    ensures over { OnOk result (IsTableOver sig.now table.old → IsTableOver sig.now table.new) }
{
    let Decl::Proc(_, name, groups, _) = declaration else {
        return Ok(());
    };
    let parameters = parameters_of(alloc, sig, tables, groups.as_slice())?;
    let name = name.bytes.as_slice();
    let number = table.parameters.len();
    put_first(&mut table.places, name, number)?;
    table.parameters.push(parameters)?;
    Ok(())
}

/// The table of the processes that these declarations define.
///
/// # Errors
///
/// `NoMemory` where there is none for it.
pub(crate) fn process_table<'a>(
    alloc: Global,
    sig: &Signature,
    tables: &SortTables,
    list: &[ScopedDecl<'a>],
) -> Result<ProcessTable<'a>, NoMemory>
    requires tables { AreTablesOf sig.now tables.now }
    requires ready { AllByRecursion (IsReadyScoped sig.now.texts) list.now }
    ensures lists { IfOk result (ListsProcesses sig.now (processes_in (declarations_listed list.now))) }
    ensures over { IfOk result (IsTableOver sig.now) }
{
    let actions = sorted_actions(alloc, sig, tables)?;
    let mut table = ProcessTable {
        places: NameNumbers::new(alloc),
        parameters: Vec::new(alloc),
        actions,
    };
    for item in list {
        add_process(alloc, sig, tables, &mut table, item.declaration)?;
    }
    Ok(table)
}
