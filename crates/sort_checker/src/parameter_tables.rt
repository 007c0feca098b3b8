//! The processes of a text with their parameters.

ghost use Rattle.std.specs.Prelude.{◌≡◌, ◌++◌, ◌∷◌, [], List, map, IfOk, OnOk, option_map};
ghost use Rattle.std.specs.List.{AllByRecursion, Contains};
ghost use Rattle.mcrl2_syntax.specs.Declarations.{plain_decl, spec_of};
ghost use Rattle.mcrl2_syntax.specs.ProcessParts.{var_group_of};
ghost use Rattle.sort_table.specs.BareDeclarations.{bare_sections, declarations_in};
ghost use Rattle.sort_table.specs.BareProcesses.{bare_variables, bare_group};
ghost use Rattle.sort_table.specs.DeclarationTrees.{declaration_of};
ghost use Rattle.sort_table.specs.SignatureVocabularies.{text_under, vocabulary_of};
ghost use Rattle.data_typing.specs.Contexts.{AreTablesOf};
ghost use Rattle.sort_checker.specs.FullVocabularies.{Written, process_by, processes_in};
ghost use Rattle.sort_checker.specs.ParameterTables.{sorted_variables, parameters_of, IsParameterOver, parameters_under, HasProcesses};
ghost use Rattle.sort_checker.specs.ReadyTrees.{IsReadyGroup, AreReadyGroups, IsReadyDeclaration, AreReadyDeclarations, AreReadySections};

use crate::variable_sorts::{name_number, sort_of};
use data_theory::{NameId, NoMemory, Signature};
use data_typing::flat_sorts::FlatSort;
use data_typing::sort_tables::SortTables;
use mcrl2_syntax::{Decl, Spec, VarGroup};
use std::alloc::Global;
use std::collections::BTreeMap;

/// A parameter of a process.
#[derive(Clone, Copy)]
pub(crate) struct Parameter {
    pub(crate) name: NameId,
    pub(crate) sort: FlatSort,
}

/// The name of a parameter.
pub(crate) fn parameter_name<'a>(sig: &'a Signature, parameter: Parameter) -> &'a [u8]
    requires { IsParameterOver sig.now parameter }
    ensures { result.now ≡ text_under sig.now parameter.name }
{
    sig.names().text(parameter.name).as_bytes()
}

/// Under the name of each process its parameters. It is ordered, so that no choice of names makes a look-up slow.
#[derive(Drop)]
pub(crate) struct ParameterTable<'a> {
    pub(crate) processes: BTreeMap<&'a [u8], Vec<Parameter>>,
}

impl<'a> ParameterTable<'a> {
    /// The parameters of the first process of a name.
    pub(crate) fn get(&self, name: &'a [u8]) -> Option<&[Parameter]>
        ensures { option_map (λ ps. ps.now) result ≡ parameters_under self.now name.now }
    {
        match self.processes.get(&name) {
            Some(parameters) => Some(parameters.as_slice()),
            None => None,
        }
    }
}

/// The processes of a text.
///
/// # Errors
///
/// `NoMemory` where there is none for the table.
pub(crate) fn parameter_table<'a>(
    alloc: Global,
    sig: &Signature,
    tables: &SortTables,
    spec: &'a Spec,
) -> Result<ParameterTable<'a>, NoMemory>
    requires tables { AreTablesOf sig.now tables.now }
    requires ready { AreReadySections sig.now.texts spec.now.sections.items }
    ensures { IfOk result (HasProcesses sig.now (processes_in (declarations_in (bare_sections (spec_of spec.now))))) }
{
    let mut table = ParameterTable {
        processes: BTreeMap::new(alloc),
    };
    for section in &spec.sections {
        let declarations = section.declarations.as_slice();
        add_processes(alloc, sig, tables, &mut table, declarations)?;
    }
    Ok(table)
}

/// Adds the processes that these declarations define.
fn add_processes<'a>(
    alloc: Global,
    sig: &Signature,
    tables: &SortTables,
    table: &mut ParameterTable<'a>,
    declarations: &'a [Decl],
) -> Result<(), NoMemory>
    requires tables { AreTablesOf sig.now tables.now }
    requires ready { AreReadyDeclarations sig.now.texts declarations.now }
    ensures { OnOk result ((ws : List Written) → HasProcesses sig.now ws table.old → HasProcesses sig.now (ws ++ processes_in (map declaration_of declarations.now)) table.new) }
{
    for declaration in declarations {
        add_process(alloc, sig, tables, table, declaration)?;
    }
    Ok(())
}

/// Adds the process that a declaration defines, where its name has none yet.
fn add_process<'a>(
    alloc: Global,
    sig: &Signature,
    tables: &SortTables,
    table: &mut ParameterTable<'a>,
    declaration: &'a Decl,
) -> Result<(), NoMemory>
    requires tables { AreTablesOf sig.now tables.now }
    requires ready { IsReadyDeclaration sig.now.texts (plain_decl declaration.now) }
    ensures { OnOk result ((ws : List Written) → HasProcesses sig.now ws table.old → HasProcesses sig.now (ws ++ process_by (declaration_of declaration.now)) table.new) }
{
    let Decl::Proc(_, name, groups, _) = declaration else {
        return Ok(());
    };
    let name = name.bytes.as_slice();
    if table.get(name).is_some() {
        return Ok(());
    }
    let parameters = parameters_of(alloc, sig, tables, groups.as_slice())?;
    table.processes.insert(name, parameters)?;
    Ok(())
}

/// The variables of these groups that have a sort, each with it.
fn parameters_of(
    alloc: Global,
    sig: &Signature,
    tables: &SortTables,
    groups: &[VarGroup],
) -> Result<Vec<Parameter>, NoMemory>
    requires tables { AreTablesOf sig.now tables.now }
    requires ready { AreReadyGroups sig.now.texts (map var_group_of groups.now) }
    ensures means { IfOk result (λ list. parameters_of sig.now list.items ≡ sorted_variables (vocabulary_of sig.now).sort_names (bare_variables (map var_group_of groups.now))) }
    ensures over { IfOk result (λ list. AllByRecursion (IsParameterOver sig.now) list.items) }
{
    let mut list = Vec::new(alloc);
    for group in groups {
        add_group(sig, tables, &mut list, group)?;
    }
    Ok(list)
}

/// Adds the variables of a group, where they have a sort.
fn add_group(
    sig: &Signature,
    tables: &SortTables,
    list: &mut Vec<Parameter>,
    group: &VarGroup,
) -> Result<(), NoMemory>
    requires tables { AreTablesOf sig.now tables.now }
    requires ready { IsReadyGroup sig.now.texts (var_group_of group.now) }
    ensures means { OnOk result (parameters_of sig.now list.new.items ≡ parameters_of sig.now list.old.items ++ sorted_variables (vocabulary_of sig.now).sort_names (bare_group (var_group_of group.now))) }
    ensures over { OnOk result (AllByRecursion (IsParameterOver sig.now) list.old.items → AllByRecursion (IsParameterOver sig.now) list.new.items) }
{
    let Some(sort) = sort_of(sig, tables, &group.sort)? else {
        return Ok(());
    };
    for word in group.names.as_slice() {
        let name = name_number(sig, word.bytes.as_slice());
        list.push(Parameter { name, sort })?;
    }
    Ok(())
}
