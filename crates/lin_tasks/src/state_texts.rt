//! States, as they are shown.

ghost use Rattle.std.specs.Prelude.{◌≡◌, ◌<◌, length, map, option_map, IfOk, IfSome};
ghost use Rattle.std.specs.List.{All};
ghost use Rattle.sort_table.specs.SignatureVocabularies.{text_under};
ghost use Rattle.lps_core.specs.Fitting.{sort_of_variable, AreTermsOf, IsVariable};
ghost use Rattle.lps_core.specs.PlainLinears.{plain_next};
ghost use Rattle.lps_simulator.specs.OptionsInCode.{terms_at};
ghost use Rattle.lin_tasks.specs.Shown.{state_line};
ghost use Rattle.lin_tasks.specs.ProcessNames.{IsNewProcess};

use crate::option_texts::push_label;
use data_theory::{NameId, NoMemory, Signature, SortId, TermId, VarId};
use lps_core::signature_stands;
use process_terms::{Action, Label};
use std::alloc::Global;
use term_pool::Pool;

/// The sort of a variable.
fn sort_of(sig: &Signature, variable: VarId) -> SortId
    requires { IsVariable sig.now variable }
    ensures { result ≡ sort_of_variable sig.now variable }
{
    sig.var_sort(variable)
}

/// The sorts of variables.
pub(crate) fn sorts_of(
    alloc: Global,
    sig: &Signature,
    variables: &[VarId],
) -> Result<Vec<SortId>, NoMemory>
    requires { All (IsVariable sig.now) variables.now }
    ensures { IfOk result (λ sorts. sorts.items ≡ map (sort_of_variable sig.now) variables.now) }
{
    let mut sorts = Vec::new(alloc);
    for variable in variables {
        sorts.push(sort_of(sig, *variable))?;
    }
    Ok(sorts)
}

/// The line of a state: the process with its terms, or that it has ended. The terms are written as the arguments of an action with the name of the process are, which the
/// signature gets for it.
pub(crate) fn state_line(
    alloc: Global,
    sig: &mut Signature,
    pool: &Pool,
    name: NameId,
    sorts: Vec<SortId>,
    state: Option<Vec<TermId>>,
) -> Result<Vec<u8>, NoMemory>
    requires name { IsNewProcess sig.old name }
    requires sorts { All (λ sort. sort.0 < length sig.old.sorts) sorts.items }
    requires state { IfSome (plain_next state) (AreTermsOf sig.old pool.now.trees sorts.items) }
    ensures { IfOk result (λ line. line.items ≡ state_line sig.old (text_under sig.old name) (option_map (terms_at sig.old pool.now.trees) (plain_next state))) }
{
    let Some(args) = state else {
        return Ok(Vec::from_slice(alloc, b"ended\n")?);
    };
    signature_stands(sig);
    let process = String::from_str(alloc, sig.names().text(name))?;
    let act = sig.add_act(&process, sorts)?;
    signature_stands(sig);
    let mut actions = Vec::new(alloc);
    actions.push(Action { act, args })?;
    let mut line = Vec::from_slice(alloc, b"state ")?;
    push_label(alloc, sig, pool, &Label { actions }, &mut line)?;
    Ok(line)
}
