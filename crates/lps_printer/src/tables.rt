//! Which names are declared once.

ghost use Rattle.std.specs.Prelude.{◌≡◌, ◌<◌, ℕ, length, slice_get, get_or, IfOk, IfSome, OnOk};
ghost use Rattle.data_theory.specs.Functions.{Function};
ghost use Rattle.data_theory.specs.declared.ids.NameId.{NameId};
ghost use Rattle.lps_printer.specs.SignatureNames.{actions_named, is_action_once, is_free, is_function_once, once_actions, once_functions, Counts};

use data_theory::{ActEntry, FunId, NameId, NoMemory, Signature, SortId, rows_of};
use std::alloc::Global;

/// Whether no built-in function has a name.
fn is_free(alloc: Global, name: &str) -> Result<bool, NoMemory>
    ensures { IfOk result (λ free. free ≡ is_free name.now) }
{
    let rows = rows_of(alloc, name, SortId(4), SortId(5))?;
    Ok(rows.is_empty())
}

/// Whether one function alone was declared with a function's name, and none of that name is built in.
fn is_function_once(alloc: Global, sig: &Signature, fun: FunId) -> Result<bool, NoMemory>
    requires { fun.0 < length sig.now.functions }
    ensures { IfOk result (λ once. IfSome (slice_get sig.now.functions fun.0) (λ (f : Function). once ≡ is_function_once sig.now f.name)) }
{
    let name = sig.fun_name_id(fun);
    if sig.funs_named(name).len() != 1 {
        return Ok(false);
    }
    is_free(alloc, sig.fun_name(fun))
}

/// For each function, whether its name is declared once and isn't built in.
pub(crate) fn once_functions(alloc: Global, sig: &Signature) -> Result<Vec<bool>, NoMemory>
    ensures { IfOk result (λ once. once.items ≡ once_functions sig.now) }
{
    let mut once = Vec::new(alloc);
    for number in 0..sig.fun_count() {
        once.push(is_function_once(alloc, sig, FunId(number))?)?;
    }
    Ok(once)
}

/// Makes a list of counts long enough for a place.
fn make_room(counts: &mut Vec<usize>, place: usize) -> Result<(), NoMemory>
    ensures kept { (n : ℕ) → get_or counts.new.items n 0 ≡ get_or counts.old.items n 0 }
    ensures room { OnOk result (place < length counts.new.items) }
{
    while counts.len() <= place {
        counts.push(0)?;
    }
    Ok(())
}

/// How many actions have each name. Names behind the last one have none.
fn count_actions(alloc: Global, sig: &Signature) -> Result<Vec<usize>, NoMemory>
    ensures { IfOk result (λ counts. Counts sig.now.actions counts.items) }
{
    let mut counts = Vec::new(alloc);
    for action in sig.acts() {
        make_room(&mut counts, action.name.0)?;
        counts[action.name.0] += 1;
    }
    Ok(counts)
}

/// How often a name is counted.
fn count_at(counts: &[usize], name: NameId) -> usize
    ensures { result ≡ get_or counts.now name.0 0 }
{
    match counts.get(name.0) {
        Some(count) => *count,
        None => 0,
    }
}

/// Whether an action's name is that of no other action, and none of that name is built in.
fn is_action_once(
    alloc: Global,
    sig: &Signature,
    counts: &[usize],
    name: NameId,
) -> Result<bool, NoMemory>
    requires name { name.0 < length sig.now.texts }
    requires counts { Counts sig.now.actions counts.now }
    ensures { IfOk result (λ once. once ≡ is_action_once sig.now name) }
{
    if count_at(counts, name) != 1 {
        return Ok(false);
    }
    is_free(alloc, sig.names().text(name))
}

/// For each action, whether its name is declared once and isn't built in.
pub(crate) fn once_actions(alloc: Global, sig: &Signature) -> Result<Vec<bool>, NoMemory>
    ensures { IfOk result (λ once. once.items ≡ once_actions sig.now) }
{
    let _ = sig.names();
    let counts = count_actions(alloc, sig)?;
    let mut once = Vec::new(alloc);
    for action in sig.acts() {
        once.push(is_action_once(alloc, sig, counts.as_slice(), action.name)?)?;
    }
    Ok(once)
}
