//! Adding rows of the table of built-in functions.

ghost use Rattle.std.specs.Prelude.{◌≡◌, ◌++◌, IfOk, OnOk, OnErr};
ghost use Rattle.data_theory.specs.Functions.{functions_of, AreNew};
ghost use Rattle.data_theory.specs.Rows.{AreNamed, built_ins};

use crate::functions::{FunEntry, Functions};
use crate::names::Names;
use crate::no_memory::NoMemory;
use crate::rows::Row;
use std::alloc::Global;

/// The functions of rows.
fn entries_of(names: &Names, alloc: Global, rows: &[Row]) -> Result<Vec<FunEntry>, NoMemory>
    requires { AreNamed names.now rows.now }
    ensures { IfOk result (λ entries. functions_of entries.items ≡ built_ins names.now rows.now) }
{
    let mut entries = Vec::new(alloc);
    for row in rows {
        let name = names.find(row.word().text()).unwrap();
        entries.push(row.entry(alloc, name)?)?;
    }
    Ok(entries)
}

/// Adds the functions of rows, all or none.
pub fn add_rows(
    functions: &mut Functions,
    names: &Names,
    alloc: Global,
    rows: &[Row],
) -> Result<(), NoMemory>
    requires named { AreNamed names.now rows.now }
    requires new { AreNew functions.old (built_ins names.now rows.now) }
    ensures added { OnOk result (functions.new ≡ functions.old ++ built_ins names.now rows.now) }
    ensures unchanged { OnErr result (functions.new ≡ functions.old) }
{
    let entries = entries_of(names, alloc, rows)?;
    functions.push_all(entries)
}
