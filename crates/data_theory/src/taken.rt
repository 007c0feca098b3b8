//! The names that are taken from the start.

ghost use Rattle.std.specs.Prelude.{◌≡◌, map, OnOk};
ghost use Rattle.data_theory.specs.FirstNames.{reserved_words, first_names};
ghost use Rattle.data_theory.specs.Names.{place_in, with_text};
ghost use Rattle.data_theory.specs.Rows.{row_text};
ghost use Rattle.data_theory.specs.Table.{first_table};
ghost use Rattle.data_theory.specs.Taken.{with_name, Takes};

use crate::ids::NameId;
use crate::names::Names;
use crate::no_memory::NoMemory;
use crate::rows::Row;
use crate::table::{BOOL, list_rows};
use indexmap::IndexSet;

/// The words that are no identifiers: those of sections, the others, and those of what the language leaves out.
#[tactic(auto, unfolding(crate::specs::FirstNames::reserved_words))]
fn reserved_words() -> [&'static str; 39]
    ensures { map (λ word. word.now) result ≡ reserved_words }
{
    [
        "sort", "cons", "map", "var", "eqn", "act", "proc", "init", "struct", "Bool", "Pos", "Nat",
        "Int", "List", "true", "false", "div", "mod", "in", "delta", "tau", "sum", "allow",
        "block", "hide", "rename", "comm", "dist", "glob", "Real", "Set", "Bag", "FSet", "FBag",
        "lambda", "forall", "exists", "whr", "end",
    ]
}

/// Enters a text and takes its name.
fn take_text(names: &mut Names, taken: &mut IndexSet<NameId>, text: &str) -> Result<(), NoMemory>
    ensures texts { OnOk result (names.new ≡ with_text names.old text.now) }
    ensures taken { OnOk result (taken.new.keys ≡ with_name taken.old.keys (place_in names.new text.now)) }
{
    let name = names.enter(text)?;
    taken.insert(name)?;
    Ok(())
}

/// Takes texts.
fn take_texts(
    names: &mut Names,
    taken: &mut IndexSet<NameId>,
    texts: &[&str],
) -> Result<(), NoMemory>
    ensures { OnOk result (Takes names.old taken.old.keys (map (λ text. text.now) texts.now) names.new taken.new.keys) }
{
    for text in texts {
        take_text(names, taken, text)?;
    }
    Ok(())
}

/// Takes the names of rows.
fn take_rows(names: &mut Names, taken: &mut IndexSet<NameId>, rows: &[Row]) -> Result<(), NoMemory>
    ensures { OnOk result (Takes names.old taken.old.keys (map row_text rows.now) names.new taken.new.keys) }
{
    for row in rows {
        take_text(names, taken, row.word().text())?;
    }
    Ok(())
}

/// Takes the words that are no identifiers and the names of the built-in functions, of which the given rows are the first.
pub fn take_first_names(
    names: &mut Names,
    taken: &mut IndexSet<NameId>,
    rows: &[Row],
) -> Result<(), NoMemory>
    requires { rows.now ≡ first_table }
    ensures { OnOk result (Takes names.old taken.old.keys first_names names.new taken.new.keys) }
{
    take_texts(names, taken, &reserved_words())?;
    take_rows(names, taken, rows)?;
    take_rows(names, taken, &list_rows(BOOL, BOOL))?;
    Ok(())
}

ghost use Rattle.std.specs.Prelude.{◌≤◌, length};
ghost use Rattle.indexmap.specs.IndexSet.{spare};
ghost use Rattle.data_theory.specs.Taken.{with_names};

/// Takes names, for which there is room.
pub fn take_names(taken: &mut IndexSet<NameId>, names: &[NameId])
    requires { length names.now ≤ spare taken.old }
    ensures { taken.new.keys ≡ with_names taken.old.keys names.now }
{
    for name in names {
        let _ = taken.insert(*name);
    }
}
