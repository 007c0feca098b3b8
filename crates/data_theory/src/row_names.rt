//! Which names the rows of the table of built-in functions have.

ghost use Rattle.std.specs.Prelude.{◌≡◌};
ghost use Rattle.data_theory.specs.RowsOfWords.{names_rows, names_by_one, names_by_two, names_by_three, names_by_four, names_by_five, names_by_seven};

/// Whether a row has this name, so that the table needn't be made for others.
pub fn names_rows(name: &[u8]) -> bool
    ensures { result ≡ names_rows name.now }
{
    match name.len() {
        1 => names_by_one(name),
        2 => names_by_two(name),
        3 => names_by_three(name),
        4 => names_by_four(name),
        5 => names_by_five(name),
        7 => names_by_seven(name),
        _ => false,
    }
}

/// Whether a row has this name of one byte.
fn names_by_one(name: &[u8]) -> bool
    ensures { result ≡ names_by_one name.now }
{
    match name {
        b"!" => true,
        b"<" => true,
        b">" => true,
        b"+" => true,
        b"-" => true,
        b"*" => true,
        b"#" => true,
        b"." => true,
        _ => false,
    }
}

/// Whether a row has this name of two bytes.
fn names_by_two(name: &[u8]) -> bool
    ensures { result ≡ names_by_two name.now }
{
    match name {
        b"&&" => true,
        b"||" => true,
        b"=>" => true,
        b"==" => true,
        b"!=" => true,
        b"if" => true,
        b"<=" => true,
        b">=" => true,
        b"[]" => true,
        b"|>" => true,
        b"<|" => true,
        b"++" => true,
        b"in" => true,
        _ => false,
    }
}

/// Whether a row has this name of three bytes.
fn names_by_three(name: &[u8]) -> bool
    ensures { result ≡ names_by_three name.now }
{
    match name {
        b"div" => true,
        b"mod" => true,
        b"exp" => true,
        b"min" => true,
        b"max" => true,
        b"abs" => true,
        _ => false,
    }
}

/// Whether a row has this name of four bytes.
fn names_by_four(name: &[u8]) -> bool
    ensures { result ≡ names_by_four name.now }
{
    match name {
        b"true" => true,
        b"succ" => true,
        b"pred" => true,
        b"head" => true,
        b"tail" => true,
        _ => false,
    }
}

/// Whether a row has this name of five bytes.
fn names_by_five(name: &[u8]) -> bool
    ensures { result ≡ names_by_five name.now }
{
    match name {
        b"false" => true,
        b"rhead" => true,
        b"rtail" => true,
        _ => false,
    }
}

/// Whether a row has this name of seven bytes.
fn names_by_seven(name: &[u8]) -> bool
    ensures { result ≡ names_by_seven name.now }
{
    match name {
        b"Pos2Nat" => true,
        b"Nat2Int" => true,
        b"Pos2Int" => true,
        b"Nat2Pos" => true,
        b"Int2Nat" => true,
        b"Int2Pos" => true,
        _ => false,
    }
}
