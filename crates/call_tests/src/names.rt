//! Texts by number.

use data_theory::Names;
use std::process::Abort;
use std::test::Fail;

/// A text that is entered again has the number that it has.
fn texts_stand(rt: &impl Abort, names: &mut Names) -> Result<(), Fail> {
    let first = names.enter("n")?;
    let second = names.enter("n_1")?;
    let again = names.enter("n")?;
    assert_eq!(rt; first.0, 0);
    assert_eq!(rt; second.0, 1);
    assert_eq!(rt; again.0, 0);
    assert_eq!(rt; names.find("n_1").is_some(), true);
    assert_eq!(rt; names.find("n_2").is_some(), false);
    assert_eq!(rt; names.text(second), "n_1");
    Ok(())
}

#[test]
fn a_text_keeps_its_place(rt: HostRuntime) -> Result<(), Fail> {
    let mut names = Names::new(rt.alloc());
    texts_stand(&rt, &mut names)
}
