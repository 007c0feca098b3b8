//! Texts that are loaded and bytes that are written, with calls that fail.

use mcrl2_text::{
    Failed, LoadFault, MAX_TEXT_LEN, MemShelf, MemSink, MemText, SteadyShelf, SteadySink, load,
    write_all,
};
use std::alloc::Global;
use std::test::Fail;

fn texts(alloc: Global, name: &str, text: &[u8]) -> Result<Vec<MemText>, Fail> {
    let mut texts = Vec::new(alloc);
    texts.push(MemText {
        name: String::from_str(alloc, name)?,
        text: text.to_vec(alloc)?,
    })?;
    Ok(texts)
}

/// Loads the text of name `f` from a shelf whose calls fail by these lists.
fn loaded(
    alloc: Global,
    name: &str,
    open_fails: &[u64],
    read_fails: &[u64],
) -> Result<Result<Vec<u8>, LoadFault>, Fail> {
    let texts = texts(alloc, "f", b"act a, b;")?;
    let open_fails = open_fails.to_vec(alloc)?;
    let read_fails = read_fails.to_vec(alloc)?;
    let mut shelf = MemShelf::new(texts, open_fails, read_fails, 5);
    Ok(load(alloc, &mut shelf, name))
}

#[test]
fn a_text_is_loaded_whole_in_pieces_of_five_bytes(rt: HostRuntime) -> Result<(), Fail> {
    let text = loaded(rt.alloc(), "f", &[2], &[4])??;
    assert_eq!(rt; text.as_slice(), b"act a, b;".as_slice());
    Ok(())
}

#[test]
fn a_failed_call_of_the_shelf_is_a_read_fault(rt: HostRuntime) -> Result<(), Fail> {
    let cases: [(&str, &[u64], &[u64]); 4] = [
        ("f", &[1], &[]),
        ("f", &[], &[1]),
        ("f", &[], &[3]),
        ("g", &[], &[]),
    ];
    for (name, open_fails, read_fails) in cases {
        let answer = loaded(rt.alloc(), name, open_fails, read_fails)?;
        assert_eq!(rt; answer.err(), Some(LoadFault::ReadFault), "{name}");
    }
    Ok(())
}

#[test]
fn a_text_may_have_the_most_bytes_and_no_more(rt: HostRuntime) -> Result<(), Fail> {
    let alloc = rt.alloc();
    for (len, fault) in [
        (MAX_TEXT_LEN, None),
        (MAX_TEXT_LEN + 1, Some(LoadFault::TooLong)),
    ] {
        let text = vec![in alloc; b'%'; len]?;
        let mut shelf = SteadyShelf::new(texts(alloc, "f", &text)?);
        assert_eq!(rt; load(alloc, &mut shelf, "f").err(), fault, "{len}");
    }
    let mut shelf = SteadyShelf::new(texts(alloc, "f", b"act a;")?);
    assert_eq!(rt; load(alloc, &mut shelf, "g")?.len(), 0);
    Ok(())
}

#[test]
fn a_piece_is_written_whole_or_up_to_the_failed_write(rt: HostRuntime) -> Result<(), Fail> {
    let alloc = rt.alloc();
    let mut sink = MemSink::new(alloc, 11, Vec::new(alloc), 2)?;
    assert_eq!(rt; write_all(&mut sink, b"init delta;"), Ok(()));
    assert_eq!(rt; sink.bytes(), b"init delta;".as_slice());
    let mut failing = MemSink::new(alloc, 11, [3].to_vec(alloc)?, 2)?;
    assert_eq!(rt; write_all(&mut failing, b"init delta;"), Err(Failed));
    assert_eq!(rt; failing.bytes(), b"init".as_slice());
    assert_eq!(rt; write_all(&mut SteadySink::new(), b"init delta;"), Ok(()));
    Ok(())
}
