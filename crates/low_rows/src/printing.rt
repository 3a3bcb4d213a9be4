//! How the trees of texts are printed.
use portus_core::{Source, print_tree};
use portus_parser::parse;
use std::alloc::Global;
use std::test::Fail;

/// Texts, and how their trees are printed: without their blanks and comments.
const PRINTED: [(&str, &str); 3] = [
    (" ( def )  # x", "(def)\n"),
    (" ( def (  ) 070 )  # x", "(def () 70)\n"),
    ("(a)(b\n\t:=)", "(a)\n(b :=)\n"),
];

fn shows(alloc: Global, source: &Source, want: &[u8]) -> Result<bool, Fail> {
    Ok(print_tree(alloc, source)?.as_slice() == want)
}

/// Whether this is printed of a source, which is dropped then.
fn has_shown(alloc: Global, source: Source, want: &[u8]) -> Result<bool, Fail> {
    let shown = shows(alloc, &source, want);
    drop(source);
    shown
}

fn is_printed(alloc: Global, text: &str, want: &str) -> Result<bool, Fail> {
    match parse(alloc, text.as_bytes()) {
        Ok(source) => has_shown(alloc, source, want.as_bytes()),
        Err(_) => Err("not read".into()),
    }
}

#[test]
fn trees_are_printed_without_blanks_and_comments(rt: HostRuntime) -> Result<(), Fail> {
    for (text, want) in &PRINTED {
        assert!(rt; is_printed(rt.alloc(), text, want)?, "at {text}");
    }
    Ok(())
}
