//! The programs of texts.
use portus_core::Program;
use portus_parser::parse;
use scope_types::scope;
use std::alloc::Global;
use std::test::Fail;

/// The program that a text stands for.
pub fn program(alloc: Global, text: &[u8]) -> Result<Program, Fail> {
    let source = parse(alloc, text).ok().ok_or("not read")?;
    Ok(scope(alloc, source).ok().ok_or("no program")?)
}
