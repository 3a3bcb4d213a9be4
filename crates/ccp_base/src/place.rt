//! A place in a program's text: its line and column.
/// A place in a program's text. Lines and columns count from 1, columns count bytes, and a line ends after LF.
#[derive(Clone, Copy, PartialEq, Eq, Debug)]
pub struct Place {
    pub line: u32,
    pub column: u32,
}
