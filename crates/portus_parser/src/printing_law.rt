//! A law: a printed source of at most 65,536 bytes is read back as the same source, but for places.
ghost use Rattle.portus_parser.specs.PrintedBack.{PrintsBack};

/// The law of printing a source: if a text can be read, and `print_tree` writes at most 65,536 bytes for its source,
/// then these bytes are read as the same source but for its places.
pub fn print_tree_law()
    ensures { PrintsBack }
{}
