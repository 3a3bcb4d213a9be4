//! A law: what the text of a rollout shows of its flows' words.
ghost use Rattle.live_install.specs.WordsShown.{TextShowsWords};

/// A law: two rollouts of the same cases have one text if and only if each flow's words are alike, that is, equal but
/// for the order of the entries and changes that come at one count of acknowledgements.
pub fn words_law()
    ensures { TextShowsWords }
{}
