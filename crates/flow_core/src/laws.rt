//! Laws of the definitions: what holds of a case's word over its codes holds over the sources of its programs, and a bare
//! flow sums up the state after its word.
ghost use Rattle.flow_core.specs.Lift.{LiftsLink, LiftsList};
ghost use Rattle.flow_core.specs.Readings.{over_codes};
ghost use Rattle.flow_core.specs.SummaryLaw.{SumsUp};

use crate::case::Case;

impl Case {
    /// What holds of every word, with the acknowledgements of a link or of a list, for all programs that the case's
    /// codes simulate: the state after the word over the codes is the one over the sources, and the word is legal over
    /// the codes if and only if it is legal over the sources. The same holds of complete words.
    pub fn lift_law(&self)
        ensures link { LiftsLink self.now }
        ensures list { LiftsList self.now }
    {}
    /// What a bare flow's clauses mean: in each state of the flow, a call makes of the state's summary that of the state
    /// after the letter; and the summary tells which letters are legal, and whether the word is complete.
    pub fn summary_law(&self)
        ensures { SumsUp (over_codes self.now) }
    {}
}
