//! The course of a run, which the types of its parts name.
ghost use Rattle.std.specs.Prelude.{◌≡◌, ◌+◌, ℕ, Some, List, length, slice_get};
ghost use Rattle.ccp_base.specs.declared.ack.Ack.{Ack};
ghost use Rattle.shared_link.specs.declared.round.Ask.{Ask};
ghost use Rattle.shared_link.specs.declared.shared_case.SharedCase.{SharedCase};
ghost use Rattle.shared_rounds.specs.Rounds.{acks_in_round};

/// The link of a run, how many flows it has, and what they ask the link for after a given number of rounds. A type that
/// names a course says by it which run its values belong to: what comes from another thread is known by its type alone.
pub trait Course {
    ghost link: { SharedCase };

    ghost flows: { ℕ };

    ghost asks: { ℕ → List Ask };

    // each flow asks
    ghost asks_law: { (rounds : ℕ) → length (asks rounds) ≡ flows };

    // a flow without acknowledgements in a round asks as before
    ghost rest_law: { (rounds number : ℕ) (acks : List Ack) → slice_get (acks_in_round link asks rounds) number ≡ Some acks
        → length acks ≡ 0 → slice_get (asks rounds) number ≡ slice_get (asks (rounds + 1)) number };
}
