//! The parts of a worker as a message to its thread and back.
ghost use Rattle.std.specs.Prelude.{◌≡◌};
ghost use Rattle.shared_rounds.specs.Rounds.{acks_in_round};
ghost use Rattle.shared_rounds.specs.Orders.{order_of};

use crate::course::Course;
use crate::order::Order;

/// An order that has all parts of its worker in its round: what another thread sends is known by its type alone.
#[derive(Drop)]
pub(crate) struct Dealt<C: Course> {
    pub(crate) order: Order<C>,
    ghost all: { order
        ≡ order_of order.workers order.worker order.round (acks_in_round C.link C.asks order.round) },
}

impl<C: Course> Dealt<C> {
    /// The order of a worker that has all parts of a round.
    pub(crate) fn new(order: Order<C>) -> Self
        requires { order ≡ order_of order.workers order.worker order.round (acks_in_round C.link C.asks order.round) }
        ensures { result.order ≡ order }
    {
        Dealt { order }
    }
}
