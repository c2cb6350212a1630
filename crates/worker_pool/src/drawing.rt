//! The next leaf of a worker. What it says of the hand is in specs/Leaves.antt.

ghost use Rattle.steal_deal.specs.Hands.{IsDealtWith};
ghost use Rattle.worker_pool.specs.Leaves.{DrawsNext};

use steal_deal::{Blocks, Drawn, Hand};

/// The next leaf number, from the hand's own block or else from the others in ascending order.
/// Empty comes once every block was found empty.
pub(crate) fn draw(hand: &mut Hand, blocks: &Blocks) -> Drawn
    requires dealt { IsDealtWith blocks.now hand.old }
    ensures dealt { IsDealtWith blocks.now hand.new }
    ensures next { DrawsNext hand.old.view result hand.new.view }
{
    if let Drawn::Leaf(number) = hand.pop(blocks) {
        return Drawn::Leaf(number);
    }
    for from in 0..blocks.workers() {
        if let Drawn::Leaf(number) = hand.steal(blocks, from) {
            return Drawn::Leaf(number);
        }
    }
    Drawn::Empty
}
