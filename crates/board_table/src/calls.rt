//! The calls on a shared board. Each tries once for the turn, and one that wins it makes its one
//! change to the board and gives the turn up before it returns. `close` alone keeps it.

ghost use Rattle.std.specs.Prelude.{◌≡◌, ◌<◌, ◌≤◌, MatchOption};
ghost use Rattle.board_core.specs.Board.{IsClaim};
ghost use Rattle.board_core.specs.Calls.{Offers, Claims, AnswersPlainly};
ghost use Rattle.board_table.specs.Seen.{IsReady, IsSameSeat};
ghost use Rattle.board_table.specs.Changes.{HasWon, Misses, MayGoHome, done_seat};
ghost use Rattle.board_table.specs.Answers.{StandsIn, IsWithin, OfferAnswers, ClaimAnswers};
ghost use Rattle.board_table.specs.Answers.{PairStands, SettleAnswers, PutBackAnswers};
ghost use Rattle.board_table.specs.Closing.{CloseAnswers};

use crate::answers::{Claimed, Leftover, Offered, PutBack, Settled};
use crate::board::Board;
use crate::seat::Seat;
use crate::table::{Free, Slot, Try};
use board_core::{Core, CoreClaimed, CoreOffered, Lists, Taken};
use interval_kit::{Fused, Piece};

impl<F: Fused> Board<F> {
    /// The board, if one try wins the turn.
    fn win(&self, seat: &mut Seat<F>) -> Slot<F>
        requires ready { IsReady self.now seat.old }
        ensures turn { MatchOption result
            (Misses seat.old seat.new)
            (λ core. HasWon F.rows F.stands seat.old core seat.new) }
    {
        let shared = &self.table.shared;
        if shared.compare_exchange::<Try<F>>(&mut seat.raw, 0, 0, 1) != 0 {
            return None;
        }
        shared.exchange(&mut seat.raw, 0, None)
    }

    /// Gives up the turn, and the board with it.
    fn free(&self, seat: &mut Seat<F>, core: Core<F::Value>)
        requires table { seat.old.table ≡ self.now }
        requires home { MayGoHome F.rows F.stands seat.old core }
        ensures freed { seat.new ≡ done_seat seat.old core.log }
    {
        let shared = &self.table.shared;
        let _nothing = shared.exchange(&mut seat.raw, 0, Some(core));
        shared.swap::<Free<F>>(&mut seat.raw, 0, 0);
    }

    /// Holds the piece. Any other answer hands it back. Takes no memory.
    pub fn offer(&self, seat: &mut Seat<F>, piece: Piece<F::Value>) -> Offered<F::Value>
        requires ready { IsReady self.now seat.old }
        requires nonempty { piece.lo < piece.hi }
        requires within { IsWithin F.rows seat.old.plan piece.hi }
        requires stands { StandsIn F.stands seat.old.plan piece.lo piece.hi piece.value }
        ensures ready { IsReady self.now seat.new }
        ensures same { IsSameSeat seat.old seat.new }
        ensures answer { OfferAnswers seat.old piece result seat.new }
    {
        let Some(mut core) = self.win(seat) else {
            return Offered::Busy(piece);
        };
        let answer = offer_by(seat, &mut core, piece);
        self.free(seat, core);
        match answer {
            CoreOffered::Kept => Offered::Kept,
            CoreOffered::Overlaps(piece) => Offered::Overlaps(piece),
            CoreOffered::Full(piece) => Offered::Full(piece),
        }
    }

    /// Hands out the adjacent pair of held pieces that begins lowest, and claims its joint interval
    /// for this seat. Takes no memory.
    pub fn claim(&self, seat: &mut Seat<F>) -> Claimed<F::Value>
        requires ready { IsReady self.now seat.old }
        ensures ready { IsReady self.now seat.new }
        ensures same { IsSameSeat seat.old seat.new }
        ensures answer { ClaimAnswers seat.old result seat.new }
        ensures stands { PairStands F.rows F.stands seat.old.plan result }
    {
        let Some(mut core) = self.win(seat) else {
            return Claimed::Busy;
        };
        let answer = claim_by(seat, &mut core);
        self.free(seat, core);
        match answer {
            CoreClaimed::Pair(taken) => Claimed::Pair(taken),
            CoreClaimed::NoPair => Claimed::NoPair,
            CoreClaimed::Full => Claimed::Full,
        }
    }

    /// Ends the seat's claim, and holds the joint interval with the value. Takes no memory.
    pub fn settle(
        &self,
        seat: &mut Seat<F>,
        taken: Taken<F::Value>,
        value: F::Value,
    ) -> Settled<F::Value>
        requires ready { IsReady self.now seat.old }
        requires is_claim { IsClaim taken seat.old.taken }
        requires stands { StandsIn F.stands seat.old.plan taken.left.lo taken.right.hi value }
        ensures ready { IsReady self.now seat.new }
        ensures same { IsSameSeat seat.old seat.new }
        ensures answer { SettleAnswers seat.old taken value result seat.new }
    {
        let Some(mut core) = self.win(seat) else {
            return Settled::Busy(taken, value);
        };
        core.settle(taken, value);
        self.free(seat, core);
        Settled::Kept
    }

    /// Ends the seat's claim, and holds both pieces again. Takes no memory.
    pub fn put_back(&self, seat: &mut Seat<F>, taken: Taken<F::Value>) -> PutBack<F::Value>
        requires ready { IsReady self.now seat.old }
        requires is_claim { IsClaim taken seat.old.taken }
        requires left_stands { StandsIn F.stands seat.old.plan
            taken.left.lo taken.left.hi taken.left.value }
        requires right_stands { StandsIn F.stands seat.old.plan
            taken.right.lo taken.right.hi taken.right.value }
        ensures ready { IsReady self.now seat.new }
        ensures same { IsSameSeat seat.old seat.new }
        ensures answer { PutBackAnswers seat.old taken result seat.new }
    {
        let Some(mut core) = self.win(seat) else {
            return PutBack::Busy(taken);
        };
        core.put_back(taken);
        self.free(seat, core);
        PutBack::Kept
    }

    /// Ends the board, and gives its lists, if one try wins the turn. The seat then keeps it.
    /// Nothing leaves the board where it was, out of reach. Takes no memory.
    pub fn close(self, mut seat: Seat<F>) -> Leftover<F>
        requires ready { IsReady self seat }
        ensures answer { CloseAnswers F.rows F.stands seat result }
    {
        let Some(core) = self.win(&mut seat) else {
            return Leftover::Nothing(seat);
        };
        let Lists { held, claimed, log } = core.into_lists();
        Leftover::Left {
            seat,
            held,
            claimed,
            log,
        }
    }
}

// The seat's offer, entered under its number.
fn offer_by<F: Fused>(
    seat: &Seat<F>,
    core: &mut Core<F::Value>,
    piece: Piece<F::Value>,
) -> CoreOffered<F::Value>
    requires nonempty { piece.lo < piece.hi }
    requires within { piece.hi ≤ core.old.rows }
    ensures answer { Offers core.old seat.now.number piece result core.new }
{
    core.offer(seat.number(), piece)
}

// The seat's claim, entered under its number.
fn claim_by<F: Fused>(seat: &Seat<F>, core: &mut Core<F::Value>) -> CoreClaimed<F::Value>
    ensures answer { Claims core.old seat.now.number result core.new }
    ensures plainly { AnswersPlainly core.old result core.new }
{
    core.claim(seat.number())
}
