ghost use Rattle.board.specs.Guarantee.{Assured, AssuredBy, ServesBy};
ghost use Rattle.board.specs.Runs.{New};
ghost use Rattle.rating.specs.Bounds.{is_accepted};
ghost use Rattle.rating.specs.Closing.{Accepts, BoundsRead, LateBy};
ghost use Rattle.rating.specs.Ratings.{bounds_at, draft_in, verdict_in};
ghost use Rattle.rows.specs.Drafts.{rows_of};
ghost use Rattle.std.specs.Prelude.{◌≡◌, true, Decides};

use super::{Run, Slot};
use feeds::feed::Feed;
use feeds::pledge::Pledge;
use rating::order::Order;
use rating::rating::{Rating, close};
use rows::draft::Draft;

impl<A, B, P: Feed> Run<A, B, P> {
    // Begins a run: all places empty, step number 0. It uses up the rating and the pile and never refuses. If the rating is
    // accepted and the pile fits it, whatever the run reaches keeps the guarantee.
    pub fn begin(rating: Rating<A, B>, pile: P) -> Run<A, B, P>
        ensures new { (New result) × ((result.rating ≡ rating) × (result.pile ≡ pile)) }
        ensures assured { Assured P.Pledge.view result }
    {
        Run {
            rating,
            pile,
            number: 0,
            places: [Slot::Empty; 32],
        }
    }
}

impl<A: Order, B: Order, P: Feed> Run<A, B, P> {
    // Closes a draft under an order for each resource, and begins a run of it over a pile. What is promised from there on is
    // said by the draft's rows and the two orders' own relations, for every draft, any two orders and any feed.
    pub fn close_and_begin(
        draft: Draft,
        memory_order: A,
        processor_order: B,
        pile: P,
    ) -> Run<A, B, P>
        ensures new { (New result) × ((draft_in result.rating ≡ draft) × ((result.rating.memory_order ≡ memory_order) × ((result.rating.processor_order ≡ processor_order) × (result.pile ≡ pile)))) }
        ensures exact { Decides (is_accepted (verdict_in result.rating)) (Accepts (rows_of draft) (A.Order.sequence memory_order).before (B.Order.sequence processor_order).before) }
        ensures bounds { is_accepted (verdict_in result.rating) ≡ true → BoundsRead (rows_of draft) (A.Order.sequence memory_order).before (B.Order.sequence processor_order).before (bounds_at result.rating) }
        ensures late { LateBy (rows_of draft) (A.Order.sequence memory_order).before (B.Order.sequence processor_order).before (verdict_in result.rating) }
        ensures serves { ServesBy P.Pledge.view (rows_of draft) (A.Order.sequence memory_order).before (B.Order.sequence processor_order).before result }
        ensures assured { AssuredBy P.Pledge.view (rows_of draft) (A.Order.sequence memory_order).before (B.Order.sequence processor_order).before result }
    {
        Run::begin(close(draft, memory_order, processor_order), pile)
    }
}

impl<A, B, P: Drop> Run<A, B, P> {
    // Ends a run and gives its rating back; the pile is let go.
    pub fn end(self) -> Rating<A, B>
        ensures { result ≡ self.rating }
    {
        let Run {
            rating,
            pile: _,
            number: _,
            places: _,
        } = self;
        rating
    }
}
