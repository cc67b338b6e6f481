// The call of a session that visits nodes.
ghost use Rattle.listing.specs.Model.{next_call};
ghost use Rattle.listing.specs.Represents.{PlaceAfter, Runs, Takes, WalksAlong, blocks_of, node_of, walked_of};
ghost use Rattle.network.specs.Sheets.{Sheet};
ghost use Rattle.std.specs.Prelude.{◌≡◌, not, ◌||◌, List, length, OnErr, ◌==◌, nat_lt};

use crate::fits::has_misfit;
use crate::outcome::Outcome;
use crate::session::Session;
use network::bank::Bank;
use network::filter::Filter;
use network::refusal::Refusal;

const MAX_BUDGET: u32 = 1_000_000;

// Whether a call may be given that budget.
fn is_budget(budget: u32) -> bool
    ensures { result ≡ not (budget == 0 || nat_lt 1000000 budget) }
{
    (1..=MAX_BUDGET).contains(&budget)
}

impl Session {
    // Visits the nodes of the filter's tree that come after the last one visited: up to the first that shows a plan, and no more than
    // `budget` of them. A plan fills the front of `place`. Answers the outcome and the number of visits, a pair, as is the
    // rule here.
    pub fn next<B: Bank, F: Filter>(
        &mut self,
        bank: &B,
        filter: &mut F,
        budget: u32,
        place: &mut [u8],
    ) -> Result<(Outcome, u32), Refusal>
        ensures step { Takes self.old self.new (next_call (B.Bank.meaning bank.now) (F.Filter.filtered filter.old) budget (length place.old)) (walked_of (blocks_of self.old) place.new result) }
        ensures runs { (m : List Sheet) → Runs m self.old self.new (next_call (B.Bank.meaning bank.now) (F.Filter.filtered filter.old) budget (length place.old)) (walked_of (blocks_of self.old) place.new result) }
        ensures walks { WalksAlong self.old self.new (B.Bank.meaning bank.now) (F.Filter.filtered filter.old) budget (walked_of (blocks_of self.old) place.new result) }
        ensures meaning { F.Filter.filtered filter.new ≡ F.Filter.filtered filter.old }
        ensures refused { OnErr result ((self.new ≡ self.old) × (place.new ≡ place.old)) }
        ensures place { PlaceAfter (blocks_of self.old) (node_of self.new) place.old place.new result }
    {
        let Some(listing) = &mut self.listing else {
            return Err(Refusal::NotOpened);
        };
        if !is_budget(budget) {
            return Err(Refusal::BadBudget);
        }
        if place.len() < listing.blocks {
            return Err(Refusal::PlaceTooShort);
        }
        if has_misfit(bank, listing.blocks) {
            return Err(Refusal::OutOfRange);
        }
        let (outcome, visits) = listing.go_on(bank, filter, budget);
        if let Outcome::Plan = outcome {
            listing.write_plan(place);
        }
        Ok((outcome, visits))
    }
}
