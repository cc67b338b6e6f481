// The nodes that a call visits.
ghost use Rattle.std.specs.Prelude.{◌≡◌};
ghost use Rattle.listing.specs.ToCome.{models, width};
ghost use Rattle.listing.specs.Walked.{Walked, coming};

use crate::outcome::Outcome;
use crate::walk::Walk;
use network::bank::Bank;
use network::filter::Filter;

impl Walk {
    // Visits nodes up to the first that shows a plan, and no more than the budget. Answers how many it visited.
    pub(crate) fn visit_nodes<B: Bank, F: Filter>(
        &mut self,
        bank: &B,
        filter: &mut F,
        budget: u32,
    ) -> (Outcome, u32)
        ensures walked { Walked (width (models self.old.rows)) (coming (F.Filter.filtered filter.old (B.Bank.meaning bank.now)) self.old) budget self.new result.0 result.1 }
        ensures meaning { F.Filter.filtered filter.new ≡ F.Filter.filtered filter.old }
    {
        let mut visits = 0;
        while let Some(child) = self.next_child() {
            if visits == budget {
                return (Outcome::Spent, visits);
            }
            let shows = self.visit(bank, filter, child);
            visits += 1;
            if shows {
                return (Outcome::Plan, visits);
            }
        }
        (Outcome::Done, visits)
    }
}
