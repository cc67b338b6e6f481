// How a session walks on from its last node, and shows a plan.
ghost use Rattle.std.specs.Prelude.{◌≡◌, ◌<◌, ◌≤◌, length, take, drop};
ghost use Rattle.listing.specs.Represents.{Continued};

use crate::listing::Listing;
use crate::outcome::Outcome;
use crate::walk::{ROWS, Walk};
use network::bank::Bank;
use network::filter::Filter;
use network::row::BLOCKS;

impl Listing {
    // Walks on from the last node. It stays the last one where none is visited.
    pub(crate) fn go_on<B: Bank, F: Filter>(
        &mut self,
        bank: &B,
        filter: &mut F,
        budget: u32,
    ) -> (Outcome, u32)
        ensures walk { Continued self.old self.new (B.Bank.meaning bank.now) (F.Filter.filtered filter.old) budget result.0 result.1 }
        ensures meaning { F.Filter.filtered filter.new ≡ F.Filter.filtered filter.old }
    {
        let mut walk = Walk {
            rows: [self.root(); ROWS],
            path: [0; BLOCKS],
            depth: 0,
            from: 0,
        };
        walk.go_past(&self.path[..self.depth], bank, filter);
        let (outcome, visits) = walk.visit_nodes(bank, filter, budget);
        if visits > 0 {
            self.path = walk.path;
            self.depth = walk.depth;
        }
        (outcome, visits)
    }

    // Writes the path of a whole plan into the front of `place`.
    pub(crate) fn write_plan(&self, place: &mut [u8])
        requires { self.now.blocks ≤ length place.old }
        ensures front { take self.now.blocks place.new ≡ take self.now.blocks self.now.path }
        ensures back { drop self.now.blocks place.new ≡ drop self.now.blocks place.old }
    {
        let blocks = self.blocks;
        place[..blocks].copy_from_slice(&self.path[..blocks]);
    }
}
