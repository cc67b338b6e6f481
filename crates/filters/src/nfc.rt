// The six filters, from the weakest to the strongest.
ghost use Rattle.std.specs.Prelude.{◌≡◌};
ghost use Rattle.filters.specs.NfcLaws.{filter_law};
ghost use Rattle.filters.specs.Nfcs.{LeavesLargest, Numbers, filter_of, number_of};
ghost use Rattle.network.specs.Example.{ExampleNodes, ExampleRows};
ghost use Rattle.network.specs.Nesting.{Nested};
ghost use Rattle.network.specs.RowModel.{model};

use crate::passes::{pass, stabilize};
use crate::reading::Reading;
use crate::sheet_set::SheetSet;
use network::bank::Bank;
use network::filter::Filter;
use network::refusal::Refusal;
use network::row::Row;

#[derive(Clone, Copy, PartialEq, Eq, Debug)]
pub enum Nfc {
    // one pass over the sheets naming the current block and one undecided block
    Nfc0,
    // one pass over those naming the current block and an undecided one, each undecided block by the others' open masks
    Nfc1,
    // one pass over the same sheets, by the present masks
    Nfc2,
    // the same until nothing changes
    Nfc3,
    // one pass over the sheets naming a decided and an undecided block
    Nfc4,
    // the same until nothing changes
    Nfc5,
}

impl Nfc {
    // All six, each at its number.
    pub const ALL: [Nfc; 6] = [
        Nfc::Nfc0,
        Nfc::Nfc1,
        Nfc::Nfc2,
        Nfc::Nfc3,
        Nfc::Nfc4,
        Nfc::Nfc5,
    ];
}

impl TryFrom<u8> for Nfc {
    type Error = Refusal;

    ghost try_from_gives = { Numbers };

    // The filter of a number from 0 to 5. The other clauses hold of all six: how their nodes lie within one another, and what they leave of the example network.
    #[tactic(auto, using(network::proofs::Nested::nested, network::proofs::ExampleHolds::example_rows, network::proofs::ExampleHolds::example_nodes))]
    fn try_from(number: u8) -> Result<Nfc, Refusal>
        ensures numbered { Numbers number result }
        ensures nested { Nested }
        ensures rows { ExampleRows }
        ensures nodes { ExampleNodes }
    {
        match number {
            0 => Ok(Nfc::Nfc0),
            1 => Ok(Nfc::Nfc1),
            2 => Ok(Nfc::Nfc2),
            3 => Ok(Nfc::Nfc3),
            4 => Ok(Nfc::Nfc4),
            5 => Ok(Nfc::Nfc5),
            _ => Err(Refusal::LimitExceeded),
        }
    }
}

impl From<Nfc> for u8 {
    ghost from_gives = { λ filter number. number ≡ number_of filter };

    fn from(filter: Nfc) -> u8 {
        filter as u8
    }
}

impl Filter for Nfc {
    ghost filtered = { filter_of };

    ghost lawful = { filter_law };

    // A row with no block decided, and a dead row, stay as they are. The set and the reading are values that definitions speak of;
    // as closures they would be two type parameters with clauses of their own.
    fn apply<B: Bank>(&mut self, bank: &B, row: &mut Row)
        ensures row { model row.new ≡ filter_of self.old (B.Bank.meaning bank.now) (model row.old) }
        ensures meaning { filter_of self.new ≡ filter_of self.old }
        ensures largest { LeavesLargest self.old (B.Bank.meaning bank.now) (model row.old) (model row.new) }
    {
        if row.decided() == 0 || row.is_dead() {
            return;
        }
        match *self {
            Nfc::Nfc0 => {
                pass(SheetSet::CurrentOne, Reading::Present, bank, row);
            }
            Nfc::Nfc1 => {
                pass(SheetSet::CurrentFuture, Reading::Open, bank, row);
            }
            Nfc::Nfc2 => {
                pass(SheetSet::CurrentFuture, Reading::Present, bank, row);
            }
            Nfc::Nfc3 => stabilize(SheetSet::CurrentFuture, bank, row),
            Nfc::Nfc4 => {
                pass(SheetSet::PastFuture, Reading::Present, bank, row);
            }
            Nfc::Nfc5 => stabilize(SheetSet::PastFuture, bank, row),
        }
    }
}
