// Records of tables, and their check.
ghost use Rattle.banks.specs.Tables.{table_cells, table_scope, table_sheet, table_verdict, tables_verdict};
ghost use Rattle.banks.specs.TablesHold.{table_lawful};
ghost use Rattle.std.specs.Prelude.{◌≡◌, ◌+◌, ◌*◌, ◌≤◌, length, refl};

use crate::record::{Record, check_records};
use crate::scope::{MAX_ARITY, MIN_ARITY, all_distinct, all_in_range, scope_of};
use crate::table_search::Search;
use crate::tuples::ascend;
use network::refusal::Refusal;

const MAX_TUPLES: usize = 4096;

// Whether a table lists what its sheet allows or what it denies.
#[derive(Clone, Copy)]
pub enum Kind {
    Allow,
    Deny,
}

// A sheet that lists tuples. They stand in the cells from `first` on, one after the other. A record is a format of memory: an arity
// beside six block numbers, and the place of its first cell as a number.
#[derive(Clone, Copy)]
pub struct TableRecord {
    pub kind: Kind,
    pub arity: u8,
    pub blocks: [u8; 6],
    pub first: usize,
    pub tuples: usize,
}

impl TableRecord {
    // The cells of its tuples.
    fn part<'a>(&self, cells: &'a [u8]) -> &'a [u8]
        requires { self.now.first + self.now.tuples * self.now.arity ≤ length cells.now }
        ensures { result.now ≡ table_cells cells.now self.now }
    {
        &cells[self.first..self.first + self.tuples * self.arity as usize]
    }
}

impl Record for TableRecord {
    ghost scope = { table_scope };

    ghost sheet = { table_sheet };

    ghost verdict = { table_verdict };

    ghost same_scope = { λ _ _. refl };

    ghost lawful = { table_lawful };

    #[tactic(auto, using(crate::proofs::Tupled::part_cut))]
    fn check(&self, cells: &[u8]) -> Result<(), Refusal> {
        if self.arity < MIN_ARITY || self.arity > MAX_ARITY || self.tuples > MAX_TUPLES {
            return Err(Refusal::LimitExceeded);
        }
        let arity = self.arity as usize;
        let size = self.tuples * arity;
        if self.first > cells.len() || size > cells.len() - self.first {
            return Err(Refusal::PlaceTooShort);
        }
        let scope = self.scope();
        let table = self.part(cells);
        if !all_in_range(scope) || !all_in_range(table) {
            return Err(Refusal::OutOfRange);
        }
        if !all_distinct(scope) || !ascend(table, arity) {
            return Err(Refusal::Repeated);
        }
        Ok(())
    }

    fn scope(&self) -> &[u8] {
        scope_of(self.arity, &self.blocks)
    }

    fn allows_some(&self, cells: &[u8], masks: &[u32], _p: usize) -> bool {
        let search = Search {
            cells: self.part(cells),
            masks,
        };
        search.some_allowed(self.kind)
    }
}

// What is wrong with the first faulty record, if one is.
pub fn check_tables(records: &[TableRecord], cells: &[u8]) -> Result<(), Refusal>
    ensures { result ≡ tables_verdict cells.now records.now }
{
    check_records(records, cells)
}
