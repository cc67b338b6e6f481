// The bank of sheets that a list of records stands for.
ghost use Rattle.banks.specs.Accepted.{records_lawful};
ghost use Rattle.banks.specs.Verdicts.{accepts, on_records};
ghost use Rattle.network.specs.Sheets.{sheet_at};
ghost use Rattle.std.specs.Prelude.{◌≡◌, true, cond, [], map};

use crate::record::Record;
use crate::scope::NO_BLOCK;
use network::bank::Bank;
use network::mask::{SLOTS, single};
use network::refusal::Refusal;

#[derive(Drop)]
pub struct RecordBank<'a, R: Record> {
    records: &'a [R],
    cells: &'a [u8],
    ghost ok: { accepts (on_records (R.verdict cells.now) records.now) ≡ true },
}

impl<'a, R: Record> RecordBank<'a, R> {
    // A bank with a sheet for each record, or with none where their check refuses them.
    pub(crate) fn checked(records: &'a [R], cells: &'a [u8], check: Result<(), Refusal>) -> Self
        requires { check ≡ on_records (R.verdict cells.now) records.now }
        ensures { map (R.sheet result.cells.now) result.records.now ≡ cond (accepts (on_records (R.verdict cells.now) records.now)) (map (R.sheet cells.now) records.now) [] }
    {
        match check {
            Ok(()) => RecordBank { records, cells },
            Err(_) => RecordBank {
                records: &[],
                cells: &[],
            },
        }
    }

    // The blocks of sheet `c`, or none for a sheet that isn't there.
    fn scope_at(&self, c: usize) -> &[u8]
        ensures { result.now ≡ (sheet_at (map (R.sheet self.now.cells.now) self.now.records.now) c).scope }
    {
        match self.records.get(c) {
            Some(line) => line.scope(),
            None => &[],
        }
    }
}

impl<'a, R: Record> Bank for RecordBank<'a, R> {
    ghost meaning = { λ b. map (R.sheet b.cells.now) b.records.now };

    ghost lawful = { λ b. records_lawful (R.verdict b.cells.now) (R.sheet b.cells.now) (R.lawful b.cells.now) b.records.now b.ok };

    fn count(&self) -> usize {
        self.records.len()
    }

    fn arity(&self, c: usize) -> usize {
        self.scope_at(c).len()
    }

    fn block(&self, c: usize, p: usize) -> u8 {
        self.scope_at(c).get(p).copied().unwrap_or(NO_BLOCK)
    }

    fn supports(&self, c: usize, masks: &[u32; 6], p: usize, s: u8) -> bool {
        let Some(line) = self.records.get(c) else {
            return false;
        };
        let arity = line.scope().len();
        if p >= arity || s >= SLOTS {
            return false;
        }
        let mut tried = *masks;
        tried[p] = single(s);
        line.allows_some(self.cells, &tried[0..arity], p)
    }
}
