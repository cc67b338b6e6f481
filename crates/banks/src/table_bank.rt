// The bank of sheets that records of tables stand for.
ghost use Rattle.banks.specs.Tables.{table_sheet, tables_meaning};
ghost use Rattle.std.specs.Prelude.{◌≡◌, map};

use crate::record_bank::RecordBank;
use crate::table::{TableRecord, check_tables};

pub type TableBank<'a> = RecordBank<'a, TableRecord>;

impl<'a> TableBank<'a> {
    // A bank with a sheet for each record, or with none where the check refuses them.
    pub fn new(records: &'a [TableRecord], cells: &'a [u8]) -> Self
        ensures { map (table_sheet result.cells.now) result.records.now ≡ tables_meaning cells.now records.now }
    {
        RecordBank::checked(records, cells, check_tables(records, cells))
    }
}
