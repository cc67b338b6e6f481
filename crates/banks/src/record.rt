// Records of sheets: what tables and rules have in common, and the check of a list of them.
ghost use Rattle.banks.specs.Rules.{Alone};
ghost use Rattle.banks.specs.Verdicts.{Verdict, accepts, on_records};
ghost use Rattle.network.specs.Laws.{LawfulSheet};
ghost use Rattle.network.specs.Sheets.{Sheet, choices, some_pass};
ghost use Rattle.std.specs.Prelude.{◌≡◌, ℕ, ◌≤◌, true, List, length};

use crate::scope::MAX_SHEETS;
use network::refusal::Refusal;

// A record stands over cells, which it may refer to. Its module is private, so that other crates see only the banks and the checks.
pub trait Record {
    // The blocks that its sheet ties, whatever the cells are.
    ghost scope: { Self → List ℕ };

    // The sheet that it stands for.
    ghost sheet: { List ℕ → Self → Sheet };

    // What its check answers.
    ghost verdict: { List ℕ → Self → Verdict };

    ghost same_scope: { (cells : List ℕ) (r : Self) → (sheet cells r).scope ≡ scope r };

    ghost lawful: { (cells : List ℕ) (r : Self) → accepts (verdict cells r) ≡ true → LawfulSheet (sheet cells r) };

    // What is wrong with the record, if something is.
    fn check(&self, cells: &[u8]) -> Result<(), Refusal>
        ensures { result ≡ verdict cells.now self.now };

    // The blocks that the sheet ties.
    fn scope(&self) -> &[u8]
        requires { length (scope self.now) ≤ 6 }
        ensures value { result.now ≡ scope self.now }
        ensures few { length result.now ≤ 6 };

    // Whether the sheet allows a choice of one slot from each mask, where position `p` has one slot alone.
    fn allows_some(&self, cells: &[u8], masks: &[u32], p: usize) -> bool
        requires accepted { accepts (verdict cells.now self.now) ≡ true }
        requires sized { length masks.now ≡ length (scope self.now) }
        requires alone { Alone masks.now p }
        ensures { result ≡ some_pass (sheet cells.now self.now).allows (choices masks.now) };
}

// What is wrong with the first faulty record, if one is.
pub(crate) fn check_records<R: Record>(records: &[R], cells: &[u8]) -> Result<(), Refusal>
    ensures { result ≡ on_records (R.verdict cells.now) records.now }
{
    if records.len() > MAX_SHEETS {
        return Err(Refusal::LimitExceeded);
    }
    for line in records {
        line.check(cells)?;
    }
    Ok(())
}
