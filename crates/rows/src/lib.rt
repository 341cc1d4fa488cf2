// The unsynced list in a lent row of eight flight entries: what log_sync answers by value is written to the caller's own row, and the
// entries beyond the count stay. A row that isn't eight long and a count above eight are refused 17, and then the row stays whole.
// A caller that holds its row by value calls `filled_row`.
#![tactic(auto, using(crate::proofs::Entries::ways))]

ghost use Rattle.std.specs.Prelude.{◌≡◌, length};
ghost use Rattle.laws.specs.Answers.{told};
ghost use Rattle.rows.specs.Row.{fits, row_answer, after_fill};

use laws::Refusal;
use log_search::StoredFlight;
use log_sync::Unsynced;

// A row held by value, and what filling it answered.
#[derive(Clone, Copy, Debug, PartialEq, Eq)]
pub struct FilledRow {
    pub answer: Result<(), Refusal>,
    pub row: [StoredFlight; 8],
}

// Whether a row and a list of these lengths are taken.
#[tactic(auto, unfolding(crate::specs::Row::fits))]
fn fits(row_len: usize, count: usize) -> bool
    ensures { result ≡ fits row_len count }
{
    row_len == 8 && count <= 8
}

// Writes a list into a lent row of eight entries.
pub fn fill_row(row: &mut [StoredFlight], list: Unsynced) -> Result<(), Refusal>
    ensures value { told result ≡ row_answer (length row.old) list.count }
    ensures lent { row.new ≡ after_fill list row.old }
{
    if !fits(row.len(), list.count) {
        return Err(Refusal::BadLength);
    }
    row[..list.count].copy_from_slice(&list.flights[..list.count]);
    Ok(())
}

// `fill_row` for a caller that holds its row by value: the row is lent, and handed back.
pub fn filled_row(mut row: [StoredFlight; 8], list: Unsynced) -> FilledRow
    ensures answer { told result.answer ≡ row_answer 8 list.count }
    ensures row { result.row ≡ after_fill list row }
{
    let answer = fill_row(&mut row, list);
    FilledRow { answer, row }
}
