// Reading the sets of a table: each row becomes a mask, stored as one word, or as two where the
// alphabet has more than 64 events; each set becomes a word with its first row and its kind.
ghost use Rattle.std.specs.Prelude.{◌≡◌, not, ◌+◌, ◌*◌, ◌<◌, ◌≤◌, ◌^◌, length};
ghost use Rattle.table.specs.Rows.{alphabet_most, large_above, row_count, RowsFit, rows_fit};
ghost use Rattle.table_index.specs.Layout.{rows_most};
ghost use Rattle.table_index.specs.Index.{first_word, second_word};
ghost use Rattle.table_index.specs.Parse.{row_stored, RowRead, RowsRead, SetRead, SetsRead};

use table::{Refusal, Row, SetEnd, bounds, number_at};
use table_index::layout;

// What an event adds to the first word of its row.
fn low_bit(e: u16) -> u64
    ensures { result ≡ first_word (2 ^ e) }
{
    if bounds::LARGE_ABOVE <= e {
        return 0;
    }
    1u64 << e
}

// What an event adds to the second word of its row.
fn high_bit(e: u16) -> u64
    requires { e < alphabet_most }
    ensures { result ≡ second_word (2 ^ e) }
{
    if e < bounds::LARGE_ABOVE {
        0
    } else {
        1u64 << (e - bounds::LARGE_ABOVE)
    }
}

// The row at a place: a count, then that many events, strictly ascending.
pub fn read_row(list: &[u16], alphabet: u16, at: usize) -> Result<Row, Refusal>
    requires { (alphabet ≤ alphabet_most) × (at ≤ length list.now) }
    ensures { RowRead list.now alphabet at result }
{
    let count = number_at(list, at)?;
    if alphabet < count {
        return Err(Refusal {
            number: 5,
            place: at,
        });
    }
    let mut low = 0;
    let mut high = 0;
    let mut least = 0;
    let mut p = at + 1;
    for j in 0..count {
        let e = number_at(list, p)?;
        if e < least {
            return Err(Refusal {
                number: 5,
                place: p,
            });
        }
        if alphabet <= e {
            return Err(Refusal {
                number: 5,
                place: p,
            });
        }
        low += low_bit(e);
        high += high_bit(e);
        least = e + 1;
        p += 1;
    }
    Ok(Row { low, high, next: p })
}

// Stores the words of a row.
fn store_row(work: &mut [u64], alphabet: u16, row: usize, low: u64, high: u64)
    requires { (row < rows_most) × (length work.old ≡ 8192) }
    ensures { work.new ≡ row_stored alphabet row low high work.old }
{
    work[row] = low;
    if bounds::LARGE_ABOVE < alphabet {
        work[layout::SECOND_AT + row] = high;
    }
}

// Stores the words of so many rows from row `row` on.
fn read_rows(
    list: &[u16],
    work: &mut [u64],
    alphabet: u16,
    count: usize,
    at: usize,
    row: usize,
) -> Result<usize, Refusal>
    requires alphabet_le_alphabet_most { (alphabet ≤ alphabet_most) × (at ≤ length list.now) }
    requires count_bound { (row + count ≤ rows_most) × (length work.old ≡ 8192) }
    requires rows_fit { RowsFit alphabet (row + count) }
    ensures { RowsRead list.now alphabet count at row work.old work.new
        result }
{
    let mut p = at;
    for j in 0..count {
        let read = read_row(list, alphabet, p)?;
        store_row(work, alphabet, row + j, read.low, read.high);
        p = read.next;
    }
    Ok(p)
}

// How many rows a set has: one, or one for each event.
fn rows_of(kind: u16, alphabet: u16) -> usize
    ensures { result ≡ row_count kind alphabet }
{
    if kind == 0 { 1 } else { alphabet as usize }
}

// Whether there are too many rows, all together.
fn rows_over(alphabet: u16, rows: usize) -> bool
    ensures { result ≡ not (rows_fit alphabet rows) }
{
    if alphabet <= bounds::LARGE_ABOVE {
        return false;
    }
    bounds::LARGE_ROWS_MOST < rows
}

// The set at a place, its rows stored from row `row` on.
fn read_set(
    list: &[u16],
    work: &mut [u64],
    alphabet: u16,
    at: usize,
    row: usize,
) -> Result<SetEnd, Refusal>
    requires le_alphabet { (1 ≤ alphabet) × (alphabet ≤ alphabet_most) × (at ≤ length list.now) }
    requires row_le_rows_most { (row ≤ rows_most) × (length work.old ≡ 8192) }
    requires large_above_bound { alphabet ≤ large_above → row + large_above ≤ rows_most }
    ensures { SetRead list.now alphabet at row work.old work.new result }
{
    let kind = number_at(list, at)?;
    if 1 < kind {
        return Err(Refusal {
            number: 5,
            place: at,
        });
    }
    let count = rows_of(kind, alphabet);
    if rows_over(alphabet, row + count) {
        return Err(Refusal {
            number: 5,
            place: at,
        });
    }
    let next = read_rows(list, work, alphabet, count, at + 1, row)?;
    Ok(SetEnd {
        next,
        kind: u64::from(kind),
        row: row + count,
    })
}

// So many sets: their rows from row 0 on, and their words.
pub fn read_sets(
    list: &[u16],
    work: &mut [u64],
    alphabet: u16,
    count: usize,
    at: usize,
) -> Result<usize, Refusal>
    requires le_alphabet { (1 ≤ alphabet) × (alphabet ≤ alphabet_most) × (at ≤ length list.now) }
    requires count_bound { (count ≤ 64) × (length work.old ≡ 8192) }
    ensures { SetsRead list.now alphabet count at work.old work.new result }
{
    let mut p = at;
    let mut row = 0;
    for s in 0..count {
        let set = read_set(list, work, alphabet, p, row)?;
        work[layout::SETS_AT + s] = row as u64 * 2 + set.kind;
        p = set.next;
        row = set.row;
    }
    Ok(p)
}
