// What an open row keeps its caller from: a second row, and the text's length. This code is accepted as it
// stands; each edit in borrow-errors/ is refused by the borrow checker.
#![tactic(auto)]

ghost use Rattle.std.specs.Prelude.{◌≡◌, IfOk};
ghost use Rattle.row_borrows.specs.TwoRows.{TwoRows};
ghost use Rattle.rows.specs.Texts.{text_to};

use lifts::Fault;
use rows::{Cursor, Field};

// Two rows of one field each; a row is closed where its block ends.
fn write_two_rows(
    bytes: &mut [u8],
    cursor: &mut Cursor,
    one: Field,
    other: Field,
) -> Result<(), Fault>
    ensures { TwoRows (text_to bytes.old cursor.old.end) one other (text_to bytes.new cursor.new.end) result }
{
    {
        let mut first = cursor.begin_row(bytes);
        first.put(one)?;
        first.finish()?;
    }
    {
        let mut second = cursor.begin_row(bytes);
        second.put(other)?;
        second.finish()?;
    }
    Ok(())
}

// Writes two rows of one field each, and returns the length of the text with them.
pub fn two_rows(
    bytes: &mut [u8],
    cursor: &mut Cursor,
    one: Field,
    other: Field,
) -> Result<usize, Fault>
    ensures length { IfOk result (λ n. n ≡ cursor.new.end) }
    ensures rows { TwoRows (text_to bytes.old cursor.old.end) one other (text_to bytes.new cursor.new.end) result }
{
    write_two_rows(bytes, cursor, one, other)?;
    Ok(cursor.len())
}
