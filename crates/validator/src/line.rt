// One line: its fault, and the fault's row.
ghost use Rattle.std.specs.Prelude.{◌≡◌, ◌+◌, ◌≤◌, length};
ghost use Rattle.lifts.specs.Faults.{unless_refused};
ghost use Rattle.lines.specs.Meaning.{line_meaning};
ghost use Rattle.rows.specs.Fields.{field_text};
ghost use Rattle.rows.specs.Texts.{Extended, WholeRow, row_text, text_to};
ghost use Rattle.validator.specs.Refusals.{change_refusal, fault_fields, lift_field, line_refusal, meaning_refusal};
ghost use Rattle.validator.specs.Report.{line_faults, rows_of};

use lifts::{Fault, Layer, Lift, LiftNumber, LiftPair};
use lines::{Change, Line, check_line_number, read_line};
use rows::{Cursor, Field, write_row};

fn check_change(change: Change) -> Result<(), Fault>
    ensures { result ≡ unless_refused (change_refusal change) tt }
{
    match change {
        Change::Enter(enter) => {
            Lift::new(enter.number, enter.due, enter.class)?;
        }
        Change::Clear(clear) => {
            LiftNumber::new(clear.lift, Layer::Board)?;
        }
        Change::Clash(clash) => {
            LiftPair::new(clash.first, clash.second, Layer::Board)?;
        }
        Change::Lapse(lapse) => {
            LiftPair::new(lapse.first, lapse.second, Layer::Board)?;
        }
    }
    Ok(())
}

#[tactic(auto, using(crate::proofs::Verdicts::verdict))]
fn check_meaning(number: u32, line: &[u8]) -> Result<(), Fault>
    ensures { result ≡ unless_refused (meaning_refusal (line_meaning number line.now)) tt }
{
    match read_line(number, line)? {
        Line::Header => Ok(()),
        Line::Change(change) => check_change(change),
    }
}

// The fault that every board has with this line, if any.
pub fn check_line(number: u32, line: &[u8]) -> Result<(), Fault>
    ensures { result ≡ unless_refused (line_refusal number line.now) tt }
{
    check_line_number(number)?;
    check_meaning(number, line)
}

#[tactic(auto, using(crate::proofs::Rows::number_short))]
fn lift_field(lift: Option<u32>) -> Field
    ensures value { result ≡ lift_field lift }
    ensures short { length (field_text result) ≤ 10 }
{
    lift.map_or(Field::Empty, Field::Number)
}

// Writes the row of a fault, whole or not at all.
#[tactic(auto, using(crate::proofs::Rows::fault_row_short))]
pub(crate) fn write_fault(
    bytes: &mut [u8],
    cursor: &mut Cursor,
    number: u32,
    fault: Fault,
) -> Result<(), Fault>
    ensures row { WholeRow (text_to bytes.old cursor.old.end) (fault_fields number fault) (text_to bytes.new cursor.new.end) result }
    ensures short { length (row_text (fault_fields number fault)) ≤ 64 }
{
    write_row(
        bytes,
        cursor,
        &[
            Field::Number(number),
            lift_field(fault.lift),
            Field::Refused(fault.refusal),
        ],
    )
}

// Writes the row of a line that no board takes, and answers how many rows that were.
pub(crate) fn report_line(number: u32, line: &[u8], bytes: &mut [u8], cursor: &mut Cursor) -> u32
    requires { cursor.old.end + 64 ≤ length bytes.old }
    ensures count { (result ≡ length (line_faults number (line_refusal number line.now))) × (result ≤ 1) }
    ensures text { Extended (text_to bytes.old cursor.old.end) (rows_of (line_faults number (line_refusal number line.now))) (text_to bytes.new cursor.new.end) }
{
    match check_line(number, line) {
        Ok(()) => 0,
        Err(fault) => {
            let _ = write_fault(bytes, cursor, number, fault);
            1
        }
    }
}
