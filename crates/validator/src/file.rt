// A whole file, in blocks of any size.
ghost use Rattle.std.specs.Prelude.{◌≡◌, ℕ, ◌+◌, ◌-◌, ◌<◌, ◌≤◌, not, ◌||◌, List, [], length, take, drop, is_ok, MatchResult, nat_le};
ghost use Rattle.framing.specs.Buffer.{Opens};
ghost use Rattle.lifts.specs.Faults.{without_lift};
ghost use Rattle.lifts.specs.declared.fault.Layer.TheVariants.{File};
ghost use Rattle.lifts.specs.declared.fault.Refusal.TheVariants.{TextFull};
ghost use Rattle.rows.specs.Texts.{Extended, WholeRow, row_text, text_to};
ghost use Rattle.validator.specs.Refusals.{line_refusal};
ghost use Rattle.validator.specs.Report.{header_fields, line_faults, rows_of};

use super::line::report_line;
use framing::LineBuffer;
use lifts::{Fault, Layer, Refusal};
use rows::{Cursor, Field, Word, write_row};

// More than the longest row takes.
const ROW_ROOM: usize = 64;

// The number of the line at which reading ends.
const END_LINE: u32 = 1000001;

// The first row of every report.
pub fn write_header(bytes: &mut [u8], cursor: &mut Cursor) -> Result<(), Fault>
    ensures { WholeRow (text_to bytes.old cursor.old.end) header_fields (text_to bytes.new cursor.new.end) result }
{
    write_row(
        bytes,
        cursor,
        &[
            Field::Word(Word::Line),
            Field::Word(Word::Lift),
            Field::Word(Word::State),
        ],
    )
}

// Is there room for another row?
pub fn has_room(bytes: &[u8], cursor: &Cursor) -> bool
    ensures { result ≡ nat_le (cursor.now.end + 64) (length bytes.now) }
{
    bytes
        .len()
        .checked_sub(cursor.len())
        .is_some_and(|room| room >= ROW_ROOM)
}

// How many lines were read, and of those how many some board could take and how many no board could.
#[derive(Clone, Copy, PartialEq, Eq, Debug)]
pub struct Summary {
    pub read: u32,
    pub well_formed: u32,
    pub refused: u32,
}

#[derive(Drop)]
pub struct Validator {
    line: LineBuffer,
    number: u32,
    refused: u32,
    ghost few: { number ≤ 1000001 },
    ghost of_those_read: { refused ≤ number },
}

impl Validator {
    ghost use Rattle.validator.specs.Progress.{Finished, Further, Validated, begun};

    pub fn new() -> Validator
        ensures { Validated [] (row_text header_fields) result }
    {
        Validator {
            line: LineBuffer::new(),
            number: 0,
            refused: 0,
        }
    }

    // Reports the line that has ended, and goes on to the next.
    fn close_line(&mut self, bytes: &mut [u8], cursor: &mut Cursor)
        requires { (self.old.number < 1000001) × (cursor.old.end + 64 ≤ length bytes.old) }
        ensures numbers { self.new.number ≡ self.old.number + 1 }
        ensures counts { self.new.refused ≡ self.old.refused + length (line_faults (self.old.number + 1) (line_refusal (self.old.number + 1) self.old.line.bytes.items)) }
        ensures clears { Opens self.new.line [] }
        ensures text { Extended (text_to bytes.old cursor.old.end) (rows_of (line_faults (self.old.number + 1) (line_refusal (self.old.number + 1) self.old.line.bytes.items))) (text_to bytes.new cursor.new.end) }
    {
        self.number += 1;
        self.refused += report_line(self.number, self.line.get(), bytes, cursor);
        self.line.clear();
    }

    // Takes bytes of the block up to a line's end, reports that line, and answers the place that it came to.
    fn step(&mut self, block: &[u8], at: usize, bytes: &mut [u8], cursor: &mut Cursor) -> usize
        requires { (self.old.number < 1000001) × ((at < length block.now) × (cursor.old.end + 64 ≤ length bytes.old)) }
        ensures place { (at < result) × (result ≤ length block.now) }
        ensures law { (input text : List ℕ) → Validated input text self.old → Further input text (take (result - at) (drop at block.now)) (text_to bytes.old cursor.old.end) (text_to bytes.new cursor.new.end) self.new }
    {
        match self.line.take_line(block, at) {
            Some(next) => {
                self.close_line(bytes, cursor);
                next
            }
            None => block.len(),
        }
    }

    // Takes bytes of the block from a place on and reports their lines, as long as a row has room and reading goes on, and answers the place that it came to.
    pub fn advance(
        &mut self,
        block: &[u8],
        at: usize,
        bytes: &mut [u8],
        cursor: &mut Cursor,
    ) -> usize
        ensures place { (at ≤ result) × (at ≤ length block.now → result ≤ length block.now) }
        ensures moves { at < length block.now → self.old.number < 1000001 → cursor.old.end + 64 ≤ length bytes.old → at < result }
        ensures stops { result < length block.now → self.new.number < 1000001 → length bytes.new < cursor.new.end + 64 }
        ensures law { (input text : List ℕ) → Validated input text self.old → Further input text (take (result - at) (drop at block.now)) (text_to bytes.old cursor.old.end) (text_to bytes.new cursor.new.end) self.new }
    {
        let mut place = at;
        while place < block.len() && self.number < END_LINE && has_room(bytes, cursor) {
            place = self.step(block, place, bytes, cursor);
        }
        place
    }

    // The file has ended: reports its last line if that lacks its CRLF. Where a row may not fit, it is refused and all is as before.
    pub fn finish(&mut self, bytes: &mut [u8], cursor: &mut Cursor) -> Result<(), Fault>
        ensures verdict { is_ok result ≡ (nat_le 1000001 self.old.number || (not (begun self.old.line) || nat_le (cursor.old.end + 64) (length bytes.old))) }
        ensures cases { MatchResult result
            (λ _. (input text : List ℕ) → Validated input text self.old → Finished input text (text_to bytes.old cursor.old.end) (text_to bytes.new cursor.new.end) self.new)
            (λ fault. (fault ≡ without_lift TextFull File) × (length bytes.old < cursor.old.end + 64) × (bytes.new ≡ bytes.old) × (cursor.new.end ≡ cursor.old.end) × (self.new.line ≡ self.old.line) × (self.new.number ≡ self.old.number) × (self.new.refused ≡ self.old.refused)) }
    {
        if self.is_done() {
            return Ok(());
        }
        if !self.line.is_open() {
            return Ok(());
        }
        if !has_room(bytes, cursor) {
            return Err(Fault::without_lift(Refusal::TextFull, Layer::File));
        }
        self.line.end();
        self.close_line(bytes, cursor);
        Ok(())
    }

    // Was the line read at which reading ends?
    pub fn is_done(&self) -> bool
        ensures { result ≡ nat_le 1000001 self.now.number }
    {
        self.number >= END_LINE
    }

    pub fn summary(&self) -> Summary
        ensures { (result.read ≡ self.now.number) × (result.well_formed + result.refused ≡ result.read) × (result.refused ≡ self.now.refused) }
    {
        Summary {
            read: self.number,
            well_formed: self.number - self.refused,
            refused: self.refused,
        }
    }
}
