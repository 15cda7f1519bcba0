// Where a text ends, and the open row that extends it.
ghost use Rattle.std.specs.Prelude.{◌≡◌, ◌+◌, ◌<◌, ◌≤◌, ◌++◌, true, false, take, length, decimal, MatchResult};
ghost use Rattle.lifts.specs.Faults.{without_lift};
ghost use Rattle.lifts.specs.declared.fault.Layer.TheVariants.{File};
ghost use Rattle.lifts.specs.declared.fault.Refusal.TheVariants.{TextFull};
ghost use Rattle.rows.specs.Fields.{field_text, number_text};
ghost use Rattle.rows.specs.Rows.{SameLoans, text_of};
ghost use Rattle.rows.specs.Texts.{Appended, Extended, Full, WholeRow, line_end, row_piece, text_to};

use super::field::{Field, Piece, piece_of};
use itoa::write_digits;
use lifts::{Fault, Layer, Refusal};

// Where a text ends in its bytes, which the caller keeps. Over a struct of both a caller would learn nothing of the text
// after an open row.
#[derive(Drop, Debug)]
pub struct Cursor {
    end: usize,
}

impl Cursor {
    pub fn new() -> Cursor
        ensures { result.end ≡ 0 }
    {
        Cursor { end: 0 }
    }

    pub fn len(&self) -> usize
        ensures { result ≡ self.now.end }
    {
        self.end
    }

    // The text so far, in the bytes that hold it.
    pub fn text<'t>(&self, bytes: &'t [u8]) -> &'t [u8]
        ensures { result.now ≡ take self.now.end bytes.now }
    {
        bytes.get(..self.end).unwrap_or(bytes)
    }

    pub fn clear(&mut self)
        ensures { self.new.end ≡ 0 }
    {
        *self = Cursor::new();
    }

    pub fn begin_row<'t>(&'t mut self, bytes: &'t mut [u8]) -> Row<'t>
        ensures bytes { (result.bytes.now ≡ bytes.old) × (result.bytes.ghost_name ≡ bytes.entry.ghost_name) }
        ensures cursor { (result.cursor.now ≡ self.old) × (result.cursor.ghost_name ≡ self.entry.ghost_name) }
        ensures row { (result.start ≡ self.old.end) × (result.first ≡ true) }
    {
        let start = self.len();
        Row {
            bytes,
            cursor: self,
            start,
            first: true,
        }
    }
}

// An open row. `start` is where it began; `first` says that it has no field yet, which the two ends do not tell where a
// field is empty. Its drop takes an unfinished row out of the text again.
pub struct Row<'t> {
    bytes: &'t mut [u8],
    cursor: &'t mut Cursor,
    start: usize,
    first: bool,
}

// Refuses `len` bytes at `end` where fewer are left of `all`.
fn check_room(all: usize, end: usize, len: usize) -> Result<(), Fault>
    ensures { MatchResult result
        (λ _. end + len ≤ all)
        (λ fault. (all < end + len) × (fault ≡ without_lift TextFull File)) }
{
    if end > all || len > all - end {
        return Err(Fault::without_lift(Refusal::TextFull, Layer::File));
    }
    Ok(())
}

// Writes `piece` at `end`, where there is room for it, and returns where it ends.
#[tactic(auto, using(crate::proofs::Writing::put_mid_written))]
fn put_at(bytes: &mut [u8], end: usize, piece: &[u8]) -> usize
    requires { end + length piece.now ≤ length bytes.old }
    ensures { Extended (text_to bytes.old end) piece.now (text_to bytes.new result) }
{
    let after = end + piece.len();
    let part = &mut bytes[end..after];
    part.copy_from_slice(piece);
    after
}

// Writes `piece` at `end`, whole or not at all, and returns where it ends.
fn write_at(bytes: &mut [u8], end: usize, piece: &[u8]) -> Result<usize, Fault>
    ensures { MatchResult result
        (λ after. Extended (text_to bytes.old end) piece.now (text_to bytes.new after))
        (λ fault. Full (text_to bytes.old end) piece.now fault × (bytes.new ≡ bytes.old)) }
{
    check_room(bytes.len(), end, piece.len())?;
    Ok(put_at(bytes, end, piece))
}

// How many digits `n` has.
fn decimal_len(n: u32) -> usize
    ensures value { result ≡ length (decimal n) }
    ensures short { result ≤ 10 }
{
    n.checked_ilog10().unwrap_or(0) as usize + 1
}

// The same of a number that may be missing, which then has none.
fn number_len(number: Option<u32>) -> usize
    ensures value { result ≡ length (number_text number) }
    ensures short { result ≤ 10 }
{
    match number {
        Some(n) => decimal_len(n),
        None => 0,
    }
}

// Writes the `len` digits of `n` at `end`, where there is room for them. Not inlined, so that what is left of
// a row is small, and most of it is known where the caller writes the fields down.
#[inline(never)]
fn put_digits(bytes: &mut [u8], end: usize, n: u32, len: usize)
    requires len { len ≡ length (decimal n) }
    requires room { end + len ≤ length bytes.old }
    ensures { Extended (text_to bytes.old end) (decimal n) (text_to bytes.new (end + len)) }
{
    write_digits(u64::from(n), bytes, end + len);
}

// The same of a number that may be missing, which takes none: returns where they end. One digit alone needs no call.
#[tactic(auto, using(crate::proofs::Writing::written_nothing, std::proofs::lemmas::Fmt::decimal_digit))]
fn put_number(bytes: &mut [u8], end: usize, number: Option<u32>, len: usize) -> usize
    requires len { len ≡ length (number_text number) }
    requires room { end + len ≤ length bytes.old }
    ensures { Extended (text_to bytes.old end) (number_text number) (text_to bytes.new result) }
{
    match number {
        Some(n) if n < 10 => put_at(bytes, end, &[b'0' + n as u8]),
        Some(n) => {
            put_digits(bytes, end, n, len);
            end + len
        }
        None => end,
    }
}

// Writes a field's piece at `end`, whole or not at all, and returns where it ends: its parts straight into the bytes,
// since a piece that is built first costs more than the rest of the row.
fn write_piece(bytes: &mut [u8], end: usize, piece: Piece) -> Result<usize, Fault>
    requires { length piece.comma.now + length piece.word.now ≤ 9 }
    ensures { MatchResult result
        (λ after. Extended (text_to bytes.old end) (piece.comma.now ++ (piece.word.now ++ number_text piece.number)) (text_to bytes.new after))
        (λ fault. Full (text_to bytes.old end) (piece.comma.now ++ (piece.word.now ++ number_text piece.number)) fault × (bytes.new ≡ bytes.old)) }
{
    let len = number_len(piece.number);
    check_room(bytes.len(), end, piece.comma.len() + piece.word.len() + len)?;
    let word = put_at(bytes, end, piece.comma.as_bytes());
    let number = put_at(bytes, word, piece.word.as_bytes());
    Ok(put_number(bytes, number, piece.number, len))
}

impl Row<'_> {
    fn append(&mut self, piece: &[u8]) -> Result<(), Fault>
        ensures names { SameLoans self.old self.new }
        ensures text { Appended (text_of self.old) piece.now (text_of self.new) result }
        ensures row { (self.new.start ≡ self.old.start) × (self.new.first ≡ self.old.first) }
    {
        let end = self.cursor.end;
        let after = write_at(self.bytes, end, piece)?;
        self.cursor.end = after;
        Ok(())
    }

    // A refused field leaves the row as it was, open for another.
    #[inline(always)]
    pub fn put(&mut self, field: Field) -> Result<(), Fault>
        ensures names { SameLoans self.old self.new }
        ensures text { Appended (text_of self.old) (row_piece self.old.first (field_text field)) (text_of self.new) result }
        ensures row { (self.new.start ≡ self.old.start) × MatchResult result (λ _. self.new.first ≡ false) (λ _. self.new.first ≡ self.old.first) }
    {
        let end = self.cursor.end;
        let piece = piece_of(field, self.first);
        let after = write_piece(self.bytes, end, piece)?;
        self.cursor.end = after;
        self.first = false;
        Ok(())
    }

    // The row now begins where it ended: its drop has nothing to put back, and what is put after this is
    // of the next row. So no state is left in which a call makes no sense.
    pub fn finish(&mut self) -> Result<(), Fault>
        ensures names { SameLoans self.old self.new }
        ensures text { Appended (text_of self.old) line_end (text_of self.new) result }
        ensures row { MatchResult result
            (λ _. (self.new.start ≡ self.new.cursor.now.end) × (self.new.first ≡ true))
            (λ _. (self.new.start ≡ self.old.start) × (self.new.first ≡ self.old.first)) }
    {
        self.append(b"\r\n")?;
        self.start = self.cursor.end;
        self.first = true;
        Ok(())
    }

    // Puts the fields into a row that has none yet, and finishes it.
    #[inline(always)]
    fn put_row(&mut self, fields: &[Field]) -> Result<(), Fault>
        requires { (self.old.first ≡ true) × (self.old.start ≡ self.old.cursor.now.end) }
        ensures names { SameLoans self.old self.new }
        ensures text { WholeRow (text_of self.old) fields.now (text_to self.new.bytes.now self.new.start) result }
    {
        for field in fields {
            self.put(*field)?;
        }
        self.finish()
    }
}

impl Drop for Row<'_> {
    fn drop(self)
        ensures bytes { self.exit.0.now ≡ self.entry.bytes.now }
        ensures end { self.exit.1.0.now.end ≡ self.entry.start }
    {
        self.cursor.end = self.start;
        let Row {
            bytes: _,
            cursor: _,
            start: _,
            first: _,
        } = self;
    }
}

// Writes a row behind the text, whole or not at all; of a row that does not fit, the fields that do are left
// behind the text. Inlined, with what it calls, since a caller knows which fields its row has.
#[inline(always)]
pub fn write_row(bytes: &mut [u8], cursor: &mut Cursor, fields: &[Field]) -> Result<(), Fault>
    ensures { WholeRow (text_to bytes.old cursor.old.end) fields.now (text_to bytes.new cursor.new.end) result }
{
    let mut row = cursor.begin_row(bytes);
    row.put_row(fields)
}
