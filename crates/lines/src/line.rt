// A whole line: the header or a change.
ghost use Rattle.std.specs.Prelude.{◌≡◌, ℕ, Bool, Some, None};
ghost use Rattle.std.specs.Option.{ok_or};
ghost use Rattle.std.specs.Str.{bytes_eq};
ghost use Rattle.lifts.specs.Faults.{unless_refused};
ghost use Rattle.lines.specs.Format.{fields_of, argument};
ghost use Rattle.lines.specs.Meaning.{arguments, reads_as, change_of, meaning, line_meaning, malformed_line, line_number_refusal};

use super::change::Change;
use super::kind::{ChangeKind, Clash, Clear, Enter, Lapse};
use super::number::parse_number;
use super::reader::FieldReader;
use lifts::{Fault, Layer, Refusal};

const LONGEST: usize = 64;

const HEADER: &[u8] = b"op,a,b,c";

const LAST_LINE: u32 = 1000000;

#[derive(Clone, Copy, PartialEq, Eq, Debug)]
pub enum Line {
    Header,
    Change(Change),
}

fn read_argument(field: &[u8], filled: bool) -> Option<u32>
    ensures { result ≡ argument filled field.now }
{
    if filled {
        parse_number(field)
    } else {
        field.is_empty().then_some(0)
    }
}

// The arguments of a kind, from the fields behind the word.
fn read_arguments<K: ChangeKind>(reader: &mut FieldReader) -> Option<K::Arguments>
    ensures { result ≡ arguments K.FILLED K.built (fields_of reader.old) }
{
    let a = read_argument(reader.next_field()?, 0 < K::FILLED)?;
    let b = read_argument(reader.next_field()?, 1 < K::FILLED)?;
    let c = read_argument(reader.next_field()?, 2 < K::FILLED)?;
    if reader.next_field().is_some() {
        return None;
    }
    Some(K::build(a, b, c))
}

fn read_as<K: ChangeKind>(reader: &mut FieldReader) -> Option<Change>
    ensures { result ≡ reads_as K.FILLED K.built K.meant (fields_of reader.old) }
{
    // A closure, since the borrow checker does not take a trait's function here yet.
    read_arguments::<K>(reader).map(|arguments| K::change(arguments))
}

// The change that the fields of a line mean.
fn read_fields(reader: &mut FieldReader) -> Option<Change>
    ensures { result ≡ change_of (fields_of reader.old) }
{
    match reader.next_field()? {
        Enter::WORD => read_as::<Enter>(reader),
        Clear::WORD => read_as::<Clear>(reader),
        Clash::WORD => read_as::<Clash>(reader),
        Lapse::WORD => read_as::<Lapse>(reader),
        _ => None,
    }
}

fn malformed() -> Fault
    ensures { result ≡ malformed_line }
{
    Fault::without_lift(Refusal::MalformedLine, Layer::File)
}

fn change_in(line: &[u8]) -> Option<Change>
    ensures { result ≡ meaning line.now }
{
    if line.len() > LONGEST {
        return None;
    }
    let mut reader = FieldReader::new(line);
    read_fields(&mut reader)
}

fn content_of(number: u32, line: &[u8]) -> Option<Line>
    ensures { result ≡ line_meaning number line.now }
{
    if number != 1 {
        return change_in(line).map(Line::Change);
    }
    (line == HEADER).then_some(Line::Header)
}

// The change that a line means, whatever its number.
pub fn read_change(line: &[u8]) -> Result<Change, Fault>
    ensures { result ≡ ok_or (meaning line.now) malformed_line }
{
    change_in(line).ok_or(malformed())
}

// What the line of that number means: the first is the header.
pub fn read_line(number: u32, line: &[u8]) -> Result<Line, Fault>
    ensures { result ≡ ok_or (line_meaning number line.now) malformed_line }
{
    content_of(number, line).ok_or(malformed())
}

pub fn check_line_number(number: u32) -> Result<(), Fault>
    ensures { result ≡ unless_refused (line_number_refusal number) tt }
{
    if number == 0 || number > LAST_LINE {
        return Err(Fault::without_lift(Refusal::LineNumberOutOfRange, Layer::File));
    }
    Ok(())
}
