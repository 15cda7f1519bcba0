// What a row is made of, and its bytes.
ghost use Rattle.std.specs.Prelude.{◌≡◌, ◌+◌, ◌≤◌, ◌++◌, [], length};
ghost use Rattle.rows.specs.Fields.{field_text, number_text, state_text, word_text};
ghost use Rattle.rows.specs.Texts.{row_piece};

use lifts::{Refusal, State};

// A word of a header row.
#[derive(Clone, Copy, PartialEq, Eq, Debug)]
pub enum Word {
    Line,
    Lift,
    State,
}

impl Word {
    fn as_str(self) -> &'static str
        ensures text { result.now ≡ word_text self }
        ensures short { length result.now ≤ 8 }
    {
        match self {
            Word::Line => "line",
            Word::Lift => "lift",
            Word::State => "state",
        }
    }
}

#[derive(Clone, Copy, PartialEq, Eq, Debug)]
pub enum Field {
    Empty,
    Number(u32),
    State(State),
    Refused(Refusal),
    Word(Word),
}

fn state_str(state: State) -> &'static str
    ensures text { result.now ≡ state_text state }
    ensures short { length result.now ≤ 8 }
{
    match state {
        State::Released => "released",
        State::Held => "held",
        State::Off => "off",
    }
}

// A field as it stands in its row: the comma before it, its word and its number, of which it may lack each.
#[derive(Clone, Copy)]
pub(crate) struct Piece {
    pub(crate) comma: &'static str,
    pub(crate) word: &'static str,
    pub(crate) number: Option<u32>,
}

// The comma before a field, unless it is the first.
fn comma(first: bool) -> &'static str
    ensures comma { result.now ≡ row_piece first [] }
    ensures short { length result.now ≤ 1 }
{
    if first { "" } else { "," }
}

pub(crate) fn piece_of(field: Field, first: bool) -> Piece
    ensures text { result.comma.now ++ (result.word.now ++ number_text result.number) ≡ row_piece first (field_text field) }
    ensures short { length result.comma.now + length result.word.now ≤ 9 }
{
    let (word, number) = match field {
        Field::Empty => ("", None),
        Field::Number(n) => ("", Some(n)),
        Field::State(state) => (state_str(state), None),
        Field::Refused(refusal) => ("refused ", Some(u32::from(refusal))),
        Field::Word(word) => (word.as_str(), None),
    };
    Piece {
        comma: comma(first),
        word,
        number,
    }
}
