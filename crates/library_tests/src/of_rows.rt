// Rows in the caller's bytes.
use lifts::{Fault, Layer, Refusal, State};
use rows::{Cursor, Field, Word, write_row};
use std::process::Abort;
use std::test::Fail;

#[derive(Clone, Copy)]
struct Spelling {
    field: Field,
    text: &'static [u8],
}

fn text_full() -> Fault {
    Fault::without_lift(Refusal::TextFull, Layer::File)
}

#[test]
fn every_kind_of_field(rt: HostRuntime) -> Result<(), Fail> {
    let spellings = [
        Spelling {
            field: Field::Empty,
            text: b"\r\n",
        },
        Spelling {
            field: Field::Number(0),
            text: b"0\r\n",
        },
        Spelling {
            field: Field::Number(4294967295),
            text: b"4294967295\r\n",
        },
        Spelling {
            field: Field::State(State::Released),
            text: b"released\r\n",
        },
        Spelling {
            field: Field::State(State::Held),
            text: b"held\r\n",
        },
        Spelling {
            field: Field::State(State::Off),
            text: b"off\r\n",
        },
        Spelling {
            field: Field::Refused(Refusal::NumberTooLarge),
            text: b"refused 3\r\n",
        },
        Spelling {
            field: Field::Refused(Refusal::LineNumberOutOfRange),
            text: b"refused 15\r\n",
        },
        Spelling {
            field: Field::Word(Word::Line),
            text: b"line\r\n",
        },
        Spelling {
            field: Field::Word(Word::Lift),
            text: b"lift\r\n",
        },
        Spelling {
            field: Field::Word(Word::State),
            text: b"state\r\n",
        },
    ];
    for spelling in &spellings {
        let mut bytes = [b'.'; 16];
        let mut cursor = Cursor::new();
        {
            let mut row = cursor.begin_row(&mut bytes);
            row.put(spelling.field)?;
            row.finish()?;
        }
        let end = cursor.len();
        assert!(rt; end <= 16);
        assert_eq!(rt; &bytes[0..end], spelling.text);
    }
    Ok(())
}

// What stands in ten bytes after a row was written into the first `size` of them.
#[derive(Clone, Copy)]
struct Room {
    size: usize,
    // where the text ends with the row, if that fits
    end: Option<usize>,
    after: &'static [u8],
}

fn try_room(rt: &impl Abort, room: Room, bytes: &mut [u8]) {
    let size = room.size;
    assert!(rt; size <= bytes.len());
    let mut cursor = Cursor::new();
    let fields = [Field::Number(7), Field::State(State::Held), Field::Empty];
    let answer = write_row(&mut bytes[0..size], &mut cursor, &fields);
    assert_eq!(rt; answer, room.end.map(|_| ()).ok_or(text_full()));
    assert_eq!(rt; cursor.len(), room.end.unwrap_or(0));
    assert_eq!(rt; &bytes[0..], room.after);
}

#[test]
fn rows_that_fit_and_do_not(rt: HostRuntime) {
    let rooms = [
        Room {
            size: 0,
            end: None,
            after: b"..........",
        },
        Room {
            size: 1,
            end: None,
            after: b"7.........",
        },
        Room {
            size: 5,
            end: None,
            after: b"7.........",
        },
        Room {
            size: 6,
            end: None,
            after: b"7,held....",
        },
        Room {
            size: 7,
            end: None,
            after: b"7,held,...",
        },
        Room {
            size: 8,
            end: None,
            after: b"7,held,...",
        },
        Room {
            size: 9,
            end: Some(9),
            after: b"7,held,\r\n.",
        },
        Room {
            size: 10,
            end: Some(9),
            after: b"7,held,\r\n.",
        },
    ];
    for room in &rooms {
        try_room(&rt, *room, &mut [b'.'; 10]);
    }
}

#[test]
fn a_shorter_field_after_a_refused_one(rt: HostRuntime) -> Result<(), Fail> {
    let mut bytes = [b'.'; 6];
    let mut cursor = Cursor::new();
    {
        let mut row = cursor.begin_row(&mut bytes);
        row.put(Field::Number(12345))?;
        assert_eq!(rt; row.put(Field::Number(6)), Err(text_full()));
        row.put(Field::Empty)?;
        assert_eq!(rt; row.put(Field::Empty), Err(text_full()));
        assert_eq!(rt; row.finish(), Err(text_full()));
    }
    assert_eq!(rt; cursor.len(), 0);
    assert_eq!(rt; &bytes, b"12345,");
    Ok(())
}

#[test]
fn an_abandoned_row(rt: HostRuntime) -> Result<(), Fail> {
    let mut bytes = [b'.'; 8];
    let mut cursor = Cursor::new();
    {
        let mut row = cursor.begin_row(&mut bytes);
        row.put(Field::Number(1))?;
        row.finish()?;
        row.put(Field::Number(2))?;
        row.put(Field::Number(3))?;
    }
    assert_eq!(rt; cursor.len(), 3);
    assert_eq!(rt; &bytes, b"1\r\n2,3..");
    {
        let mut row = cursor.begin_row(&mut bytes);
        row.put(Field::Number(4))?;
        row.finish()?;
    }
    assert_eq!(rt; cursor.len(), 6);
    assert_eq!(rt; &bytes, b"1\r\n4\r\n..");
    cursor.clear();
    assert_eq!(rt; cursor.len(), 0);
    Ok(())
}

#[test]
fn an_end_beyond_the_bytes(rt: HostRuntime) -> Result<(), Fail> {
    let mut bytes = [b'.'; 4];
    let mut cursor = Cursor::new();
    {
        let mut row = cursor.begin_row(&mut bytes);
        row.finish()?;
        row.finish()?;
    }
    let mut fewer = [b'.'; 3];
    {
        let mut row = cursor.begin_row(&mut fewer);
        assert_eq!(rt; row.put(Field::Empty), Err(text_full()));
        assert_eq!(rt; row.finish(), Err(text_full()));
    }
    assert_eq!(rt; cursor.len(), 4);
    assert_eq!(rt; &fewer, b"...");
    Ok(())
}
