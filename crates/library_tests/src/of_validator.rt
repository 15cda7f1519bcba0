// Lines that no board could take, and whole reports.
use super::board_fault;
use lifts::{Fault, Layer, Refusal};
use rows::Cursor;
use std::process::Abort;
use std::test::Fail;
use validator::{Summary, Validator, check_line, write_header};

#[test]
fn lines_no_board_takes(rt: HostRuntime) {
    assert_eq!(rt; check_line(2, b"enter,511,10079,15"), Ok(()));
    assert_eq!(rt;
        check_line(2, b"enter,512,10080,16"),
        Err(board_fault(Refusal::NumberTooLarge, 512))
    );
    assert_eq!(rt;
        check_line(2, b"enter,511,10080,0"),
        Err(board_fault(Refusal::DueOrClassTooLarge, 511))
    );
    assert_eq!(rt;
        check_line(2, b"enter,511,0,16"),
        Err(board_fault(Refusal::DueOrClassTooLarge, 511))
    );
    assert_eq!(rt;
        check_line(2, b"clear,512,,"),
        Err(board_fault(Refusal::NumberTooLarge, 512))
    );
    assert_eq!(rt;
        check_line(2, b"clash,512,99999,"),
        Err(board_fault(Refusal::NumberTooLarge, 512))
    );
    assert_eq!(rt;
        check_line(2, b"clash,2,99999,"),
        Err(board_fault(Refusal::NumberTooLarge, 99999))
    );
    assert_eq!(rt;
        check_line(2, b"lapse,2,2,"),
        Err(board_fault(Refusal::SameLiftTwice, 2))
    );
    assert_eq!(rt; check_line(1, b"op,a,b,c"), Ok(()));
    assert_eq!(rt;
        check_line(1, b"op,a,b"),
        Err(Fault::without_lift(Refusal::MalformedLine, Layer::File))
    );
    assert_eq!(rt;
        check_line(1000001, b"op,a,b"),
        Err(Fault::without_lift(Refusal::LineNumberOutOfRange, Layer::File))
    );
}

// Validates the input in blocks of `size` bytes, with the rows in `out`.
fn validate(
    rt: &impl Abort,
    input: &[u8],
    size: usize,
    out: &mut [u8],
    cursor: &mut Cursor,
) -> Result<Summary, Fail> {
    assert!(rt; 0 < size);
    let mut validator = Validator::new();
    write_header(out, cursor)?;
    for block in input.chunks(size) {
        let place = validator.advance(block, 0, out, cursor);
        assert_eq!(rt; place, block.len());
    }
    validator.finish(out, cursor)?;
    Ok(validator.summary())
}

fn check_report(
    rt: &impl Abort,
    input: &[u8],
    size: usize,
    report: &[u8],
    summary: Summary,
) -> Result<(), Fail> {
    let mut out = [0u8; 512];
    let mut cursor = Cursor::new();
    let counted = validate(rt, input, size, &mut out, &mut cursor)?;
    assert_eq!(rt; cursor.text(&out), report);
    assert_eq!(rt; counted, summary);
    Ok(())
}

fn counts(read: u32, well_formed: u32, refused: u32) -> Summary {
    Summary {
        read,
        well_formed,
        refused,
    }
}

#[test]
fn reports_of_files(rt: HostRuntime) -> Result<(), Fail> {
    let input = b"op,a,b,c\r\nenter,5,100,0\r\nclash,2,2,\r\nclear,512,,\r\n\r\nenter,1,10080,0";
    let report =
        b"line,lift,state\r\n3,2,refused 6\r\n4,512,refused 3\r\n5,,refused 14\r\n6,1,refused 9\r\n";
    for size in [1, 2, 3, 64, 512] {
        check_report(&rt, input, size, report, counts(6, 2, 4))?;
    }
    check_report(&rt, b"", 1, b"line,lift,state\r\n", counts(0, 0, 0))?;
    check_report(
        &rt,
        b"op,a,b,c\r\n",
        4,
        b"line,lift,state\r\n",
        counts(1, 1, 0),
    )?;
    check_report(
        &rt,
        b"op,a,b,c\r",
        4,
        b"line,lift,state\r\n1,,refused 14\r\n",
        counts(1, 0, 1),
    )
}

#[test]
fn rows_without_room(rt: HostRuntime) -> Result<(), Fail> {
    let mut out = [b'.'; 80];
    let mut cursor = Cursor::new();
    let mut validator = Validator::new();
    write_header(&mut out, &mut cursor)?;
    assert_eq!(rt; validator.advance(b"x\r\ny", 0, &mut out, &mut cursor), 0);
    cursor.clear();
    assert_eq!(rt; validator.advance(b"x\r\ny", 0, &mut out, &mut cursor), 4);
    assert_eq!(rt; cursor.text(&out), b"1,,refused 14\r\n".as_slice());
    assert_eq!(rt;
        validator.finish(&mut [], &mut cursor),
        Err(Fault::without_lift(Refusal::TextFull, Layer::File))
    );
    cursor.clear();
    validator.finish(&mut out, &mut cursor)?;
    assert_eq!(rt; cursor.text(&out), b"2,,refused 14\r\n".as_slice());
    Ok(())
}
