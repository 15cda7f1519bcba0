// Lines that mean a change, and lines that mean none.
use lifts::{Fault, Layer, Refusal};
use lines::{
    Change, ClashArguments, ClearArguments, EnterArguments, LapseArguments, Line,
    check_line_number, read_change, read_line,
};

fn malformed() -> Fault {
    Fault::without_lift(Refusal::MalformedLine, Layer::File)
}

fn enter(number: u32, due: u32, class: u32) -> Change {
    Change::Enter(EnterArguments { number, due, class })
}

#[test]
fn changes_are_read(rt: HostRuntime) {
    assert_eq!(rt; read_change(b"enter,5,100,0"), Ok(enter(5, 100, 0)));
    assert_eq!(rt;
        read_change(b"enter,511,10079,15"),
        Ok(enter(511, 10079, 15))
    );
    assert_eq!(rt;
        read_change(b"enter,512,10080,16"),
        Ok(enter(512, 10080, 16))
    );
    assert_eq!(rt; read_change(b"enter,99999,0,10"), Ok(enter(99999, 0, 10)));
    assert_eq!(rt;
        read_change(b"clear,0,,"),
        Ok(Change::Clear(ClearArguments { lift: 0 }))
    );
    assert_eq!(rt;
        read_change(b"clash,5,2,"),
        Ok(Change::Clash(ClashArguments {
            first: 5,
            second: 2,
        }))
    );
    assert_eq!(rt;
        read_change(b"lapse,2,2,"),
        Ok(Change::Lapse(LapseArguments {
            first: 2,
            second: 2,
        }))
    );
}

const NO_CHANGE: [&[u8]; 34] = [
    b"",
    b",,,",
    b"enter",
    b"enter,5,100",
    b"enter,5,100,0,",
    b"enter,5,100,0,0",
    b"Enter,5,100,0",
    b"enter ,5,100,0",
    b" enter,5,100,0",
    b"entry,5,100,0",
    b"enter,05,100,0",
    b"enter,00,1,0",
    b"enter,100000,1,0",
    b"enter,-5,1,0",
    b"enter,+5,1,0",
    b"enter,5,,0",
    b"enter,5,100,0\r",
    b"enter,5,100\n,0",
    b"enter,5,\0,0",
    b"enter,5,100,:",
    b"enter,5,100,/",
    b"clear,5",
    b"clear,5,,,",
    b"clear,5,1,",
    b"clear,5, ,",
    b"clear,,,",
    b"\"clear\",5,,",
    b"clash,1,2,3",
    b"clash,1,,",
    b"clash,,1,",
    b"clash,1,2",
    b"lapse,1,2,\n",
    b"lapse;1;2;",
    b"op,a,b,c",
];

#[test]
fn other_bytes_are_refused(rt: HostRuntime) {
    for line in NO_CHANGE {
        assert_eq!(rt; read_change(line), Err(malformed()));
    }
    assert_eq!(rt; read_change(&[b'1'; 64]), Err(malformed()));
    assert_eq!(rt; read_change(&[b'1'; 65]), Err(malformed()));
}

#[test]
fn line_1_is_the_header(rt: HostRuntime) {
    assert_eq!(rt; read_line(1, b"op,a,b,c"), Ok(Line::Header));
    assert_eq!(rt; read_line(1, b"op,a,b,c "), Err(malformed()));
    assert_eq!(rt; read_line(1, b"Op,a,b,c"), Err(malformed()));
    assert_eq!(rt; read_line(1, b"clear,5,,"), Err(malformed()));
    assert_eq!(rt; read_line(2, b"op,a,b,c"), Err(malformed()));
    assert_eq!(rt;
        read_line(2, b"clear,5,,"),
        Ok(Line::Change(Change::Clear(ClearArguments { lift: 5 })))
    );
}

#[test]
fn lines_to_a_million(rt: HostRuntime) {
    let beyond = Err(Fault::without_lift(Refusal::LineNumberOutOfRange, Layer::File));
    assert_eq!(rt; check_line_number(0), beyond);
    assert_eq!(rt; check_line_number(1), Ok(()));
    assert_eq!(rt; check_line_number(1000000), Ok(()));
    assert_eq!(rt; check_line_number(1000001), beyond);
}
