// Lines out of bytes that come in two blocks.
use framing::LineBuffer;
use std::process::Abort;
use std::slice::Iter;
use std::test::Fail;

fn line_is(rt: &impl Abort, buffer: &LineBuffer, expected: Option<&&[u8]>) -> Result<(), Fail> {
    let line = expected.ok_or("a line too many")?;
    assert_eq!(rt; buffer.get(), *line);
    Ok(())
}

// Holds the lines that end in the block to the next of those expected.
fn take_block(
    rt: &impl Abort,
    buffer: &mut LineBuffer,
    block: &[u8],
    expected: &mut Iter<'_, &[u8]>,
) -> Result<(), Fail> {
    let mut at = 0;
    while let Some(next) = buffer.take_line(block, at) {
        at = next;
        line_is(rt, buffer, expected.next())?;
        buffer.clear();
    }
    Ok(())
}

fn lines_are(rt: &impl Abort, first: &[u8], second: &[u8], lines: &[&[u8]]) -> Result<(), Fail> {
    let mut buffer = LineBuffer::new();
    let mut expected = lines.iter();
    take_block(rt, &mut buffer, first, &mut expected)?;
    take_block(rt, &mut buffer, second, &mut expected)?;
    if buffer.is_open() {
        buffer.end();
        line_is(rt, &buffer, expected.next())?;
    }
    assert!(rt; expected.next().is_none());
    Ok(())
}

#[test]
fn line_ends(rt: HostRuntime) -> Result<(), Fail> {
    lines_are(&rt, b"", b"", &[])?;
    lines_are(&rt, b"\r\n", b"", &[b""])?;
    lines_are(&rt, b"a\r\nb", b"c\r\n", &[b"a", b"bc"])?;
    lines_are(&rt, b"a\r", b"\nb", &[b"a", b"b"])?;
    lines_are(&rt, b"\r\n\r", b"\n\r\n", &[b"", b"", b""])?;
    lines_are(&rt, b"a\nb\rc", b"\r\n", &[b"a\nb\rc"])?;
    lines_are(&rt, b"a\r\r\n", b"\n", &[b"a\r", b"\n"])?;
    lines_are(&rt, b"a\r", b"b\r", &[b"a\rb\r"])
}

#[test]
fn long_lines(rt: HostRuntime) -> Result<(), Fail> {
    let long = [b'x'; 70];
    lines_are(&rt, &long[0..64], b"\r\nnext", &[&long[0..64], b"next"])?;
    lines_are(&rt, &long[0..65], b"\r\n", &[&long[0..65]])?;
    lines_are(&rt, &long[0..40], &long[0..30], &[&long[0..65]])?;
    lines_are(&rt, &long, b"\r\nnext\r\n", &[&long[0..65], b"next"])
}

#[test]
fn past_the_block(rt: HostRuntime) {
    let mut buffer = LineBuffer::new();
    assert_eq!(rt; buffer.take_line(b"\r\n", 2), None);
    assert_eq!(rt; buffer.take_line(b"\r\n", 3), None);
    assert!(rt; !buffer.is_open());
}

#[test]
fn byte_by_byte(rt: HostRuntime) {
    let mut buffer = LineBuffer::new();
    assert!(rt; !buffer.feed(b'\n'));
    assert!(rt; !buffer.feed(b'\r'));
    assert!(rt; buffer.feed(b'\n'));
    assert_eq!(rt; buffer.get(), b"\n".as_slice());
}
