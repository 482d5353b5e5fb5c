use bj_base::Seq;
use bj_io::{MemSink, MemSource, Sink};
use bj_stream::{Polled, Reader, Sent, Taken, put_all};
use std::test::*;

/// Whether what was taken is this line.
fn is_line(taken: &Taken, text: &[u8]) -> bool {
    match taken {
        Taken::Line(bytes) => bytes.as_slice() == text,
        _ => false,
    }
}

/// Lets go what was taken. Its drop stands here alone.
fn dismiss(_taken: Taken) {}

/// Whether the next line that a reader gives is this one.
fn takes(reader: &mut Reader<MemSource>, text: &[u8]) -> bool {
    let taken = reader.take_line();
    let found = is_line(&taken, text);
    dismiss(taken);
    found
}

/// Whether a reader of `a`, `bc` and `d`, of which the last has no end, gives the two lines that have one.
fn gives_whole_lines(reader: &mut Reader<MemSource>) -> bool {
    reader.is_done()
        && reader.poll() == Polled::Got
        && !reader.is_too_long()
        && takes(reader, b"a")
        && takes(reader, b"bc")
        && !takes(reader, b"d")
}

/// Whether it then gives the last line, once its source has ended.
fn gives_the_last_line(reader: &mut Reader<MemSource>) -> bool {
    reader.poll() == Polled::End
        && reader.has_ended()
        && !reader.is_over()
        && takes(reader, b"d")
        && reader.is_over()
}

#[test]
fn lines_are_cut_from_pieces(rt: HostRuntime) -> Result<(), Fail> {
    let alloc = rt.alloc();
    let bytes = Seq::from_vec(Vec::from_slice(alloc, b"a\r\nbc\nd".as_slice())?);
    let source = MemSource::new(bytes, Seq::new(alloc), Seq::new(alloc));
    let mut reader = Reader::new(alloc, source);
    let found = gives_whole_lines(&mut reader) && gives_the_last_line(&mut reader);
    assert!(&rt; found);
    Ok(())
}

#[test]
fn a_piece_is_put_whole_or_up_to_a_fault(rt: HostRuntime) -> Result<(), Fail> {
    let alloc = rt.alloc();
    let mut sink = MemSink::new(Seq::new(alloc), Seq::from_vec(vec![in alloc; 2]?));
    assert!(&rt; put_all(&mut sink, b"ab") == Sent::All);
    assert!(&rt; put_all(&mut sink, b"cd") == Sent::Failed);
    assert!(&rt; put_all(&mut sink, b"") == Sent::All);
    assert!(&rt; sink.held().as_slice() == b"ab".as_slice());
    Ok(())
}
