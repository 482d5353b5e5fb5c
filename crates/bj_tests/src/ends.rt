use bj_base::Seq;
use bj_io::{Clock, MemClock, MemSink, MemSource, Poll, Put, Sink, Source};
use std::test::*;

#[test]
fn a_source_gives_its_bytes_but_at_the_polls_that_fail(rt: HostRuntime) -> Result<(), Fail> {
    let alloc = rt.alloc();
    let bytes = Seq::from_vec(Vec::from_slice(alloc, b"abc".as_slice())?);
    let fails = Seq::from_vec(vec![in alloc; 2, 3]?);
    let not_yet = Seq::from_vec(vec![in alloc; 3, 4]?);
    let mut source = MemSource::new(bytes, fails, not_yet);
    let mut into = [0; 2];
    for answer in [
        Poll::Got(2),
        Poll::Failed,
        Poll::Failed,
        Poll::NotYet,
        Poll::Got(1),
        Poll::End,
        Poll::End,
    ] {
        assert!(&rt; source.poll(&mut into) == answer);
    }
    assert!(&rt; into == [b'c', b'b']);
    Ok(())
}

#[test]
fn a_sink_holds_what_it_took(rt: HostRuntime) -> Result<(), Fail> {
    let alloc = rt.alloc();
    let mut sink = MemSink::new(Seq::new(alloc), Seq::from_vec(vec![in alloc; 2]?));
    assert!(&rt; sink.put(b"ab") == Put::Took(2));
    assert!(&rt; sink.put(b"cd") == Put::Failed);
    assert!(&rt; sink.put(b"ef") == Put::Took(2));
    assert!(&rt; sink.held().as_slice() == b"abef".as_slice());
    Ok(())
}

#[test]
fn a_clock_never_falls(rt: HostRuntime) -> Result<(), Fail> {
    let alloc = rt.alloc();
    let mut clock = MemClock::new(Seq::from_vec(vec![in alloc; 5, 3, 9]?));
    for moment in [5, 5, 9, 9] {
        assert_eq!(&rt; clock.now(), moment);
    }
    Ok(())
}
