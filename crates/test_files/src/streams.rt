// What no clause says: that the calls succeed with ample memory, and what standard input and output do.
use io_edge::{Failed, MemSink, MemSource, Sink, Source, StdSink, StdSource, Word};
use std::alloc::AllocError;
use std::test::Fail;

#[test]
fn words_keep_their_text(rt: HostRuntime) -> Result<(), Fail> {
    for text in ["", "run", "é"] {
        assert_eq!(rt; Word::new(rt.alloc(), text)?.as_str(), text);
    }
    Ok(())
}

#[test]
fn a_source_in_memory_gives_its_bytes_and_fails_where_it_is_told(
    rt: HostRuntime,
) -> Result<(), Fail> {
    let alloc = rt.alloc();
    let mut source = MemSource::new(b"abcde".to_vec(alloc)?, vec![in alloc; 2, 5]?);
    let mut piece = [0u8; 3];
    let wants = [Ok(3), Err(Failed), Ok(2), Ok(0), Err(Failed), Ok(0)];
    let fronts = [b"abc", b"abc", b"dec", b"dec", b"dec", b"dec"];
    for (want, front) in wants.iter().zip(fronts.iter()) {
        assert_eq!(rt; source.pull(&mut piece), *want);
        assert_eq!(rt; piece, **front);
    }
    Ok(())
}

#[test]
fn a_sink_in_memory_takes_what_fits_and_fails_where_it_is_told(
    rt: HostRuntime,
) -> Result<(), Fail> {
    let alloc = rt.alloc();
    let mut sink = MemSink::with_room(Vec::with_capacity(alloc, 5)?, vec![in alloc; 2]?);
    let wants = [Ok(()), Err(Failed), Ok(()), Err(Failed), Ok(())];
    for (piece, want) in ["ab", "cd", "ef", "gh", "i"].iter().zip(wants.iter()) {
        assert_eq!(rt; sink.push(piece.as_bytes()), *want);
    }
    assert_eq!(rt; sink.bytes(), b"abefi".as_slice());
    let mut none = MemSink::new(Vec::new(alloc));
    assert_eq!(rt; none.push(b""), Ok(()));
    assert_eq!(rt; none.push(b"a"), Err(Failed));
    Ok(())
}

#[test]
fn standard_input_ends_and_standard_output_takes(rt: HostRuntime) -> Result<(), AllocError> {
    let mut sink = StdSink::new(rt.stdout());
    assert_eq!(rt; sink.push(b"written by a test\n"), Ok(()));
    let mut source = StdSource::new(rt.stdin());
    assert_eq!(rt; source.pull(&mut [0; 16]), Ok(0));
    Ok(())
}
