//! Reading and writing in pieces, with faults at each call.

use outer_io::{
    FileErr, Files, Found, LONGEST, Line, LineReader, MemFiles, MemSink, MemSource, ReadErr, Sink,
    SinkErr, Source, StdFiles, StdSink, StdSource, SureFiles, SureSink, SureSource, give_all,
    read_lines,
};
use std::alloc::{AllocError, Global};
use std::fs::{File, OpenOptions};
use std::io;
use std::test::Fail;

/// Takes pieces of a source, and puts down how many bytes each call took, or 9 for a fault.
fn takes<S: Source>(
    alloc: Global,
    source: &mut S,
    room: usize,
    calls: usize,
) -> Result<(Vec<u8>, Vec<usize>), AllocError> {
    let mut all = Vec::new(alloc);
    let mut counts = Vec::new(alloc);
    for _ in 0..calls {
        let mut piece = [0; 4];
        let room = room.min(4);
        match source.take(&mut piece[..room]) {
            Ok(count) => {
                let (front, _) = piece.split_at(count.min(4));
                all.extend_from_slice(front)?;
                counts.push(count)?;
            }
            Err(_) => counts.push(9)?,
        }
    }
    Ok((all, counts))
}

#[test]
fn sources(rt: HostRuntime) -> Result<(), Fail> {
    let alloc = rt.alloc();
    let mut sure = SureSource::new(b"hello".to_vec(alloc)?, 100);
    let (all, counts) = takes(alloc, &mut sure, 3, 3)?;
    assert!(rt; all.as_slice() == b"hello".as_slice());
    assert!(rt; counts.as_slice() == [3, 2, 0].as_slice());

    let fails = [2, 4].to_vec(alloc)?;
    let mut source = MemSource::new(b"hello".to_vec(alloc)?, 2, fails);
    let (all, counts) = takes(alloc, &mut source, 4, 6)?;
    assert!(rt; all.as_slice() == b"hello".as_slice());
    assert!(rt; counts.as_slice() == [2, 9, 2, 9, 1, 0].as_slice());
    Ok(())
}

#[test]
fn sinks(rt: HostRuntime) -> Result<(), Fail> {
    let alloc = rt.alloc();
    let mut sure = SureSink::new(alloc, 2);
    assert!(rt; sure.give(b"hello") == Ok(2));
    assert!(rt; give_all(&mut sure, b"llo") == Ok(()));
    assert!(rt; sure.bytes() == b"hello".as_slice());

    let mut sink = MemSink::new(alloc, 1, [3].to_vec(alloc)?);
    assert!(rt; give_all(&mut sink, b"hello") == Err(SinkErr::Failed));
    assert!(rt; sink.bytes() == b"he".as_slice());
    assert!(rt; give_all(&mut sink, b"llo") == Ok(()));
    assert!(rt; sink.bytes() == b"hello".as_slice());
    assert!(rt; sink.give(b"") == Ok(0));
    Ok(())
}

fn documents(alloc: Global) -> Result<Vec<(String, Vec<u8>)>, AllocError> {
    let mut files = Vec::new(alloc);
    files.push((String::from_str(alloc, "a")?, b"one".to_vec(alloc)?))?;
    files.push((String::from_str(alloc, "b")?, b"".to_vec(alloc)?))?;
    files.push((String::from_str(alloc, "a")?, b"two".to_vec(alloc)?))?;
    Ok(files)
}

/// An answer in words.
fn shown(alloc: Global, answer: Result<Found, FileErr>) -> Result<String, AllocError> {
    match answer {
        Ok(Found::Bytes(bytes)) => format!(in alloc; "bytes {bytes:?}"),
        Ok(Found::Absent) => String::from_str(alloc, "absent"),
        Ok(Found::Long) => String::from_str(alloc, "long"),
        Err(FileErr::Failed) => String::from_str(alloc, "failed"),
        Err(FileErr::NoMemory) => String::from_str(alloc, "no memory"),
    }
}

#[test]
fn files_in_memory(rt: HostRuntime) -> Result<(), Fail> {
    let alloc = rt.alloc();
    let mut sure = SureFiles::new(documents(alloc)?);
    let mut files = MemFiles::new(documents(alloc)?, [1].to_vec(alloc)?);
    let first = shown(alloc, files.read(alloc, "a", 3))?;
    assert!(rt; first.as_str() == "failed");
    for (name, limit, want) in &[
        ("a", 3, "bytes [111, 110, 101]"),
        ("a", 2, "long"),
        ("b", 0, "bytes []"),
        ("c", 0, "absent"),
        ("", 9, "absent"),
    ] {
        let answer = shown(alloc, sure.read(alloc, *name, *limit))?;
        assert!(rt; answer.as_str() == *want, "{name}");
        let answer = shown(alloc, files.read(alloc, *name, *limit))?;
        assert!(rt; answer.as_str() == *want, "{name}");
    }
    Ok(())
}

#[test]
fn standard_files(rt: HostRuntime) -> Result<(), Fail> {
    let alloc = rt.alloc();
    let mut files = StdFiles::new(alloc, &rt);
    for (name, limit, want) in &[
        (
            "/proc/sys/kernel/ostype",
            6,
            "bytes [76, 105, 110, 117, 120, 10]",
        ),
        ("/proc/sys/kernel/ostype", 5, "long"),
        ("/dev/null", 0, "bytes []"),
        // It has no end.
        ("/dev/zero", 4096, "long"),
        ("/no/such/file", 6, "absent"),
        ("", 6, "absent"),
        // A directory is opened and not read.
        ("/", 6, "failed"),
        ("a\0b", 6, "failed"),
    ] {
        let answer = shown(alloc, files.read(alloc, *name, *limit))?;
        assert!(rt; answer.as_str() == *want, "{name}");
    }
    Ok(())
}

#[test]
fn standard_source(rt: HostRuntime) -> Result<(), Fail> {
    let alloc = rt.alloc();
    let mut source = StdSource::new(File::open(&rt, "/proc/sys/kernel/ostype")?);
    let (all, counts) = takes(alloc, &mut source, 4, 3)?;
    assert!(rt; all.as_slice() == b"Linux\n".as_slice());
    assert!(rt; counts.as_slice() == [4, 2, 0].as_slice());

    let mut directory = StdSource::new(File::open(&rt, "/")?);
    let (_, counts) = takes(alloc, &mut directory, 4, 1)?;
    assert!(rt; counts.as_slice() == [9].as_slice());

    let mut input = StdSource::new(rt.reader());
    assert!(rt; input.take(&mut []) == Ok(0));
    Ok(())
}

#[test]
fn standard_sink(rt: HostRuntime) -> Result<(), Fail> {
    let mut sink = StdSink::new(OpenOptions::new().write(true).open(&rt, "/dev/null")?);
    assert!(rt; give_all(&mut sink, b"hello") == Ok(()));
    let mut full = StdSink::new(OpenOptions::new().write(true).open(&rt, "/dev/full")?);
    assert!(rt; full.give(b"hello") == Err(SinkErr::Failed));
    let mut output = StdSink::new(io::writer(&rt));
    assert!(rt; output.give(b"") == Ok(0));
    Ok(())
}

/// What lines show, and how reading them ended. A line of many bytes shows how many they are.
fn lines_shown(
    alloc: Global,
    lines: &Vec<Line>,
    answer: Result<(), ReadErr>,
) -> Result<String, AllocError> {
    let mut text = String::new(alloc);
    for line in lines {
        match line {
            Line::Whole(bytes) if bytes.len() < 100 => {
                for byte in bytes {
                    text.push(char::from(*byte))?;
                }
            }
            Line::Whole(bytes) => text.push_str(format!(in alloc; "{}", bytes.len())?.as_str())?,
            Line::Long => text.push_str("long")?,
            Line::End => text.push_str("end?")?,
        }
        text.push('|')?;
    }
    text.push_str(match answer {
        Ok(()) => "end",
        Err(ReadErr::Fault) => "fault",
        Err(ReadErr::InputLong) => "input long",
        Err(ReadErr::NoMemory) => "no memory",
    })?;
    Ok(text)
}

/// What the lines of an input show, where at most so many bytes come in a call, and one call fails.
fn input_shown(
    alloc: Global,
    input: &[u8],
    limit: u64,
    most: usize,
    fails: u64,
) -> Result<String, AllocError> {
    let bytes = Vec::from_slice(alloc, input)?;
    let mut source = MemSource::new(bytes, most.max(1), [fails].to_vec(alloc)?);
    let mut lines = Vec::new(alloc);
    let answer = read_lines(alloc, &mut source, limit, &mut lines);
    lines_shown(alloc, &lines, answer)
}

#[test]
fn short_lines(rt: HostRuntime) -> Result<(), Fail> {
    let alloc = rt.alloc();
    for (input, limit, want) in &[
        ("", 9, "end"),
        ("\n", 9, "|end"),
        ("\n\n", 9, "||end"),
        ("a", 9, "a|end"),
        ("a\n", 9, "a|end"),
        ("a\n\nb", 9, "a||b|end"),
        ("a\r\nb\r\n", 9, "a\r|b\r|end"),
        ("", 0, "end"),
        ("a", 0, "input long"),
        ("\n", 0, "input long"),
        // Within the first line, and right before its newline.
        ("ab\ncd\n", 1, "input long"),
        ("ab\ncd\n", 2, "input long"),
        // Right behind its newline, and within the second line.
        ("ab\ncd\n", 3, "ab|input long"),
        ("ab\ncd\n", 4, "ab|input long"),
        ("ab\ncd\n", 5, "ab|input long"),
        ("ab\ncd\n", 6, "ab|cd|end"),
        ("ab\ncd", 4, "ab|input long"),
        ("ab\ncd", 5, "ab|cd|end"),
    ] {
        for most in [1, 2, 100_000] {
            let shown = input_shown(alloc, input.as_bytes(), *limit, most, 0)?;
            assert!(rt; shown.as_str() == *want, "{input:?} up to {limit}");
        }
    }
    Ok(())
}

#[test]
fn long_lines(rt: HostRuntime) -> Result<(), Fail> {
    let alloc = rt.alloc();
    let limit = 1 << 30;
    for (length, want) in [(LONGEST, "s|1048576|t|end"), (LONGEST + 1, "s|long|t|end")] {
        let mut input = b"s\n".to_vec(alloc)?;
        input.extend_from_slice(vec![in alloc; b'x'; length]?.as_slice())?;
        let unended = if length == LONGEST {
            "s|1048576|end"
        } else {
            "s|long|end"
        };
        for most in [1, 65_537, 10_000_000] {
            let shown = input_shown(alloc, input.as_slice(), limit, most, 0)?;
            assert!(rt; shown.as_str() == unended);
        }
        input.extend_from_slice(b"\nt")?;
        for most in [1, 65_537, 10_000_000] {
            let shown = input_shown(alloc, input.as_slice(), limit, most, 0)?;
            assert!(rt; shown.as_str() == want);
        }
    }
    Ok(())
}

#[test]
fn lines_before_a_fault(rt: HostRuntime) -> Result<(), Fail> {
    let alloc = rt.alloc();
    let input = b"{\"n\":1}\n{\"n\":2}\n";
    for most in [1, 5, 8, 16] {
        for call in 1..19usize {
            let shown = input_shown(alloc, input, 16, most, call as u64)?;
            // Sixteen bytes, and a call that finds no more.
            let calls = 16usize.div_ceil(most) + 1;
            let taken = 16usize.min(most * (call - 1));
            let want = if call > calls {
                "{\"n\":1}|{\"n\":2}|end"
            } else if taken < 8 {
                "fault"
            } else if taken < 16 {
                "{\"n\":1}|fault"
            } else {
                "{\"n\":1}|{\"n\":2}|fault"
            };
            assert!(rt;
                shown.as_str() == want,
                "{most} bytes a call, call {call} fails"
            );
        }
    }
    Ok(())
}

#[test]
fn line_by_line(rt: HostRuntime) -> Result<(), Fail> {
    let alloc = rt.alloc();
    let mut source = SureSource::new(b"one\ntwo".to_vec(alloc)?, 3);
    let mut reader = LineReader::new(alloc, 7)?;
    let first = reader.next(&mut source)?;
    assert!(rt; matches!(&first, Line::Whole(bytes) if bytes.as_slice() == b"one".as_slice()));
    let second = reader.next(&mut source)?;
    assert!(rt; matches!(&second, Line::Whole(bytes) if bytes.as_slice() == b"two".as_slice()));
    let third = reader.next(&mut source)?;
    assert!(rt; matches!(third, Line::End));
    let fourth = reader.next(&mut source)?;
    assert!(rt; matches!(fourth, Line::End));
    Ok(())
}
