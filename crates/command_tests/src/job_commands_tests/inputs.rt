//! Inputs and sinks of every kind.

use super::worlds::{Pieces, WHOLE, ran};
use command_parts::Status;
use std::test::Fail;

const JOB: &[u8] = b"{\"context\":\"field\",\"script\":\"1\"}";

const SHORT: &[u8] = b"{\"context\":\"field\",\"limits\":{\"input\":3},\"script\":\"1\"}";

#[test]
fn pieces(rt: HostRuntime) -> Result<(), Fail> {
    let alloc = rt.alloc();
    let one_by_one = Pieces {
        taken: 1,
        given: 1,
        ..WHOLE
    };
    let replies = b"{\"result\":1}\n{\"error\":{\"kind\":\"line-syntax\"}}\n{\"result\":1}\n";
    for pieces in [WHOLE, one_by_one] {
        // The last line ends in the middle of a character, and the one behind it without a newline.
        let answer = ran(alloc, JOB, b"{}\n{\"\xc3\n{}", &pieces)?;
        assert!(rt; answer.0.as_slice() == replies.as_slice());
        assert_eq!(rt; answer.1, Status::SomeErrors);
        // The input itself ends in the middle of one.
        let answer = ran(alloc, JOB, b"{}\r\n{\"a\":\"\xc3", &pieces)?;
        let replies = b"{\"result\":1}\n{\"error\":{\"kind\":\"line-syntax\"}}\n";
        assert!(rt; answer.0.as_slice() == replies.as_slice());
        assert_eq!(rt; answer.1, Status::SomeErrors);
    }
    Ok(())
}

#[test]
fn faults(rt: HostRuntime) -> Result<(), Fail> {
    let alloc = rt.alloc();
    let reply = b"{\"result\":1}\n";
    // The second call of the source fails, behind a line and a part of one.
    let broken = Pieces {
        taken: 5,
        source_fails: 2,
        ..WHOLE
    };
    let answer = ran(alloc, JOB, b"{}\n{}\n{}\n", &broken)?;
    assert!(rt; answer.0.as_slice() == reply.as_slice());
    assert_eq!(rt; answer.1, Status::ReadFault);
    let full = Pieces {
        sink_fails: 1,
        ..WHOLE
    };
    let answer = ran(alloc, JOB, b"{}\n", &full)?;
    assert_eq!(rt; answer.0.len(), 0);
    assert_eq!(rt; answer.1, Status::WriteFault);
    // As many bytes as may be, and one more.
    let answer = ran(alloc, SHORT, b"{}\n{}\n", &WHOLE)?;
    assert!(rt; answer.0.as_slice() == reply.as_slice());
    assert_eq!(rt; answer.1, Status::InputLong);
    let answer = ran(alloc, SHORT, b"{}\n", &WHOLE)?;
    assert!(rt; answer.0.as_slice() == reply.as_slice());
    assert_eq!(rt; answer.1, Status::Done);
    Ok(())
}

#[test]
fn the_limit_of_a_line(rt: HostRuntime) -> Result<(), Fail> {
    let alloc = rt.alloc();
    let mut line = vec![in alloc; b' '; 1_048_574]?;
    line.extend_from_slice(b"{}\n{}\n")?;
    let answer = ran(alloc, JOB, line.as_slice(), &WHOLE)?;
    assert!(rt; answer.0.as_slice() == b"{\"result\":1}\n{\"result\":1}\n".as_slice());
    let mut line = vec![in alloc; b' '; 1_048_575]?;
    line.extend_from_slice(b"{}\n{}\n")?;
    let answer = ran(alloc, JOB, line.as_slice(), &WHOLE)?;
    assert!(rt;
        answer.0.as_slice() == b"{\"error\":{\"kind\":\"line-long\"}}\n{\"result\":1}\n".as_slice()
    );
    Ok(())
}
