//! A job in a context whose reply needs its start.

use crate::first_bytes::{FirstBytes, Nothing};
use document_replies::{DocumentJob, ShownKeys, Stateless, run_lines};
use job_loading::Catalogue;
use outer_io::{SureSink, SureSource};
use std::test::Fail;

#[test]
fn first_bytes(rt: HostRuntime) -> Result<(), Fail> {
    let alloc = rt.alloc();
    let replier = DocumentJob {
        alloc,
        context: FirstBytes { alloc },
        keys: ShownKeys {
            members: true,
            steps: true,
        },
        script: Nothing {
            alloc,
            allow: Catalogue::full(alloc)?,
        },
    };
    let talker = Stateless { replier };
    let mut input = SureSource::new(Vec::from_slice(alloc, b"a\n \nbc\n")?, 3);
    let mut out = SureSink::new(alloc, 9);
    let ran = run_lines(alloc, &talker, Vec::new(alloc), 9, &mut input, &mut out);
    assert!(rt; ran.status.exit_status() == 0);
    assert!(rt; out.bytes() == b"97\n98\n".as_slice());
    Ok(())
}
