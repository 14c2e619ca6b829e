// Summaries of runs, and statuses.
use crate::{
    ENDED, End, IN_DISORDER, MISMATCH, OpEnd, OperatorEnd, StationEnd, WRITE_FAULT, write_summary,
};
use hk_base::{MemorySink, NoMemory};
use std::alloc::Global;

const FIRST: StationEnd = StationEnd {
    number: 0,
    blocks: 0,
    version: 0,
    end: End::SinkFault,
};

const SECOND: StationEnd = StationEnd {
    number: 1,
    blocks: 1,
    version: 1,
    end: End::Ended,
};

const OPERATOR: OperatorEnd = OperatorEnd {
    commands: 2,
    published: 1,
    end: OpEnd::Ended,
};

fn sink(alloc: Global) -> Result<MemorySink, NoMemory> {
    MemorySink::new(alloc, 1000, Vec::new(alloc))
}

#[test]
fn streams_in_order_have_status_0(rt: HostRuntime) -> Result<(), NoMemory> {
    let mut out = sink(rt.alloc())?;
    let status = write_summary(&[SECOND], &OPERATOR, &mut out);
    assert_eq!(rt; status.code, ENDED);
    assert_eq!(rt;
        out.written(),
        b"T S 1 1 1 ended\nT O 2 1 ended\n".as_slice()
    );
    Ok(())
}

#[test]
fn a_fault_of_one_stream_has_status_3(rt: HostRuntime) -> Result<(), NoMemory> {
    let mut out = sink(rt.alloc())?;
    let status = write_summary(&[FIRST, SECOND], &OPERATOR, &mut out);
    assert_eq!(rt; status.code, IN_DISORDER);
    assert_eq!(rt;
        out.written(),
        b"T S 0 0 0 sink-fault\nT S 1 1 1 ended\nT O 2 1 ended\n".as_slice()
    );
    let torn = OperatorEnd {
        end: OpEnd::SinkFault,
        ..OPERATOR
    };
    let status = write_summary(&[SECOND], &torn, &mut out);
    assert_eq!(rt; status.code, IN_DISORDER);
    Ok(())
}

#[test]
fn a_version_that_was_not_published_has_status_9(rt: HostRuntime) -> Result<(), NoMemory> {
    let mut out = sink(rt.alloc())?;
    let operator = OperatorEnd {
        published: 0,
        ..OPERATOR
    };
    let status = write_summary(&[FIRST, SECOND], &operator, &mut out);
    assert_eq!(rt; status.code, MISMATCH);
    assert_eq!(rt;
        out.written(),
        b"T S 0 0 0 sink-fault\nT S 1 1 1 ended\nT O 2 0 ended\nT M 1 1 0\n".as_slice()
    );
    Ok(())
}

#[test]
fn a_failed_write_has_status_6(rt: HostRuntime) -> Result<(), NoMemory> {
    let mut out = MemorySink::new(rt.alloc(), 20, Vec::new(rt.alloc()))?;
    let status = write_summary(&[SECOND], &OPERATOR, &mut out);
    assert_eq!(rt; status.code, WRITE_FAULT);
    assert_eq!(rt; out.written(), b"T S 1 1 1 ended\nT O ".as_slice());
    Ok(())
}
