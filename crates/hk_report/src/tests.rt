// Each kind of line once, the texts by hand.
use crate::*;
use hk_base::MemorySink;
use std::test::Fail;

#[test]
fn each_line(rt: HostRuntime) -> Result<(), Fail> {
    let alloc = rt.alloc();
    let mut sink = MemorySink::new(alloc, 1000, Vec::new(alloc))?;
    let head = Head {
        station: 63,
        block: 12,
        segment: 1,
        first: 64,
        version: 2,
    };
    let found = [
        Match {
            id: 7,
            start: 0,
            errors: 2867,
        },
        Match {
            id: 8,
            start: 1,
            errors: 0,
        },
    ];
    let reply = Reply {
        number: 15,
        what: What::Refused(Reason::VersionsFull),
    };
    let print = Print {
        word: 0xdead0042,
        mask: 15,
    };
    write_line(&mut sink, &head, &found)?;
    write_line(&mut sink, &head, &[])?;
    write_reply(&mut sink, &reply)?;
    write_station(&mut sink, 0, 1, 2, &End::FenceAhead(9, 2))?;
    write_operator(&mut sink, 3, 2, &OpEnd::Wire(WireFault::Cut(100)))?;
    write_mismatch(&mut sink, 3, 1, 2)?;
    write_trouble(&mut sink, &Trouble::BadRecord(5))?;
    write_print(&mut sink, 255, &print)?;
    write_made(&mut sink, 96, 90, 4)?;
    let text = b"S 63 B 12 G 1 W 64 V 2: 7@0~2867 8@1~0\n\
        S 63 B 12 G 1 W 64 V 2: none\n\
        O 15 refused versions-full\n\
        T S 0 1 2 fence-ahead 9 2\n\
        T O 3 2 cut 100\n\
        T M 3 1 2\n\
        R bad-record 5\n\
        255 dead0042 0000000f\n\
        M blocks 96 matches 90 versions 4\n";
    assert_eq!(rt; sink.written(), text.as_slice());
    Ok(())
}

#[test]
fn a_full_sink(rt: HostRuntime) -> Result<(), Fail> {
    let alloc = rt.alloc();
    let mut sink = MemorySink::new(alloc, 5, Vec::new(alloc))?;
    assert_eq!(rt; write_mismatch(&mut sink, 3, 1, 2), Err(Failed));
    assert_eq!(rt; sink.written(), b"T M 3".as_slice());
    Ok(())
}

#[test]
fn a_print_is_one_write(rt: HostRuntime) -> Result<(), Fail> {
    let alloc = rt.alloc();
    let mut failing = Vec::new(alloc);
    failing.push(1)?;
    let mut sink = MemorySink::new(alloc, 100, failing)?;
    let print = Print {
        word: 0xdead0042,
        mask: 0x80000001,
    };
    write_print(&mut sink, u64::MAX, &print)?;
    assert_eq!(rt; write_print(&mut sink, 0, &print), Err(Failed));
    assert_eq!(rt;
        sink.written(),
        b"18446744073709551615 dead0042 80000001\n".as_slice()
    );
    Ok(())
}

#[test]
fn a_report_line(rt: HostRuntime) -> Result<(), Fail> {
    let text = b"S 63 B 12 G 0 W 64 V 1: 8@1~0 7@0~2867 8@1~0\n";
    let (head, items) = read_line(rt.alloc(), text)?;
    let last = Match {
        id: 8,
        start: 1,
        errors: 0,
    };
    assert_eq!(rt; (head.station, head.block, head.segment), (63, 12, 0));
    assert_eq!(rt; (head.first, head.version, items.len()), (64, 1, 3));
    assert_eq!(rt; (items[0], items[2]), (last, last));
    Ok(())
}

#[test]
fn a_line_of_one_match(rt: HostRuntime) -> Result<(), Fail> {
    let (head, items) = read_line(rt.alloc(), b"S 0 B 0 G 0 W 0 V 1: 7@0~0\n")?;
    let first = Match {
        id: 7,
        start: 0,
        errors: 0,
    };
    assert_eq!(rt; (head.station, head.block, head.segment), (0, 0, 0));
    assert_eq!(rt; (head.first, head.version, items.len()), (0, 1, 1));
    assert_eq!(rt; items[0], first);
    Ok(())
}

#[test]
fn the_greatest_numbers(rt: HostRuntime) -> Result<(), Fail> {
    let text =
        b"S 255 B 18446744073709551615 G 18446744073709551615 W 18446744073709551615 V 4294967295: 4294967295@4294967295~4294967295\n";
    let (head, items) = read_line(rt.alloc(), text)?;
    let greatest = Match {
        id: u32::MAX,
        start: u32::MAX,
        errors: u32::MAX,
    };
    assert_eq!(rt; (head.station, head.version), (u8::MAX, u32::MAX));
    assert_eq!(rt;
        (head.block, head.segment, head.first),
        (u64::MAX, u64::MAX, u64::MAX)
    );
    assert_eq!(rt; items.len(), 1);
    assert_eq!(rt; items[0], greatest);
    Ok(())
}

#[test]
fn other_texts(rt: HostRuntime) {
    let texts: [(&[u8], usize); 11] = [
        (b"", 0),
        (b"S 00", 3),
        (b"S 256", 4),
        (b"S 0 B 18446744073709551616", 25),
        (b"S 0 B 0 G 0 W 0 V 1: 7@0~0", 26),
        (b"S 0 B 0 G 0 W 0 V 1: 7@0~0 \n", 27),
        (b"S 0 B 0 G 0 W 0 V 4294967296", 27),
        (b"S 0  B 0 G 0 W 0 V 1: none\n", 4),
        (b"S 0 B 0 G 0 W 0 V 1: none 7@0~0\n", 25),
        (b"S 0 B 0 G 0 W 0 V 1: nono", 24),
        (b"S 0 B 0 G 0 W 0 V 1: none\nS", 26),
    ];
    for (text, place) in texts {
        match read_line(rt.alloc(), text) {
            Ok(_) => assert!(rt; false, "{place}"),
            Err(fault) => assert_eq!(rt; fault, LineFault::BadLine(place)),
        }
    }
}
