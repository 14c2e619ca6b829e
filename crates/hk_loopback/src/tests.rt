// The streams of the worked example over the real door: one recording, one publish, and 256 prints that it has. Which version
// the look finds is free.
use hk_base::MemorySink;
use hk_mio::NetDoor;
use hk_monitor_top::{Kept, monitor_top};
use std::io::{Read, Write};
use std::net::{Ipv4Addr, SocketAddr, TcpListener, TcpStream};
use std::test::Fail;
use std::time::Duration;
use std::{fs, io, thread};

// How often a connection is tried, a hundredth of a second apart.
const MOST_TRIES: u32 = 2000;

const REPLIES: &[u8] = b"O 1 ok\nO 2 published 1\n";

const BEFORE: &[u8] = b"S 0 B 0 G 0 W 0 V 0: none\n";

const AFTER: &[u8] = b"S 0 B 0 G 0 W 0 V 1: 7@0~0\n";

const SUMMARY_BEFORE: &[u8] = b"T S 0 1 0 ended\nT O 2 1 ended\n";

const SUMMARY_AFTER: &[u8] = b"T S 0 1 1 ended\nT O 2 1 ended\n";

// The ports of a monitor.
#[derive(Clone, Copy)]
struct Ports {
    station: u16,
    operator: u16,
}

// A port that nobody listens on now.
fn free_port(rt: &HostRuntime) -> io::Result<u16> {
    let listener = TcpListener::bind(rt, SocketAddr::from((Ipv4Addr::LOCALHOST, 0)))?;
    Ok(listener.local_addr()?.port())
}

// The words of a small monitor with one station and one worker.
fn words(rt: &HostRuntime, ports: Ports) -> Result<Vec<String>, Fail> {
    let text = format!(in rt.alloc();
        "--stations 1 --workers 1 --songs 2 --positions 256 --station-port {} --operator-port {}",
        ports.station, ports.operator
    )?;
    let mut words = Vec::new(rt.alloc());
    for word in text.as_str().split(' ') {
        words.push(format!(in rt.alloc(); "{}", word)?)?;
    }
    Ok(words)
}

// Words 0 to 255 as bytes, each with so many zeros behind it.
fn add_words(bytes: &mut Vec<u8>, zeros: usize) -> io::Result<()> {
    for n in 0..=255u8 {
        bytes.extend_from_slice(&[0, 0, 0, n])?;
        for _ in 0..zeros {
            bytes.push(0)?;
        }
    }
    Ok(())
}

// A connection, once the port listens.
fn connected(rt: &HostRuntime, port: u16) -> io::Result<TcpStream> {
    for _ in 0..MOST_TRIES {
        if let Ok(stream) = TcpStream::connect(rt, (Ipv4Addr::LOCALHOST, port)) {
            return Ok(stream);
        }
        thread::sleep(rt, Duration::from_millis(10));
    }
    TcpStream::connect(rt, (Ipv4Addr::LOCALHOST, port))
}

// Is the station and the operator: sends 256 prints, and recording 7 of their words with a publish, reads the replies, and
// closes both connections.
fn speak(rt: &HostRuntime, ports: Ports) -> io::Result<[u8; 23]> {
    let mut station = connected(rt, ports.station)?;
    let mut operator = connected(rt, ports.operator)?;
    let mut prints = Vec::new(rt.alloc());
    prints.extend_from_slice(b"HKS1\x00\x01\x01\x08\x00")?;
    add_words(&mut prints, 4)?;
    station.write_all(&prints)?;
    let mut commands = Vec::new(rt.alloc());
    commands.extend_from_slice(b"HKO1\x01\x00\x00\x04\x04\x00\x00\x00\x07")?;
    add_words(&mut commands, 0)?;
    commands.extend_from_slice(b"\x06\x00\x00\x00\x00")?;
    operator.write_all(&commands)?;
    let mut replies = [0u8; 23];
    operator.read_exact(&mut replies)?;
    Ok(replies)
}

#[test]
fn a_station_and_an_operator_are_served_over_sockets(rt: HostRuntime) -> Result<(), Fail> {
    let ports = Ports {
        station: free_port(&rt)?,
        operator: free_port(&rt)?,
    };
    let words = words(&rt, ports)?;
    let mut out = MemorySink::new(rt.alloc(), 100, Vec::new(rt.alloc()))?;
    let (replies, status) = thread::join(
        &rt,
        || speak(&rt, ports),
        || {
            let mut door = NetDoor::new(&rt);
            let mut kept = None;
            let status = monitor_top(&&rt, rt.alloc(), &words, &mut door, &mut out, &mut kept);
            if let Some(Kept { desk, readings: _ }) = kept {
                desk.close(&&rt);
            }
            status
        },
    );
    assert_eq!(rt; status.code, 0);
    assert_eq!(rt; &replies?[..], REPLIES);
    let log = fs::read(&rt, "station-0.log")?;
    let summary = out.written();
    let before = log.as_slice() == BEFORE && summary == SUMMARY_BEFORE;
    let after = log.as_slice() == AFTER && summary == SUMMARY_AFTER;
    assert!(rt; before || after);
    Ok(())
}
