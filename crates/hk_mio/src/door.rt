// The door of the real outside: two ports, connections, and logs in files.
ghost use Rattle.std.specs.Prelude.{◌≡◌, IfOk, []};
ghost use Rattle.hk_base.specs.Devices.{Rose};
ghost use Rattle.hk_outside.specs.declared.door.DoorFault.TheVariants as faults;
ghost use Rattle.hk_outside.specs.declared.door.Start.TheVariants as starts;
ghost use Rattle.hk_mio.specs.Doors.{start_of};
ghost use Rattle.hk_mio.specs.declared.door.State.TheVariants as states;

use crate::{NetGate, NetLink, StdSink, StdSource};
use hk_outside::{Calls, Door, DoorFault, Plan};
use std::fs::{File, Files};
use std::io::ErrorKind;
use std::net::{Net, TcpListener, TcpStream};
use std::{io, mem};

// One seat for each number that stations and gates can have.
const SEATS: usize = 256;

/// Where objects are, and the counts of faults with which they came back.
#[derive(Clone, Copy, Drop)]
pub enum Seat<T> {
    Inside,
    Outside,
    Back(T),
}

/// A plan that is carried out: the calls so far, and the ports that stations and the operator connect to.
#[derive(Drop)]
pub struct Opened {
    plan: Plan,
    asked: Calls,
    stations: TcpListener,
    operators: TcpListener,
}

/// Whether the door was started, and with what.
#[derive(Drop)]
pub enum State {
    Unstarted,
    Started(Opened),
    Refused(Option<Plan>),
}

/// Two ports of this machine. The n-th connection on the port of stations, from 0, is station n, and its log is the file
/// `<logs>-<n>.log`, made anew. The operator is one connection on the other port. It tells no bytes, and counts its faults.
#[derive(Drop)]
pub struct NetDoor<R> {
    rt: R,
    state: State,
    stations: [Seat<(u64, u64)>; 256],
    operator: Seat<(u64, u64)>,
    gates: [Seat<u64>; 256],
    faults: u64,
}

impl<R> NetDoor<R>
where
    R: Net<Listener = TcpListener, Stream = TcpStream> + Files<File = File> + AllocGlobal + Drop,
{
    ghost use Rattle.hk_mio.specs.Doors.{doorway_of};

    /// A door that isn't started.
    pub fn new(rt: R) -> NetDoor<R>
        ensures start { (doorway_of result).start ≡ starts.Unstarted }
        ensures faults { result.faults ≡ 0 }
    {
        NetDoor {
            rt,
            state: State::Unstarted,
            stations: [Seat::Inside; SEATS],
            operator: Seat::Inside,
            gates: [Seat::Inside; SEATS],
            faults: 0,
        }
    }
}

// Counts what isn't want of memory.
fn fault_of(count: &mut u64, e: io::Error) -> DoorFault
    ensures rose { result ≡ faults.Failed → Rose count.old count.new }
    ensures same { result ≡ faults.NoMemory → count.new ≡ count.old }
{
    match e.kind() {
        ErrorKind::OutOfMemory => DoorFault::NoMemory,
        _ => {
            *count = count.saturating_add(1);
            DoorFault::Failed
        }
    }
}

// Takes what a door has opened, to be put back.
fn take_opened(state: &mut State) -> Opened
    requires { start_of state.old ≡ starts.Started }
    ensures { state.old ≡ states.Started result }
{
    match mem::replace(state, State::Unstarted) {
        State::Started(opened) => opened,
        _ => unreachable!(),
    }
}

// Takes the next connection on the port of stations and makes its log.
fn connected<R: Files<File = File> + AllocGlobal>(
    rt: &R,
    opened: &Opened,
    number: u8,
) -> io::Result<(NetLink, StdSink<File>)>
    ensures link { IfOk result (λ pair. pair.0.faults ≡ 0) }
    ensures log { IfOk result (λ pair. pair.1.faults ≡ 0) }
{
    let (stream, _) = opened.stations.accept()?;
    stream.set_nonblocking(true)?;
    let name = format!(in rt.alloc(); "{}-{}.log", opened.plan.logs, number)?;
    let log = File::create(rt, name.as_str())?;
    Ok((
        NetLink::new(mio::net::TcpStream::from_std(stream)),
        StdSink::new(log),
    ))
}

// Takes the operator's connection, which is read and written by handles of its own.
fn operated(opened: &Opened) -> io::Result<(StdSource<TcpStream>, StdSink<TcpStream>)>
    ensures calls { IfOk result (λ pair. pair.0.faults ≡ 0) }
    ensures replies { IfOk result (λ pair. pair.1.faults ≡ 0) }
{
    let (stream, _) = opened.operators.accept()?;
    let replies = stream.try_clone()?;
    Ok((StdSource::new(stream), StdSink::new(replies)))
}

// Listens on both ports.
fn listening<R>(rt: &R, plan: &Plan) -> io::Result<(Calls, TcpListener, TcpListener)>
where
    R: Net<Listener = TcpListener, Stream = TcpStream> + AllocGlobal,
    ensures { IfOk result (λ opened. opened.0.made.items ≡ []) }
{
    let asked = match Calls::new(rt.alloc()) {
        Ok(asked) => asked,
        Err(_) => return Err(io::Error::from(ErrorKind::OutOfMemory)),
    };
    let address = plan.address.as_str();
    let stations = TcpListener::bind(rt, (address, plan.station_port))?;
    let operators = TcpListener::bind(rt, (address, plan.operator_port))?;
    Ok((asked, stations, operators))
}

impl<R> Door for NetDoor<R>
where
    R: Net<Listener = TcpListener, Stream = TcpStream> + Files<File = File> + AllocGlobal + Drop,
{
    ghost use Rattle.hk_mio.specs.Doors.{doorway_of};

    type Link = NetLink;

    type Log = StdSink<File>;

    type Gate = NetGate;

    type Calls = StdSource<TcpStream>;

    type Replies = StdSink<TcpStream>;

    ghost doorway = { doorway_of };

    fn start(&mut self, plan: &Plan) -> Result<(), DoorFault> {
        let plan = match plan.copied() {
            Ok(plan) => plan,
            Err(_) => {
                self.state = State::Refused(None);
                return Err(DoorFault::NoMemory);
            }
        };
        match listening(&self.rt, &plan) {
            Ok((asked, stations, operators)) => {
                self.state = State::Started(Opened {
                    plan,
                    asked,
                    stations,
                    operators,
                });
                Ok(())
            }
            Err(e) => {
                let fault = fault_of(&mut self.faults, e);
                self.state = State::Refused(match fault {
                    DoorFault::Failed => Some(plan),
                    DoorFault::NoMemory => None,
                });
                Err(fault)
            }
        }
    }

    fn station(&mut self, number: u8) -> Result<(NetLink, StdSink<File>), DoorFault> {
        let mut opened = take_opened(&mut self.state);
        let given = match self.stations[number as usize] {
            Seat::Inside => connected(&self.rt, &opened, number),
            _ => Err(io::Error::from(ErrorKind::AlreadyExists)),
        };
        match given {
            Ok(pair) => {
                opened.asked.add_station(number, true);
                self.state = State::Started(opened);
                self.stations[number as usize] = Seat::Outside;
                Ok(pair)
            }
            Err(e) => {
                opened.asked.add_station(number, false);
                self.state = State::Started(opened);
                Err(fault_of(&mut self.faults, e))
            }
        }
    }

    fn operator(&mut self) -> Result<(StdSource<TcpStream>, StdSink<TcpStream>), DoorFault> {
        let mut opened = take_opened(&mut self.state);
        let given = match self.operator {
            Seat::Inside => operated(&opened),
            _ => Err(io::Error::from(ErrorKind::AlreadyExists)),
        };
        match given {
            Ok(pair) => {
                opened.asked.add_operator(true);
                self.state = State::Started(opened);
                self.operator = Seat::Outside;
                Ok(pair)
            }
            Err(e) => {
                opened.asked.add_operator(false);
                self.state = State::Started(opened);
                Err(fault_of(&mut self.faults, e))
            }
        }
    }

    fn gate(&mut self) -> Result<NetGate, DoorFault> {
        let mut opened = take_opened(&mut self.state);
        let next = opened.asked.gates_given() as usize;
        let given = match self.gates[next] {
            Seat::Inside => NetGate::new(&self.rt),
            _ => Err(io::Error::from(ErrorKind::AlreadyExists)),
        };
        let most = opened.plan.workers;
        match given {
            Ok(gate) => {
                opened.asked.add_gate(most, true);
                self.state = State::Started(opened);
                self.gates[next] = Seat::Outside;
                Ok(gate)
            }
            Err(e) => {
                opened.asked.add_gate(most, false);
                self.state = State::Started(opened);
                Err(fault_of(&mut self.faults, e))
            }
        }
    }

    fn return_station(&mut self, number: u8, link: NetLink, log: StdSink<File>) {
        self.stations[number as usize] = Seat::Back((link.faults(), log.faults()));
    }

    fn return_operator(&mut self, calls: StdSource<TcpStream>, replies: StdSink<TcpStream>) {
        self.operator = Seat::Back((calls.faults(), replies.faults()));
    }

    fn return_gate(&mut self, worker: u8, gate: NetGate) {
        self.gates[worker as usize] = Seat::Back(gate.faults());
    }
}
