// A station's connection as a link.
ghost use Rattle.std.specs.Prelude.{◌≡◌, None};

use crate::interrupted::read_on;
use hk_outside::{Link, LinkGot};
use mio::net::TcpStream;
use std::io::ErrorKind;

/// A connection that doesn't block, with a count of the reads that failed. Nothing is told of its bytes.
#[derive(Drop)]
pub struct NetLink {
    pub(crate) stream: TcpStream,
    faults: u64,
}

impl NetLink {
    /// No read has failed yet.
    pub fn new(stream: TcpStream) -> NetLink
        ensures { result.faults ≡ 0 }
    {
        NetLink { stream, faults: 0 }
    }

    /// How many reads have failed.
    pub fn faults(&self) -> u64
        ensures { result ≡ self.now.faults }
    {
        self.faults
    }
}

impl Link for NetLink {
    ghost left = { λ l. None };

    ghost faults = { λ l. l.faults };

    fn read(&mut self, into: &mut [u8]) -> LinkGot {
        match read_on(&mut self.stream, into) {
            Ok(0) => LinkGot::End,
            Ok(count) => LinkGot::Bytes(count),
            Err(e) if e.kind() == ErrorKind::WouldBlock => LinkGot::NotYet,
            Err(_) => {
                self.faults = self.faults.saturating_add(1);
                LinkGot::Failed
            }
        }
    }
}
