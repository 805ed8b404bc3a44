//! The system's own sockets, over `mio`. Each call is one of the system, and decides nothing.

ghost use Rattle.std.specs.Prelude.{◌↔◌, ◌⊎◌, ◌≡◌, ◌∷◌, [], None, IsTrue};
ghost use Rattle.socket_calls.specs.SocketCall.{with_socket_calls, listening_port};
ghost use Rattle.socket_calls.specs.SocketCall.SocketCall.{EndsListening};
ghost use Rattle.std.specs.IoError.{error_kind};

use crate::calls::{Arrival, ListeningAt, Peeked, SocketCalls};
use crate::table_text::FromStart;
use mio::net::{TcpListener, TcpStream};
use std::alloc::Global;
use std::fs::{Files, OpenOptions};
use std::io::{self, BufRead, BufReader, ErrorKind};
use std::net::{Ipv4Addr, Net, SocketAddr, SocketAddrV4};
use std::os::unix::fs::FileExt;
use std::rc::Rc;

/// Where Linux tells its sockets.
pub const SOCKET_TABLE: &str = "/proc/net/tcp";

/// The sockets of the system on 127.0.0.1, and its table of sockets, where it tells one. The table is opened once, so that no
/// lack of descriptors hides it later.
#[derive(Drop)]
pub struct SystemSockets<R: Net + Files + Drop>
where
    R::File: FileExt,
{
    rt: R,
    alloc: Global,
    table: Option<Rc<R::File>>,
    /// The reading of the table that was begun last.
    reading: Option<BufReader<FromStart<R::File>>>,
}

/// Whether a call that failed may be made again.
pub fn is_for_now(e: &io::Error) -> bool
    ensures { IsTrue result ↔ (error_kind e.now ≡ ErrorKind.WouldBlock)
        ⊎ (error_kind e.now ≡ ErrorKind.Interrupted) }
{
    matches!(e.kind(), ErrorKind::WouldBlock | ErrorKind::Interrupted)
}

fn of_ipv4(end: SocketAddr) -> Option<SocketAddrV4> {
    match end {
        SocketAddr::V4(end) => Some(end),
        SocketAddr::V6(_) => None,
    }
}

impl<R: Net + Files + Drop> SystemSockets<R>
where
    R::File: FileExt,
{
    /// The system's sockets, whose table is that file.
    pub fn new(rt: R, alloc: Global, table: &str) -> SystemSockets<R> {
        let table = match OpenOptions::new().read(true).open(&rt, table) {
            Ok(file) => Rc::new(alloc, file).ok(),
            Err(_) => None,
        };
        SystemSockets {
            rt,
            alloc,
            table,
            reading: None,
        }
    }
}

impl<R: Net + Files + Drop> SocketCalls for SystemSockets<R>
where
    R::File: FileExt,
{
    type Listener = TcpListener;

    type Waiting = TcpStream;

    type Conn = TcpStream;

    fn listen(&mut self, port: u16) -> io::Result<ListeningAt<TcpListener>> {
        let listener = TcpListener::bind(&self.rt, SocketAddr::from((Ipv4Addr::LOCALHOST, port)))?;
        let port = listener.local_addr()?.port();
        Ok(ListeningAt { listener, port })
    }

    fn accept(&mut self, at: &ListeningAt<TcpListener>) -> io::Result<Option<Arrival<TcpStream>>> {
        match at.listener.accept() {
            Ok((stream, peer)) => {
                let ours = stream.local_addr().ok().and_then(of_ipv4);
                Ok(Some(Arrival {
                    stream,
                    peer: of_ipv4(peer),
                    ours,
                }))
            }
            Err(e) if is_for_now(&e) => Ok(None),
            Err(e) => Err(e),
        }
    }

    fn peek(&mut self, stream: &TcpStream) -> Peeked {
        match stream.peek(&mut [0]) {
            Ok(0) => Peeked::End,
            Ok(_) => Peeked::Speech,
            Err(e) if is_for_now(&e) => Peeked::Nothing,
            Err(_) => Peeked::Break,
        }
    }

    fn begin_table(&mut self) -> bool {
        self.reading = None;
        let Some(table) = &self.table else {
            return false;
        };
        let Ok(file) = Rc::clone(table) else {
            return false;
        };
        self.reading = BufReader::new(self.alloc, FromStart { file, at: 0 }).ok();
        self.reading.is_some()
    }

    fn next_line(&mut self, line: &mut Vec<u8>) -> bool {
        line.clear();
        let Some(reader) = &mut self.reading else {
            return false;
        };
        let Ok(length) = reader.read_until(b'\n', line) else {
            return false;
        };
        if line.last() == Some(&b'\n') {
            let _ = line.pop();
        }
        length > 0
    }

    fn take(&mut self, stream: TcpStream) -> TcpStream {
        stream
    }

    fn close(&mut self, stream: TcpStream) {
        drop(stream);
    }

    fn end_listening(&mut self, at: ListeningAt<TcpListener>)
        /// The system's own sockets tell nothing.
        ensures { with_socket_calls (EndsListening (listening_port at) ∷ []) None ≡ None }
    {
        drop(at);
    }
}
