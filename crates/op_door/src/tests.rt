//! A door in memory, and one on a port of this machine.
use crate::{Conn, Door, MemoryDoor, Next, TcpDoor, Told};
use op_ports::{MemorySink, MemorySource, Sink, Source};
use std::alloc::{AllocError, Global};
use std::io;
use std::io::{Read, Write};
use std::net::{Net, TcpListener, TcpStream};
use std::test::Fail;

/// A request with a body of four bytes, in two pieces.
const FRONT: &[u8] = b"POST /grant HTTP/1.1\r\nContent-Length: 4\r\n\r\nbo";

const REST: &[u8] = b"dy";

fn conn(alloc: Global, bytes: &[u8]) -> Result<Conn<MemorySource, MemorySink>, AllocError> {
    Ok(Conn {
        reads: MemorySource::new(Vec::from_slice(alloc, bytes)?, 7, Vec::new(alloc)),
        writes: MemorySink::new(Vec::new(alloc), 7, Vec::new(alloc)),
    })
}

#[test]
fn a_door_in_memory_gives_what_it_was_told(rt: HostRuntime) -> Result<(), Fail> {
    let alloc = rt.alloc();
    let coming = vec![in alloc;
        Told::Conn(conn(alloc, b"a")?),
        Told::Nothing,
        Told::Conn(conn(alloc, b"b")?),
    ]?;
    let mut door = MemoryDoor::new(alloc, coming, Vec::from_slice(alloc, &[1])?)?;
    let Next::Conn(first) = door.next() else {
        assert!(rt; false);
        return Ok(());
    };
    assert!(rt; first.reads.left() == b"a".as_slice());
    assert!(rt; matches!(door.next(), Next::Failed) && door.faults() == 1);
    assert!(rt; matches!(door.next(), Next::Nothing));
    door.finish(first);
    let Next::Conn(second) = door.next() else {
        assert!(rt; false);
        return Ok(());
    };
    assert!(rt; second.reads.left() == b"b".as_slice());
    assert!(rt; matches!(door.next(), Next::Closed) && door.given() == 1);
    assert!(rt; door.finished().len() == 1);
    Ok(())
}

/// A port that nobody listens at now.
fn free_port<R: Net<Listener = TcpListener, Stream = TcpStream>>(rt: &R) -> io::Result<u16> {
    let listener = TcpListener::bind(rt, ("127.0.0.1", 0))?;
    Ok(listener.local_addr()?.port())
}

#[test]
fn a_silent_peer_holds_up_nobody(rt: HostRuntime) -> Result<(), Fail> {
    let alloc = rt.alloc();
    let port = free_port(&rt)?;
    let mut door = TcpDoor::new(alloc, rt.clone()?, port);
    assert!(rt; matches!(door.next(), Next::Nothing));
    let silent = TcpStream::connect(&rt, ("127.0.0.1", port))?;
    let mut peer = TcpStream::connect(&rt, ("127.0.0.1", port))?;
    peer.write_all(FRONT)?;
    assert!(rt; matches!(door.next(), Next::Nothing));
    peer.write_all(REST)?;
    let Next::Conn(mut conn) = door.next() else {
        assert!(rt; false);
        return Ok(());
    };
    let (mut front, mut rest) = ([0; 45], [0; 2]);
    assert!(rt; matches!(conn.reads.take(&mut front), Ok(45)));
    assert!(rt; matches!(conn.reads.take(&mut rest), Ok(2)));
    assert!(rt; front.as_slice() == FRONT && rest.as_slice() == REST);
    assert!(rt; matches!(conn.writes.put(b"ok"), Ok(2)));
    door.finish(conn);
    let mut reply = [0; 2];
    assert!(rt; matches!(peer.read(&mut reply), Ok(2)));
    assert!(rt; reply == *b"ok");
    drop(silent);
    Ok(())
}
