//! A link in memory, and one to ports of this machine.
use crate::{Link, LinkFault, MemoryLink, TcpLink};
use std::net::TcpListener;
use std::test::Fail;
use std::time::{Duration, Instant};

#[test]
fn a_link_in_memory_keeps_what_was_posted(rt: HostRuntime) -> Result<(), Fail> {
    let alloc = rt.alloc();
    let mut link = MemoryLink::new(alloc, Some([7; 32]), 204, Vec::from_slice(alloc, &[1])?);
    assert_eq!(rt; link.post(b"one"), Ok(204));
    assert_eq!(rt; link.post(b"two"), Err(LinkFault));
    assert_eq!(rt; link.post(b"three"), Ok(204));
    assert!(rt; link.faults() == 1 && link.posted().len() == 3);
    assert!(rt; matches!(link.posted().get(1), Some(post) if post.outcome == 0));
    assert!(rt;
        matches!(link.posted().last(), Some(post) if post.message.as_slice() == b"three".as_slice())
    );
    Ok(())
}

/// The first post waits for the answer that does not come; the second is refused at once.
#[test]
fn a_hook_that_does_not_answer_stops_nobody(rt: HostRuntime) -> Result<(), Fail> {
    let listener = TcpListener::bind(&rt, ("127.0.0.1", 0))?;
    let port = listener.local_addr()?.port();
    let mut link = TcpLink::new(rt.clone()?, port, Some([7; 32]));
    assert_eq!(rt; link.post(b"POST / HTTP/1.1\r\n\r\n"), Err(LinkFault));
    let began = Instant::now(&rt)?;
    assert_eq!(rt; link.post(b"POST / HTTP/1.1\r\n\r\n"), Err(LinkFault));
    assert!(rt; began.elapsed(&rt)? < Duration::from_millis(150));
    Ok(())
}
