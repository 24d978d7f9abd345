use dxc_host::{HostOpener, TermLink};
use dxc_outside::{Came, Clock, Gate, GatePlace, Got, Link, Listener, Opened, Opener, Put, Sent};
use std::io::Read;
use std::net::{TcpListener, TcpStream};
use std::test::Fail;

#[test]
fn a_terminal_reads_and_writes(rt: HostRuntime) -> Result<(), Fail> {
    let mut written = Vec::new(rt.alloc());
    let (mut link, _gate) = TermLink::new(
        rt.alloc(),
        b"abc".as_slice(),
        &mut written,
        rt.clone()?,
    )?;
    let mut piece = [0u8; 2];
    assert!(rt; link.read(&mut piece) == Got::Bytes(2) && piece == *b"ab");
    assert!(rt; link.read(&mut piece) == Got::Bytes(1) && piece == *b"cb");
    assert!(rt; link.read(&mut piece) == Got::End);
    assert!(rt; link.write(b"xyz") == Put::Took(3));
    assert!(rt; link.finish() == Sent::Whole);
    assert!(rt; written.as_slice() == b"xyz".as_slice());
    Ok(())
}

// What is written before the first read goes out at once, and what is written after it before the next.
#[test]
fn a_full_terminal_fails_as_it_is_written_out(rt: HostRuntime) -> Result<(), Fail> {
    let alloc = rt.alloc();
    let mut piece = [0u8; 1];
    let (mut three, mut one) = ([0u8; 3], [0u8; 1]);
    let (mut link, _gate) = TermLink::new(alloc, b"abc".as_slice(), three.as_mut_slice(), rt)?;
    assert!(rt; link.write(b"wx") == Put::Took(2));
    assert!(rt; link.read(&mut piece) == Got::Bytes(1));
    assert!(rt; link.write(b"yz") == Put::Took(2));
    assert!(rt; link.read(&mut piece) == Got::Failed);
    assert!(rt; link.finish() == Sent::Whole, "nothing is left");
    let (mut link, _gate) = TermLink::new(alloc, b"abc".as_slice(), one.as_mut_slice(), rt)?;
    assert!(rt; link.read(&mut piece) == Got::Bytes(1));
    assert!(rt; link.write(b"yz") == Put::Took(2));
    assert!(rt; link.finish() == Sent::Cut);
    Ok(())
}

// A link's first write after a change may be its answer.
#[test]
fn a_changes_answer_goes_out_at_once(rt: HostRuntime) -> Result<(), Fail> {
    let mut room = [0u8; 4];
    let mut piece = [0u8; 1];
    let made = TermLink::new(
        rt.alloc(),
        b"abc".as_slice(),
        room.as_mut_slice(),
        rt.clone()?,
    )?;
    let (mut link, mut gate) = made;
    assert!(rt; link.read(&mut piece) == Got::Bytes(1));
    assert!(rt; link.write(b"xy") == Put::Took(2));
    assert!(rt; gate.pass(GatePlace::Register) == Ok(()));
    assert!(rt; link.write(b"z") == Put::Took(1));
    assert!(rt; gate.pass(GatePlace::Journal) == Ok(()));
    assert!(rt; link.write(b"uv") == Put::Failed, "five bytes are too many");
    assert!(rt; link.finish() == Sent::Whole);
    Ok(())
}

// Two listeners at one address share their callers, of whom one is a peer.
#[test]
fn callers_are_heard(rt: HostRuntime) -> Result<(), Fail> {
    let alloc = rt.alloc();
    let mut opener = HostOpener::new(rt, Vec::new(alloc));
    let free = TcpListener::bind(&rt, "127.0.0.1:0")?.local_addr()?;
    let address = format!(in alloc; "{free}")?;
    let address = address.as_str();
    assert!(rt; matches!(opener.peer(alloc, "no address"), Opened::Failed));
    assert!(rt; matches!(opener.listener(alloc, "no address"), Opened::Failed));
    let (Opened::Open(mut front), Opened::Open(mut back)) = (
        opener.listener(alloc, address),
        opener.listener(alloc, address),
    ) else {
        return Err("not bound twice".into());
    };
    let Opened::Open(mut peer) = opener.peer(alloc, address) else {
        return Err("nobody listens".into());
    };
    let _caller = TcpStream::connect(&rt, free)?;
    let (Came::Link(mut link), Came::Link(_other)) = (front.accept(&rt), back.accept(&rt)) else {
        return Err("nobody called".into());
    };
    let mut piece = [0u8; 2];
    let mut late = TcpStream::connect(&rt, free)?;
    assert!(rt; link.read(&mut piece) == Got::Quiet);
    let mut told = Vec::new(alloc);
    late.read_to_end(&mut told)?;
    assert!(rt; told.as_slice() == b"dxc: all places are taken, call again later\r\n".as_slice());
    assert!(rt; peer.write(b"ab") == Put::Took(2));
    assert!(rt; link.read(&mut piece) == Got::Bytes(2) && piece == *b"ab");
    assert!(rt; link.write(b"c") == Put::Took(1));
    assert!(rt; peer.read(&mut piece) == Got::Quiet, "it is collected");
    assert!(rt; link.read(&mut piece) == Got::Quiet);
    assert!(rt; peer.read(&mut piece) == Got::Bytes(1) && piece == *b"cb");
    assert!(rt; link.write(b"d") == Put::Took(1));
    drop(link);
    assert!(rt; peer.read(&mut piece) == Got::Bytes(1) && piece == *b"db");
    assert!(rt; peer.read(&mut piece) == Got::End);
    assert!(rt;
        25 <= opener.clock().now().year,
        "it shows a year of this program's life"
    );
    Ok(())
}
