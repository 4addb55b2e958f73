//! A line over a real TCP port and its clients, taking turns, as a test.

use std::io::{Read, Write};
use std::net::{Ipv4Addr, Net, TcpStream};
use std::process::Abort;
use std::test::Fail;
use wd_http::{Failed, Line};
use webdriverd::TcpLine;

/// Opens the line at the first port from 47,100 on that nothing else listens at.
fn opened<R: Net>(line: &mut TcpLine<'_, R>) -> Result<u16, Failed> {
    for port in 47_100..47_400 {
        if line.open(port).is_ok() {
            return Ok(port);
        }
    }
    Err(Failed)
}

/// Reads from the line: how many bytes came, none where the read failed.
fn came<R: Net>(line: &mut TcpLine<'_, R>, into: &mut [u8]) -> usize {
    line.read(into).unwrap_or(0)
}

#[test]
fn a_line_and_its_clients_take_turns(rt: HostRuntime) -> Result<(), Fail> {
    let mut line = TcpLine::new(&rt);
    let Ok(port) = opened(&mut line) else {
        assert!(rt; false);
        return Ok(());
    };
    let mut piece = [0u8; 8];
    for message in [b"ask", b"two"] {
        let mut client = TcpStream::connect(&rt, (Ipv4Addr::LOCALHOST, port))?;
        assert!(rt; line.next().is_ok());
        client.write_all(message)?;
        assert_eq!(rt; came(&mut line, &mut piece), 3);
        assert_eq!(rt; &piece[..3], message.as_slice());
        assert!(rt; line.write(b"told").is_ok());
        line.hang_up();
        let mut answer = Vec::new(rt.alloc());
        client.read_to_end(&mut answer)?;
        assert_eq!(rt; answer.as_slice(), b"told".as_slice());
    }
    // one that has gone ends its connection and nothing else
    drop(TcpStream::connect(&rt, (Ipv4Addr::LOCALHOST, port))?);
    assert!(rt; line.next().is_ok());
    assert_eq!(rt; came(&mut line, &mut piece), 0);
    line.hang_up();
    let client = TcpStream::connect(&rt, (Ipv4Addr::LOCALHOST, port))?;
    assert!(rt; line.next().is_ok());
    drop(client);
    Ok(())
}
