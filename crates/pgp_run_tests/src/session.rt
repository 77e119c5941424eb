//! A session answers the longest line that may be, as the library for C gives it, and refuses one that is longer.
use pgp_core::{Format, LONGEST_LINE, Session};
use std::alloc::{AllocError, Global};
use std::test::Fail;

/// A line that closes the log, with blanks behind it up to this many bytes.
fn close_line(alloc: Global, bytes: usize) -> Result<Vec<u8>, AllocError> {
    let mut line = Vec::new(alloc);
    line.extend_from_slice(b"{\"op\":\"close\"}")?;
    for _ in line.len()..bytes {
        line.push(b' ')?;
    }
    Ok(line)
}

#[test]
fn the_longest_line_has_its_answer(rt: HostRuntime) -> Result<(), Fail> {
    let alloc = rt.alloc();
    let mut session = Session::new(alloc, Format::Two);
    let longer = close_line(alloc, LONGEST_LINE + 1)?;
    assert!(rt; session.answer(longer.as_slice()).is_ok());
    assert!(rt; session.last_answer() == b"{\"code\":30,\"refused\":\"LineTooLong\"}\n".as_slice());
    let longest = close_line(alloc, LONGEST_LINE)?;
    assert!(rt; session.answer(longest.as_slice()).is_ok());
    assert!(rt;
        session.last_answer() == b"{\"count\":1,\"epoch\":0,\"ok\":\"close\"}\n".as_slice()
    );
    Ok(())
}
