//! Runs without words, and what is printed of them.

use rec_cli::{LockFile, PlacedRead, program};
use std::io;
use std::io::{ErrorKind, Read, Write};
use std::process::Abort;
use std::rt::Files;
use std::sync::Wait;
use std::test::Fail;
use std::thread::Threads;
use test_samples::assert_same;

/// The ARP filter, and the part of an ARP frame that a program sees.
const ARP: &str = "4,40 0 0 12,21 0 1 2054,6 0 0 4294967295,6 0 0 0,";

const VIEW: &str = "ffffffffffff0200000000010806";

/// Runs the program without words. The one caller of it, since each is a minute of proof.
fn run<
    R: AllocGlobal + Files + Threads + Wait + Sync,
    I: Read + Send + Drop,
    O: Write,
    E: Write + Send + Drop,
>(rt: &R, input: I, output: &mut O, errors: E) -> u8
where
    R::File: Send + LockFile + PlacedRead,
    R::Dir: Send,
{
    program(rt, &[], input, output, errors, false)
}

/// Runs the program on an input, and compares its status, output and errors.
fn check<R: AllocGlobal + Files + Threads + Wait + Sync + Abort>(
    rt: &R,
    input: &[u8],
    status: u8,
    output: &str,
    errors: &str,
)
where
    R::File: Send + LockFile + PlacedRead,
    R::Dir: Send,
{
    let mut out = Vec::new(rt.alloc());
    let mut err = Vec::new(rt.alloc());
    let ended = run(rt, input, &mut out, &mut err);
    assert_same!(*rt; ended, status, "{input:?}");
    assert_same!(*rt; out.as_slice(), output.as_bytes(), "{input:?}");
    assert_same!(*rt; err.as_slice(), errors.as_bytes(), "{input:?}");
}

#[test]
fn a_listing_and_a_view_give_value_and_steps(rt: HostRuntime) -> Result<(), Fail> {
    let table = &[
        (ARP, VIEW, "4294967295 3"),
        (ARP, "ffffffffffff0200000000010800", "0 3"),
        ("2,128 0 0 0,22 0 0 0,", VIEW, "14 2"),
        ("2,128 0 0 0,22 0 0 0,", "FFfF", "2 2"),
    ];
    for &(listing, view, answer) in table {
        let input = format!(in rt.alloc(); "{listing}\n{view}\n")?;
        let answer = format!(in rt.alloc(); "{answer}\n")?;
        check(&rt, input.as_bytes(), 0, answer.as_str(), "");
    }
    Ok(())
}

#[test]
fn lines_may_end_in_a_carriage_return_or_not_at_all(rt: HostRuntime) -> Result<(), Fail> {
    let table = &[
        "{ARP}\r\n{VIEW}\r\n",
        "{ARP}\n{VIEW}",
        "{ARP}\n{VIEW}\r",
        "{ARP}\n{VIEW}\nthis line is not judged\n",
    ];
    for &shape in table {
        let input = shape.replace(rt.alloc(), "{ARP}", ARP)?;
        let input = input.as_str().replace(rt.alloc(), "{VIEW}", VIEW)?;
        check(&rt, input.as_bytes(), 0, "4294967295 3\n", "");
    }
    check(&rt, b"2,128 0 0 0,22 0 0 0,", 0, "0 2\n", "");
    check(&rt, b"2,128 0 0 0,22 0 0 0,\n", 0, "0 2\n", "");
    Ok(())
}

#[test]
fn a_fault_has_its_line_its_stream_and_its_status(rt: HostRuntime) {
    // the input, the line on standard output, the line on standard error, and the status
    let table = &[
        ("", "", "listing 1 Syntax 0\n", 1),
        ("65535,", "", "listing 2 Count 65535 0\n", 1),
        ("1,6 0 0 4294967296,", "", "listing 3 Range 8\n", 1),
        ("0,", "refused 1 Empty\n", "", 1),
        ("2,2 0 0 16,6 0 0 0,", "refused 4 BadScratch 0\n", "", 1),
        (
            "4,1 0 0 0,0 0 0 8,52 0 0 0,6 0 0 1,",
            "refused 5 ZeroDivisor 2\n",
            "",
            1,
        ),
        (
            "2,5 0 0 4294967295,6 0 0 0,",
            "refused 6 JumpOut 0\n",
            "",
            1,
        ),
        ("2,6 0 0 0,7 0 0 0,", "refused 7 NoReturn\n", "", 1),
        (
            "5,40 0 0 12,21 0 1 2054,2 0 0 0,96 0 0 0,22 0 0 0,",
            "refused 8 Unset 3 0 0 1 3\n",
            "",
            1,
        ),
        // the view is judged after the program
        ("2,6 0 0 0,7 0 0 0,\nxy", "refused 7 NoReturn\n", "", 1),
        ("1,6 0 0 0,\nf", "", "view\n", 1),
        ("1,6 0 0 0,\nxy", "", "view\n", 1),
        ("1,6 0 0 0,\nff ff", "", "view\n", 1),
        ("1,6 0 0 0,\n\u{e9}", "", "view\n", 1),
    ];
    for &(input, output, errors, status) in table {
        check(&rt, input.as_bytes(), status, output, errors);
    }
    check(&rt, b"1,6 0 0 0,\n\nand \xff", 3, "", "file -\n");
}

#[test]
fn a_view_has_at_most_16379_bytes(rt: HostRuntime) -> Result<(), Fail> {
    let mut longest = String::from_str(rt.alloc(), "2,128 0 0 0,22 0 0 0,\n")?;
    for _ in 0..16_379 {
        longest.push_str("00")?;
    }
    check(&rt, longest.as_bytes(), 0, "16379 2\n", "");
    longest.push_str("00")?;
    check(&rt, longest.as_bytes(), 1, "", "view\n");
    Ok(())
}

/// A device that answers each call with an error.
#[derive(Clone, Copy)]
struct Broken;

impl Read for Broken {
    fn read(&mut self, _buf: &mut [u8]) -> io::Result<usize> {
        Err(io::Error::from(ErrorKind::BrokenPipe))
    }
}

impl Write for Broken {
    fn write(&mut self, _buf: &[u8]) -> io::Result<usize> {
        Err(io::Error::from(ErrorKind::BrokenPipe))
    }

    fn flush(&mut self) -> io::Result<()> {
        Err(io::Error::from(ErrorKind::BrokenPipe))
    }
}

#[test]
fn a_failing_stream_is_reported_as_a_file(rt: HostRuntime) {
    let mut out = Vec::new(rt.alloc());
    let mut err = Vec::new(rt.alloc());
    assert_same!(rt; run(&rt, Broken, &mut out, &mut err), 3);
    assert_same!(rt;
        run(
            &rt,
            b"2,128 0 0 0,22 0 0 0,".as_slice(),
            &mut Broken,
            &mut err
        ),
        3
    );
    assert_same!(rt; run(&rt, b"0,".as_slice(), &mut Broken, &mut err), 3);
    assert_eq!(rt; err.as_slice(), b"file -\nfile -\nfile -\n".as_slice());
    // a failed write to standard error is passed over
    assert_same!(rt; run(&rt, b"".as_slice(), &mut out, Broken), 1);
    assert_same!(rt; out.len(), 0);
}
