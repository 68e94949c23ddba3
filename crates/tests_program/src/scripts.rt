//! Whole scripts, by what they write.

use crate::GOOD;
use book::Done;
use conditions::Report;
use money::{Cents, Refusal};
use population::Population;
use program_script::{MAX_LINES, script};
use std::alloc::Global;
use std::io::{self, ErrorKind, Read, Write};
use std::sync::Wait;
use std::test::Fail;
use tables::{PaymentReply, Reply, Scale};

fn small(alloc: Global, commits: u32) -> Result<Population, Refusal> {
    Population::plain(alloc, Scale::new(1, 2, 10, 20, 30, commits)?)
}

fn answers<R: Read, T: Wait>(
    rt: &T,
    alloc: Global,
    commits: u32,
    reader: &mut R,
) -> Result<(Vec<u8>, Report, Vec<Done>), Refusal> {
    let mut written = Vec::new(alloc);
    let (report, dones) = script(rt, alloc, small(alloc, commits)?, reader, &mut written)?;
    Ok((written, report, dones))
}

/// A reader that gives a byte at a time.
#[derive(Drop)]
struct Bytewise<'a>(&'a [u8]);

impl Read for Bytewise<'_> {
    fn read(&mut self, buf: &mut [u8]) -> io::Result<usize> {
        let few = buf.len().min(1);
        self.0.read(&mut buf[..few])
    }
}

/// A reader that gives a text and then fails.
#[derive(Drop)]
struct Broken<'a>(&'a [u8]);

impl Read for Broken<'_> {
    fn read(&mut self, buf: &mut [u8]) -> io::Result<usize> {
        if self.0.is_empty() {
            return Err(io::Error::from(ErrorKind::Other));
        }
        self.0.read(buf)
    }
}

/// A writer that takes so many bytes and then fails.
#[derive(Drop)]
struct Full {
    room: usize,
    written: Vec<u8>,
}

impl Write for Full {
    fn write(&mut self, buf: &[u8]) -> io::Result<usize> {
        let count = buf.len().min(self.room);
        if count == 0 && !buf.is_empty() {
            return Err(io::Error::from(ErrorKind::WriteZero));
        }
        self.written.extend_from_slice(&buf[..count])?;
        self.room -= count;
        Ok(count)
    }

    fn flush(&mut self) -> io::Result<()> {
        Ok(())
    }
}

#[test]
fn worked_rows(rt: HostRuntime) -> Result<(), Fail> {
    let rows = [
        (1_000, "", "", 0),
        (
            1_000,
            "payment 1 1 1 1 3 12.34\nshow warehouse 1\nshow district 1 1\nshow customer 1 1 3\n",
            "payment 1 1 customer 1 1 3 balance -22.34\nwarehouse 1 ytd 212.34\n\
             district 1 1 ytd 112.34 next 11\n\
             customer 1 1 3 balance -22.34 paid 22.34 payments 2 deliveries 0\n",
            1,
        ),
        // A customer with bad credit: a Payment puts its text at the left of C_DATA.
        (
            1_000,
            "show data 1 1 10\npayment 1 1 1 1 10 12.34\nshow data 1 1 10\n",
            "data 1 1 10 300 \
             xxxxxxxxxxxxxxxxxxxxxxxxxxxxxxxxxxxxxxxxxxxxxxxxxxxxxxxxxxxxxxxxxxxxxxxxxxxxxxxxxxxxxxxxxxxxxxxxxxxx\
             xxxxxxxxxxxxxxxxxxxxxxxxxxxxxxxxxxxxxxxxxxxxxxxxxxxxxxxxxxxxxxxxxxxxxxxxxxxxxxxxxxxxxxxxxxxxxxxxxxxx\
             xxxxxxxxxxxxxxxxxxxxxxxxxxxxxxxxxxxxxxxxxxxxxxxxxxxxxxxxxxxxxxxxxxxxxxxxxxxxxxxxxxxxxxxxxxxxxxxxxxxx\n\
             payment 1 1 customer 1 1 10 balance -22.34\ndata 1 1 10 317 10 1 1 1 1 12.34|\
             xxxxxxxxxxxxxxxxxxxxxxxxxxxxxxxxxxxxxxxxxxxxxxxxxxxxxxxxxxxxxxxxxxxxxxxxxxxxxxxxxxxxxxxxxxxxxxxxxxxx\
             xxxxxxxxxxxxxxxxxxxxxxxxxxxxxxxxxxxxxxxxxxxxxxxxxxxxxxxxxxxxxxxxxxxxxxxxxxxxxxxxxxxxxxxxxxxxxxxxxxxx\
             xxxxxxxxxxxxxxxxxxxxxxxxxxxxxxxxxxxxxxxxxxxxxxxxxxxxxxxxxxxxxxxxxxxxxxxxxxxxxxxxxxxxxxxxxxxxxxxxxxxx\n",
            1,
        ),
        (
            1_000,
            "payment 1 1 1 1 3 1.00\npayment 1 1 1 1 3 5000.00\npayment 1 1 1 1 3 0.99\n\
             payment 1 1 1 1 3 5000.01\n",
            "payment 1 1 customer 1 1 3 balance -11.00\npayment 1 1 customer 1 1 3 balance -5011.00\n\
             2 line 3\n2 line 4\n",
            2,
        ),
        (
            1_000,
            "hello\npayment 1 1 1 1 3 1.0\npayment 1 1 1 1 3 1.00",
            "14 line 1\n14 line 2\npayment 1 1 customer 1 1 3 balance -11.00\n",
            1,
        ),
        (
            1,
            "payment 1 1 1 1 3 1.00\npayment 1 1 1 1 3 1.00\n",
            "payment 1 1 customer 1 1 3 balance -11.00\n7 line 2\n",
            1,
        ),
    ];
    for (commits, input, replies, committed) in rows {
        let expected = format!(in rt.alloc(); "{replies}commits {committed}\n{GOOD}")?;
        let (written, report, _) = answers(&rt, rt.alloc(), commits, &mut input.as_bytes())?;
        assert_eq!(rt; written.as_slice(), expected.as_bytes(), "on {input:?}");
        assert!(rt; report.is_good(), "on {input:?}");
        let (bytewise, _, _) = answers(&rt, rt.alloc(), commits, &mut Bytewise(input.as_bytes()))?;
        assert_eq!(rt;
            bytewise.as_slice(),
            expected.as_bytes(),
            "byte by byte on {input:?}"
        );
    }
    Ok(())
}

#[test]
fn refused_lines(rt: HostRuntime) -> Result<(), Fail> {
    let refused = [
        ("", 14),
        ("show warehouse 1\r", 14),
        ("show  warehouse 1", 14),
        ("show warehouse 1 ", 14),
        ("show warehouse 01", 14),
        ("show warehouse 4294967296", 14),
        ("show warehouse \0", 14),
        ("show warehouse é", 14),
        ("show item 1", 14),
        ("show warehouse 4294967295", 2),
        ("show warehouse 0", 2),
        ("show district 1 3", 2),
        ("show customer 1 1 11", 2),
        ("show data 1 1 11", 2),
        ("show data 1 3 10", 2),
        ("show data 2 1 10", 2),
        ("show data 1 1 0", 2),
        ("show data 1 1", 14),
        ("payment 2 1 1 1 3 1.00", 2),
        ("payment 1 1 1 1 3 99999999999999999999999.00", 2),
        ("payment 1 1 1 1 3 -1.00", 2),
        ("payment 1 1 1 1 3 -0.00", 14),
        ("payment 1 1 1 1 3", 14),
    ];
    for (line, refusal) in refused {
        let input = format!(in rt.alloc(); "{line}\n")?;
        let expected = format!(in rt.alloc(); "{refusal} line 1\ncommits 0\n{GOOD}")?;
        let (written, _, dones) = answers(&rt, rt.alloc(), 1_000, &mut input.as_bytes())?;
        assert_eq!(rt; written.as_slice(), expected.as_bytes(), "on {line:?}");
        assert!(rt; dones.is_empty(), "on {line:?}");
    }
    Ok(())
}

#[test]
fn long_lines(rt: HostRuntime) -> Result<(), Fail> {
    for (length, refusal) in [(1_024, 2), (1_025, 14), (200_000, 14)] {
        // A payment whose amount makes its line so long: it is in the form, and out of range.
        let mut input = Vec::from_slice(rt.alloc(), b"payment 1 1 1 1 3 ")?;
        for _ in 0..length - 21 {
            input.push(b'9')?;
        }
        input.extend_from_slice(b".00\nshow warehouse 1\n")?;
        let expected = format!(in rt.alloc();
            "{refusal} line 1\nwarehouse 1 ytd 200.00\ncommits 0\n{GOOD}"
        )?;
        let (written, _, _) = answers(&rt, rt.alloc(), 1_000, &mut input.as_slice())?;
        assert_eq!(rt;
            written.as_slice(),
            expected.as_bytes(),
            "at {length} bytes"
        );
    }
    Ok(())
}

/// No test has so many.
#[test]
fn how_many_lines_a_script_may_have(rt: HostRuntime) {
    assert_eq!(rt; MAX_LINES, 4_000_000_000);
}

#[test]
fn dones_are_of_the_lines_that_commit(rt: HostRuntime) -> Result<(), Fail> {
    let mut input = b"hello\npayment 1 2 1 1 3 1.00\npayment 1 2 1 1 4 2.00\n".as_slice();
    let (_, _, dones) = answers(&rt, rt.alloc(), 1_000, &mut input)?;
    for (i, (customer, balance)) in [(3, -1_100), (4, -1_200)].iter().enumerate() {
        let reply = PaymentReply {
            warehouse: 1,
            district: 2,
            customer_warehouse: 1,
            customer_district: 1,
            customer: *customer,
            balance: Cents::new(*balance),
        };
        let Some(done) = dones.get(i) else {
            return Err("a commit is missing".into());
        };
        let number = if i == 0 { 1 } else { 2 };
        assert_eq!(rt; done.number(), number);
        assert_eq!(rt; *done.reply(), Reply::Payment(reply));
    }
    assert_eq!(rt; dones.len(), 2);
    Ok(())
}

#[test]
fn a_device_that_fails(rt: HostRuntime) -> Result<(), Fail> {
    let mut written = Vec::new(rt.alloc());
    let mut broken = Broken(b"show warehouse 1\nshow dis");
    let outcome = script(
        &rt,
        rt.alloc(),
        small(rt.alloc(), 1_000)?,
        &mut broken,
        &mut written,
    );
    assert!(rt; matches!(outcome, Err(Refusal::Device)));
    assert_eq!(rt; written.as_slice(), b"warehouse 1 ytd 200.00\n".as_slice());
    let mut full = Full {
        room: 30,
        written: Vec::new(rt.alloc()),
    };
    let mut input = b"show warehouse 1\nshow warehouse 1\n".as_slice();
    let outcome = script(
        &rt,
        rt.alloc(),
        small(rt.alloc(), 1_000)?,
        &mut input,
        &mut full,
    );
    assert!(rt; matches!(outcome, Err(Refusal::Device)));
    assert_eq!(rt;
        full.written.as_slice(),
        b"warehouse 1 ytd 200.00\nwarehou".as_slice()
    );
    Ok(())
}
