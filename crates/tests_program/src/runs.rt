//! Whole runs of the program over words, an input and two writers.

#[cfg(test)]
use crate::GOOD;
use program::run;
use program_script_hints::Hinted;
use program_streams::Watched;
use std::alloc::{AllocError, Global};
use std::fs::File;
use std::io::{self, Read, Write};
use std::rt::Files;
use std::sync::Wait;
use std::test::Fail;
use std::thread::Threads;
use std::time::Clock;

/// A scale of two warehouses.
const TWO: &str =
    "tpcc script --warehouses 2 --districts 3 --customers 12 --items 20 --orders 30 --commits 2";

/// The words of a text, which are parted by one space each.
fn words_of(alloc: Global, text: &str) -> Result<Vec<String>, AllocError> {
    let mut words = Vec::new(alloc);
    for word in text.split(' ') {
        words.push(String::from_str(alloc, word)?)?;
    }
    Ok(words)
}

/// What a run wrote, and its status.
#[derive(Drop)]
struct Outcome {
    output: Vec<u8>,
    errors: Vec<u8>,
    status: u8,
}

fn run_on<R: Read + Drop, T: Wait + Threads + Clock + Files<File = File> + Sync>(
    rt: &T,
    alloc: Global,
    words: &str,
    input: R,
) -> Result<Outcome, AllocError> {
    let words = words_of(alloc, words)?;
    let (mut input, mut output) = (Watched::new(input), Watched::new(Vec::new(alloc)));
    let mut errors = Hinted::new(alloc, Vec::new(alloc));
    let words = words.as_slice();
    let status = run(
        rt,
        alloc,
        words,
        &mut input,
        &mut output,
        &mut errors,
        None::<Vec<u8>>,
    );
    let output = Vec::from_slice(alloc, output.stream().as_slice())?;
    let errors = Vec::from_slice(alloc, errors.errors().as_slice())?;
    Ok(Outcome {
        output,
        errors,
        status,
    })
}

#[test]
fn a_script_at_its_options(rt: HostRuntime) -> Result<(), Fail> {
    let input = b"payment 2 3 2 3 12 1.00\nshow warehouse 2\npayment 3 1 1 1 1 1.00\n\
        payment 1 1 1 1 1 1.00\npayment 1 1 1 1 1 1.00\nshow customer 2 3 13\n"
        .as_slice();
    let ran = run_on(&rt, rt.alloc(), TWO, input)?;
    let expected = "payment 2 3 customer 2 3 12 balance -11.00\nwarehouse 2 ytd 361.00\n2 line 3\n\
        payment 1 1 customer 1 1 1 balance -11.00\n7 line 5\n2 line 6\n\
        commits 2\nC1 ok\nC2 ok\nC3 ok\nC4 ok\nC5 ok\nC6 ok\nC7 ok\nC8 ok\nC9 ok\nC10 ok\nC12 ok\n";
    assert_eq!(rt; ran.output.as_slice(), expected.as_bytes());
    assert_eq!(rt; ran.errors.as_slice(), b"".as_slice());
    assert_eq!(rt; ran.status, 0);
    Ok(())
}

/// A scale of one warehouse, at which refused lines are explained.
const EXPLAINED: &str =
    "tpcc script --explain --districts 3 --customers 12 --items 20 --orders 30 --commits 1";

#[test]
fn a_script_that_is_explained(rt: HostRuntime) -> Result<(), Fail> {
    let input = b"payment 1 3 1 3 12 1.00\nshow warehouse 2\nshow district 1 1 1\n".as_slice();
    let ran = run_on(&rt, rt.alloc(), EXPLAINED, input)?;
    let expected = "line 2: W is 2: it is to be from 1 to 1\n\
        line 3: show district has 2 words behind it, and here are 3\n";
    assert_eq!(rt; ran.errors.as_slice(), expected.as_bytes());
    assert_eq!(rt;
        ran.output
            .as_slice()
            .starts_with(b"payment 1 3 customer 1 3 12 "),
        true
    );
    assert_eq!(rt; ran.status, 0);
    Ok(())
}

#[test]
fn a_population_by_its_seed(rt: HostRuntime) -> Result<(), Fail> {
    let input = b"show stock 1 1\nshow order 1 1 1\n".as_slice();
    let populations = [
        (0, 50, "customer 1 carrier 1 lines 5"),
        (1, 32, "customer 1 carrier 10 lines 14"),
        (2, 24, "customer 6 carrier 9 lines 14"),
    ];
    for (seed, quantity, order) in populations {
        let words = format!(in rt.alloc(); "{TWO} --population {seed}")?;
        let ran = run_on(&rt, rt.alloc(), words.as_str(), input)?;
        let expected = format!(in rt.alloc();
            "stock 1 1 quantity {quantity} ytd 0 orders 0 remote 0\n\
            order 1 1 1 {order} local 1\ncommits 0\n{GOOD}"
        )?;
        assert_eq!(rt; ran.output.as_slice(), expected.as_bytes(), "on {words}");
        assert_eq!(rt; ran.status, 0, "on {words}");
    }
    Ok(())
}

#[test]
fn faults_of_the_words(rt: HostRuntime) -> Result<(), Fail> {
    let faulty = [
        "tpcc",
        "tpcc scribe",
        "tpcc script --warehouse 1",
        "tpcc script --warehouses x",
        "tpcc script --warehouses -1",
        "tpcc script --population x",
        "tpcc script --population -1",
        "tpcc script --population 18446744073709551616",
        "tpcc script --help",
    ];
    for words in faulty {
        let input = b"show warehouse 1\n".as_slice();
        let ran = run_on(&rt, rt.alloc(), words, input)?;
        assert_eq!(rt; ran.status, 2, "on {words}");
        assert!(rt; ran.output.is_empty(), "on {words}");
        assert!(rt; !ran.errors.is_empty(), "on {words}");
    }
    Ok(())
}

#[test]
fn a_scale_outside_its_limits(rt: HostRuntime) -> Result<(), Fail> {
    let scales = [
        (
            "--warehouses 9",
            "--warehouses is 9: it is to be from 1 to 8",
        ),
        (
            "--customers 0",
            "--customers is 0: it is to be from 10 to 3000",
        ),
        (
            "--items 19 --customers 3001",
            "--customers is 3001: it is to be from 10 to 3000",
        ),
        (
            "--customers 10 --orders 9",
            "--orders is 9: it is to be from 10 (the customers) to 100000",
        ),
        (
            "--commits 0",
            "--commits is 0: it is to be from 1 to 600000",
        ),
    ];
    for (options, detail) in scales {
        let words = format!(in rt.alloc(); "tpcc script {options}")?;
        let ran = run_on(&rt, rt.alloc(), words.as_str(), b"".as_slice())?;
        assert_eq!(rt; ran.status, 2, "on {options}");
        assert!(rt; ran.output.is_empty(), "on {options}");
        let expected = format!(in rt.alloc(); "13 BadScale\n{detail}\n")?;
        assert_eq!(rt; ran.errors.as_slice(), expected.as_bytes(), "on {options}");
    }
    Ok(())
}

/// A stream that fails, with this error, after a line that comes and no bytes that go.
#[derive(Drop)]
struct Broken {
    left: &'static [u8],
    error: io::Error,
}

impl Read for Broken {
    fn read(&mut self, buf: &mut [u8]) -> io::Result<usize> {
        if self.left.is_empty() {
            return Err(self.error);
        }
        self.left.read(buf)
    }
}

impl Write for Broken {
    fn write(&mut self, _buf: &[u8]) -> io::Result<usize> {
        Err(self.error)
    }

    fn flush(&mut self) -> io::Result<()> {
        Ok(())
    }
}

/// One that fails as a system tells it, after a line.
fn failing(code: i32) -> Broken {
    Broken {
        left: b"show warehouse 1\n",
        error: io::Error::from_raw_os_error(code),
    }
}

#[test]
fn an_input_that_fails(rt: HostRuntime) -> Result<(), Fail> {
    let ran = run_on(&rt, rt.alloc(), TWO, failing(21))?;
    assert_eq!(rt; ran.status, 1);
    assert_eq!(rt;
        ran.output.as_slice(),
        b"warehouse 1 ytd 360.00\n".as_slice()
    );
    let expected = b"9 Device\nstandard input: Is a directory (os error 21)\n".as_slice();
    assert_eq!(rt; ran.errors.as_slice(), expected);
    Ok(())
}

#[test]
fn an_output_that_fails(rt: HostRuntime) -> Result<(), Fail> {
    let words = words_of(rt.alloc(), TWO)?;
    let (mut input, mut output) = (Watched::new(b"".as_slice()), Watched::new(failing(32)));
    let mut errors = Hinted::new(rt.alloc(), Vec::new(rt.alloc()));
    let words = words.as_slice();
    let status = run(
        &rt,
        rt.alloc(),
        words,
        &mut input,
        &mut output,
        &mut errors,
        None::<Vec<u8>>,
    );
    assert_eq!(rt; status, 1);
    let expected = b"9 Device\nstandard output: Broken pipe (os error 32)\n".as_slice();
    assert_eq!(rt; errors.errors().as_slice(), expected);
    assert_eq!(rt;
        output.failure().and_then(|error| error.raw_os_error()),
        Some(32)
    );
    assert_eq!(rt; input.failure().is_none(), true);
    Ok(())
}
