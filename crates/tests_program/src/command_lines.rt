//! Command lines, and what is made of them.
ghost use Rattle.std.specs.Prelude.{◌≤◌};

use clap::error::ErrorKind;
use program_options::{
    Asked, InfoOptions, LogFiles, Options, RecoverOptions, ScriptOptions, Subcommand, read_words,
};
use std::alloc::{AllocError, Global};
use std::test::Fail;

/// The words of a command line without quotes.
fn words(alloc: Global, line: &str) -> Result<Vec<String>, AllocError> {
    let mut words = Vec::new(alloc);
    for word in line.split(' ') {
        words.push(String::from_str(alloc, word)?)?;
    }
    Ok(words)
}

/// What these words ask for on tables: an option without its default where they ask for something else.
fn asked_of(alloc: Global, words: &[String]) -> Result<Options, Fail> {
    match read_words(alloc, words)? {
        Asked::OnTables(options) => Ok(options),
        Asked::Info(_) => Err(Fail::from("info")),
    }
}

/// A script of whose refused lines nothing is told.
fn plain_script() -> Subcommand {
    Subcommand::Script(ScriptOptions { explain: false })
}

#[test]
fn without_options_the_defaults_stand(rt: HostRuntime) -> Result<(), Fail> {
    let words = words(rt.alloc(), "tpcc script")?;
    let expected = Options {
        subcommand: plain_script(),
        warehouses: 1,
        districts: 10,
        customers: 100,
        items: 1000,
        orders: 3000,
        commits: 100_000,
        population: 0,
    };
    assert_eq!(rt;
        read_words(rt.alloc(), words.as_slice())?,
        Asked::OnTables(expected)
    );
    Ok(())
}

#[test]
fn each_option_is_read(rt: HostRuntime) -> Result<(), Fail> {
    let expected = Options {
        subcommand: plain_script(),
        warehouses: 2,
        districts: 3,
        customers: 40,
        items: 50,
        orders: 60,
        commits: 70,
        population: 18_446_744_073_709_551_615,
    };
    let lines = [
        "tpcc script --warehouses 2 --districts 3 --customers 40 --items 50 --orders 60 --commits 70 \
            --population 18446744073709551615",
        "tpcc script --population=18446744073709551615 --commits=70 --orders=60 --items=50 \
            --customers=40 --districts=3 --warehouses=2",
    ];
    for line in lines {
        let words = words(rt.alloc(), line)?;
        assert_eq!(rt; asked_of(rt.alloc(), words.as_slice())?, expected);
    }
    Ok(())
}

/// What is asked of a recovery of two files in `a`, in so many threads.
fn of_two_files(alloc: Global, threads: u32) -> Result<RecoverOptions, AllocError>
    requires { (1 ≤ threads) × (threads ≤ 8) }
{
    Ok(RecoverOptions {
        files: LogFiles {
            folder: String::from_str(alloc, "a")?,
            loggers: 2,
        },
        threads,
    })
}

/// The subcommand that a line asks for.
fn subcommand_of(alloc: Global, line: &str) -> Result<Subcommand, Fail> {
    let words = words(alloc, line)?;
    let asked = asked_of(alloc, words.as_slice())?;
    Ok(asked.subcommand)
}

#[test]
fn log_files_are_read_in_one_thread(rt: HostRuntime) -> Result<(), Fail> {
    let asked = subcommand_of(rt.alloc(), "tpcc recover --logs a --loggers 2")?;
    let expected = Subcommand::Recover(of_two_files(rt.alloc(), 1)?);
    assert_eq!(rt; asked, expected);
    Ok(())
}

#[test]
fn log_files_are_read_in_the_threads_that_are_asked_for(rt: HostRuntime) -> Result<(), Fail> {
    let asked = subcommand_of(rt.alloc(), "tpcc check --threads 8 --logs a --loggers 2")?;
    let expected = Subcommand::Check(of_two_files(rt.alloc(), 8)?);
    assert_eq!(rt; asked, expected);
    Ok(())
}

#[test]
fn refused_lines_are_explained_where_that_is_asked_for(rt: HostRuntime) -> Result<(), Fail> {
    let asked = subcommand_of(rt.alloc(), "tpcc script --explain")?;
    assert_eq!(rt; asked, Subcommand::Script(ScriptOptions { explain: true }));
    Ok(())
}

#[test]
fn the_folder_of_log_files_is_told_of(rt: HostRuntime) -> Result<(), Fail> {
    let words = words(rt.alloc(), "tpcc info --logs a")?;
    let folder = String::from_str(rt.alloc(), "a")?;
    let expected = Asked::Info(InfoOptions { folder });
    assert_eq!(rt; read_words(rt.alloc(), words.as_slice())?, expected);
    Ok(())
}

#[test]
fn an_error_names_what_is_wrong(rt: HostRuntime) -> Result<(), Fail> {
    let lines = [
        ("tpcc script --stock 5", "'--stock'"),
        ("tpcc script --items many", "'many' for '--items <N>'"),
        (
            "tpcc script --items 4294967296",
            "'4294967296' for '--items <N>'",
        ),
        ("tpcc script --orders", "'--orders <N>'"),
        ("tpcc script --items 20 --items 30", "'--items <N>'"),
        (
            "tpcc script --population 18446744073709551616",
            "'18446744073709551616' for '--population <SEED>'",
        ),
        ("tpcc report", "'report'"),
        ("tpcc", "Usage: tpcc <COMMAND>"),
        ("tpcc --help", "Usage: tpcc <COMMAND>"),
        ("tpcc script --help", "--warehouses <N>"),
        ("tpcc recover --loggers 2", "--logs <DIR>"),
        ("tpcc check --logs a", "--loggers <N>"),
        (
            "tpcc recover --logs a --loggers 9",
            "'9' for '--loggers <N>'",
        ),
        (
            "tpcc recover --logs a --loggers 0",
            "'0' for '--loggers <N>'",
        ),
        (
            "tpcc recover --logs a --loggers 2 --threads 0",
            "'0' for '--threads <N>'",
        ),
        (
            "tpcc check --logs a --loggers 2 --threads 9",
            "'9' for '--threads <N>'",
        ),
        (
            "tpcc check --logs a --loggers 2 --threads 2 --threads 2",
            "'--threads <N>'",
        ),
        ("tpcc run --logs a --threads 2", "'--threads'"),
        ("tpcc script --logs a", "'--logs'"),
        ("tpcc info", "--logs <DIR>"),
        ("tpcc info --logs a --loggers 2", "'--loggers'"),
        ("tpcc script --explain --explain", "'--explain'"),
    ];
    for (line, named) in lines {
        let words = words(rt.alloc(), line)?;
        match read_words(rt.alloc(), words.as_slice()) {
            Ok(_) => assert!(rt; false, "{line}"),
            Err(error) => {
                let text = format!(in rt.alloc(); "{error}")?;
                assert!(rt; text.as_str().contains(named), "{line}: {text}");
            }
        }
    }
    Ok(())
}

#[test]
fn the_scale_is_that_of_the_options(rt: HostRuntime) -> Result<(), Fail> {
    let lawful = words(rt.alloc(), "tpcc script --items 20")?;
    let asked = asked_of(rt.alloc(), lawful.as_slice())?;
    assert_eq!(rt; asked.scale().is_ok(), true);
    let unlawful = words(rt.alloc(), "tpcc script --items 19")?;
    let asked = asked_of(rt.alloc(), unlawful.as_slice())?;
    assert_eq!(rt; asked.scale(), Err(money::Refusal::BadScale));
    Ok(())
}
