//! The subcommand `info`, and the program's version: what is told on the output with no tables at hand.
ghost use Rattle.std.specs.Prelude.{◌≡◌, ◌++◌, List, None, Option, ℕ, IfErr, IfOk, OnOk, codes};
ghost use Rattle.std.specs.Prelude.{string_bytes};
ghost use Rattle.std.specs.Io.KnownBytes.{Appends};
ghost use Rattle.money.specs.declared.refusal.Refusal.TheVariants.{Device};
ghost use Rattle.log_header.specs.Header.{IsHeader};
ghost use Rattle.program_files.specs.Causes.{cause_of};
ghost use Rattle.program_files.specs.Headless.{IsWhyHeadless};
ghost use Rattle.program.specs.Info.{IsInfoTold, IsPlainDetail, IsUntold, caps_text, first_path, info_text};
ghost use Rattle.program.specs.Info.{lines_text, places_text, tables_text, version_line};
ghost use Rattle.program.specs.Status.{WritesBeginning};

use crate::detail::{cause_detail, device_detail};
use log_header::Header;
use money::Refusal;
use program_files::{Cause, Fault, Headless, first_header};
use program_options::{InfoOptions, VERSION_LINE};
use program_streams::{Watched, write_text};
use std::alloc::{AllocError, Global};
use std::fs::File;
use std::io::Write;
use std::rt::Files;
use tables::Scale;

/// Writes the program's version.
pub(crate) fn tell_version<W: Write>(output: &mut W) -> Result<(), Fault>
    ensures whole { OnOk result (Appends (W.contents output.old) (W.contents output.new) version_line) }
    ensures beginning { IfErr result (λ fault. (fault.refusal ≡ Device) × (cause_of fault ≡ None)
        × WritesBeginning version_line (W.contents output.old) (W.contents output.new)) }
{
    match write_text(output, VERSION_LINE.as_bytes()) {
        Ok(()) => Ok(()),
        Err(refusal) => Err(Fault::of(refusal)),
    }
}

/// Tells what the header of the first logger's file says: the version of log files, their number, and the options with
/// which `recover` reads them. The file is only read, and not locked.
pub(crate) fn info<T: Files<File = File>, W: Write>(
    rt: &T,
    alloc: Global,
    options: &InfoOptions,
    output: &mut W,
) -> Result<(), Fault>
    ensures told { OnOk result (IsInfoTold (W.contents output.old) (W.contents output.new)) }
    ensures untold { IfErr result (λ fault. IsUntold (first_path options.now) (W.contents output.old)
        (W.contents output.new) fault.refusal (cause_of fault)) }
{
    let path = path_of_first(alloc, options)?;
    match first_header(rt, path.as_str()) {
        Ok(header) => tell_info(alloc, &header, output),
        Err(why) => Err(unheaded(path, why)),
    }
}

/// The fault of a file of this path that has no header.
fn unheaded(path: String, why: Headless) -> Fault
    requires { IsWhyHeadless why }
    ensures { (old : Option (List ℕ)) → IsUntold (string_bytes path) old old result.refusal (cause_of result) }
{
    match why {
        Headless::Unread(trouble) => Fault {
            refusal: Refusal::Device,
            cause: Some(Cause::Unusable { path, trouble }),
        },
        Headless::Flawed(flaw) => Fault {
            refusal: Refusal::Damaged,
            cause: Some(Cause::Flawed { path, flaw }),
        },
    }
}

/// The path of the first logger's file.
fn path_of_first(alloc: Global, options: &InfoOptions) -> Result<String, AllocError>
    ensures { IfOk result (λ path. string_bytes path ≡ first_path options.now) }
{
    let folder = options.folder.as_str();
    format!(in alloc; "{folder}/log-0")
}

/// Writes what a header says.
fn tell_info<W: Write>(alloc: Global, header: &Header, output: &mut W) -> Result<(), Fault>
    requires { IsHeader header.now }
    ensures told { OnOk result (IsInfoTold (W.contents output.old) (W.contents output.new)) }
    ensures untold { IfErr result (λ fault. (path : List ℕ) → IsUntold path (W.contents output.old)
        (W.contents output.new) fault.refusal (cause_of fault)) }
{
    let text = text_of(alloc, header)?;
    match write_text(output, text.as_bytes()) {
        Ok(()) => Ok(()),
        Err(refusal) => Err(Fault::of(refusal)),
    }
}

/// What a header says: the version, the number of loggers, and the options to repeat.
fn text_of(alloc: Global, header: &Header) -> Result<String, AllocError>
    ensures { IfOk result (λ text. string_bytes text ≡ info_text header.now) }
{
    let tables = tables_of(alloc, &header.scale, header.seed)?;
    lines_of(alloc, header.version, header.loggers, tables.as_str())
}

/// The lines on a version, so many loggers, and these options of the tables.
fn lines_of(alloc: Global, version: u32, loggers: u16, tables: &str) -> Result<String, AllocError>
    ensures { IfOk result (λ text. string_bytes text ≡ lines_text version loggers tables.now) }
{
    format!(in alloc; "version {version}\nloggers {loggers}\n--loggers {loggers} {tables}\n")
}

/// The options of the tables.
fn tables_of(alloc: Global, scale: &Scale, seed: u64) -> Result<String, AllocError>
    ensures { IfOk result (λ text. string_bytes text ≡ tables_text scale.now seed) }
{
    let places = places_of(
        alloc,
        scale.warehouses(),
        scale.districts(),
        scale.customers(),
    )?;
    let caps = caps_of(alloc, scale.items(), scale.orders(), scale.commits(), seed)?;
    joined(alloc, places.as_str(), caps.as_str())
}

/// Two texts with a space between.
fn joined(alloc: Global, first: &str, second: &str) -> Result<String, AllocError>
    ensures { IfOk result (λ text. string_bytes text ≡ first.now ++ (codes " " ++ second.now)) }
{
    format!(in alloc; "{first} {second}")
}

/// Those of the keys of customers.
fn places_of(
    alloc: Global,
    warehouses: u32,
    districts: u32,
    customers: u32,
) -> Result<String, AllocError>
    ensures { IfOk result (λ text. string_bytes text ≡ places_text warehouses districts customers) }
{
    format!(in alloc; "--warehouses {warehouses} --districts {districts} --customers {customers}")
}

/// The others.
fn caps_of(
    alloc: Global,
    items: u32,
    orders: u32,
    commits: u32,
    seed: u64,
) -> Result<String, AllocError>
    ensures { IfOk result (λ text. string_bytes text ≡ caps_text items orders commits seed) }
{
    format!(in alloc; "--items {items} --orders {orders} --commits {commits} --population {seed}")
}

/// The line behind a refusal's on what was wrong, where no scale was asked for: of a device, on the stream on which the
/// last call failed, or on the file that couldn't be used; of a file that is none, on its flaw; else nothing.
pub(crate) fn plain_detail<R, W>(
    alloc: Global,
    fault: &Fault,
    input: &Watched<R>,
    output: &Watched<W>,
) -> Result<String, AllocError>
    ensures { IfOk result (λ line. IsPlainDetail (cause_of fault.now) input.now.failure output.now.failure
        fault.now.refusal (string_bytes line)) }
{
    match fault.refusal {
        Refusal::Device => device_detail(alloc, &fault.cause, input.failure(), output.failure()),
        Refusal::Damaged => cause_detail(alloc, &fault.cause),
        _ => Ok(String::new(alloc)),
    }
}
