//! What was wrong, in a line behind a refusal's.

ghost use Rattle.std.specs.Prelude.{◌≡◌, ◌++◌, IfOk, codes, string_bytes};
ghost use Rattle.std.specs.Option.{option_map};
ghost use Rattle.program_files.specs.Causes.{cause_of, cause_view, reason_of, trouble_of};
ghost use Rattle.program.specs.Detail.{IsCauseLine, IsDetail, IsDeviceLine, IsMemoryDetail, IsReasonTold};
ghost use Rattle.program.specs.Detail.{last_epoch_line, limit_line, older_line, scale_line, unlogged_line};
ghost use Rattle.tables.specs.Sizes.{IsScale};
ghost use Rattle.program.specs.Memory.{memory_line};
ghost use Rattle.log_flaws.specs.Texts.{flaw_line};
ghost use Rattle.program.specs.Run.{scale_of};

use crate::memory::memory_line;
use log_flaws::FileFlaw;
use money::Refusal;
use program_files::{Cause, Fault, Trouble};
use program_options::Options;
use program_streams::Watched;
use std::alloc::{AllocError, Global};
use std::io::Error;
use tables::is_between;
use tables::limits::{
    MAX_COMMITS, MAX_CUSTOMERS, MAX_DISTRICTS, MAX_ITEMS, MAX_ORDERS, MAX_WAREHOUSES,
    MIN_CUSTOMERS, MIN_ITEMS,
};

/// The line on what was wrong where a run was refused, with its line feed: of a scale, on the first option that is
/// outside its limits; of a device, on the stream on which the last call failed, or on the file that couldn't be used,
/// and why; of log files, on their first flaw; of memory, on how much
/// is taken; else, or where that isn't known, nothing.
pub(crate) fn detail_of<R, W>(
    alloc: Global,
    options: &Options,
    fault: &Fault,
    input: &Watched<R>,
    output: &Watched<W>,
) -> Result<String, AllocError>
    ensures { IfOk result (λ line. IsDetail options.now.subcommand (scale_of options.now) (cause_of fault.now)
        input.now.failure output.now.failure fault.now.refusal (string_bytes line)) }
{
    match fault.refusal {
        Refusal::BadScale => scale_detail(alloc, options),
        Refusal::Device => device_detail(alloc, &fault.cause, input.failure(), output.failure()),
        Refusal::EpochFull | Refusal::Damaged | Refusal::Gap => cause_detail(alloc, &fault.cause),
        Refusal::OutOfMemory => memory_detail(alloc, options, &fault.cause),
        _ => Ok(String::new(alloc)),
    }
}

/// The line on want of memory: on what is known of why, else on how much a subcommand takes at the scale.
fn memory_detail(
    alloc: Global,
    options: &Options,
    cause: &Option<Cause>,
) -> Result<String, AllocError>
    ensures { IfOk result (λ line. IsMemoryDetail options.now.subcommand (scale_of options.now)
        (option_map cause_view cause.now) (string_bytes line)) }
{
    match cause {
        Some(_) => cause_detail(alloc, cause),
        None => memory_at(alloc, options),
    }
}

/// The line on how much a subcommand takes at its scale.
fn memory_at(alloc: Global, options: &Options) -> Result<String, AllocError>
    ensures { IfOk result (λ line. IsScale (scale_of options.now)
        → string_bytes line ≡ memory_line options.now.subcommand (scale_of options.now)) }
{
    match options.scale() {
        Ok(scale) => memory_line(alloc, &options.subcommand, &scale),
        Err(_) => Ok(String::new(alloc)),
    }
}

/// The line on the stream on which the last call failed, by the errors of those calls, else on what is known.
pub(crate) fn device_detail(
    alloc: Global,
    cause: &Option<Cause>,
    input: Option<Error>,
    output: Option<Error>,
) -> Result<String, AllocError>
    ensures { IfOk result (λ line. IsDeviceLine (option_map cause_view cause.now) input output (string_bytes line)) }
{
    match (input, output) {
        (Some(error), _) => told(alloc, "standard input", Some(error)),
        (None, Some(error)) => told(alloc, "standard output", Some(error)),
        (None, None) => cause_detail(alloc, cause),
    }
}

/// The line on why, or nothing where that isn't known.
pub(crate) fn cause_detail(alloc: Global, cause: &Option<Cause>) -> Result<String, AllocError>
    ensures { IfOk result (λ line. IsCauseLine (option_map cause_view cause.now) (string_bytes line)) }
{
    match cause {
        Some(Cause::Unusable { path, trouble }) => file_detail(alloc, path.as_str(), trouble),
        Some(Cause::Flawed { path, flaw }) => flaw_detail(alloc, path.as_str(), flaw),
        Some(Cause::Older { path, version }) => older_detail(alloc, path.as_str(), *version),
        Some(Cause::Amiss(gap)) => format!(in alloc; "{gap}\n"),
        Some(Cause::Unsound(Some(beyond))) => format!(in alloc; "{beyond}\n"),
        Some(Cause::Unsound(None)) => format!(in alloc; "{UNSOUND}\n"),
        Some(Cause::Unlogged { path, commits }) => unlogged_detail(alloc, path.as_str(), *commits),
        Some(Cause::InLastEpoch { path, commits }) => {
            last_epoch_detail(alloc, path.as_str(), *commits)
        }
        None => Ok(String::new(alloc)),
    }
}

/// The line on commits that aren't durable, since a logger had no memory for its last batch.
fn unlogged_detail(alloc: Global, path: &str, commits: u64) -> Result<String, AllocError>
    ensures { IfOk result (λ line. string_bytes line ≡ unlogged_line path.now commits) }
{
    format!(in alloc;
        "{path}: no memory was left for its last batch: {commits} commits aren't durable\n"
    )
}

/// The line on commits of the last epoch, which no mark is behind.
fn last_epoch_detail(alloc: Global, path: &str, commits: u64) -> Result<String, AllocError>
    ensures { IfOk result (λ line. string_bytes line ≡ last_epoch_line path.now commits) }
{
    format!(in alloc;
        "{path}: epoch 4294967295 is the last one, and is never durable: {commits} commits of it are lost\n"
    )
}

/// What is told of files that recover to what no commits can have made.
const UNSOUND: &str =
    "what the log files recover to no commits can have made: `tpcc check` tells more";

/// The line on a file that isn't the log file that it is to be.
fn flaw_detail(alloc: Global, path: &str, flaw: &FileFlaw) -> Result<String, AllocError>
    ensures { IfOk result (λ line. string_bytes line ≡ flaw_line path.now flaw.now ++ codes "\n") }
{
    let told = flaw.told_of(alloc, path)?;
    let told = told.as_str();
    format!(in alloc; "{told}\n")
}

/// The line on a file of an older version.
fn older_detail(alloc: Global, path: &str, version: u64) -> Result<String, AllocError>
    ensures { IfOk result (λ line. string_bytes line ≡ older_line path.now version) }
{
    format!(in alloc;
        "{path}: it is of version {version}, which can be recovered and checked, not gone on with\n"
    )
}

/// The line on a file that couldn't be used.
fn file_detail(alloc: Global, path: &str, trouble: &Trouble) -> Result<String, AllocError>
    ensures { IfOk result (λ line. IsReasonTold (path.now ++ (codes ": " ++ trouble_of trouble.now))
        (reason_of trouble.now) (string_bytes line)) }
{
    let name = trouble.name();
    let what = format!(in alloc; "{path}: {name}")?;
    told(alloc, what.as_str(), trouble.reason())
}

/// The line on the first option of a scale that is outside its limits, or nothing where none is.
fn scale_detail(alloc: Global, options: &Options) -> Result<String, AllocError>
    ensures { IfOk result (λ line. string_bytes line ≡ scale_line (scale_of options.now)) }
{
    if !is_between(1, MAX_WAREHOUSES, options.warehouses) {
        return limit_detail(
            alloc,
            "warehouses",
            options.warehouses,
            (1, ""),
            MAX_WAREHOUSES,
        );
    }
    if !is_between(1, MAX_DISTRICTS, options.districts) {
        return limit_detail(
            alloc,
            "districts",
            options.districts,
            (1, ""),
            MAX_DISTRICTS,
        );
    }
    if !is_between(MIN_CUSTOMERS, MAX_CUSTOMERS, options.customers) {
        let least = (MIN_CUSTOMERS, "");
        return limit_detail(alloc, "customers", options.customers, least, MAX_CUSTOMERS);
    }
    if !is_between(MIN_ITEMS, MAX_ITEMS, options.items) {
        return limit_detail(alloc, "items", options.items, (MIN_ITEMS, ""), MAX_ITEMS);
    }
    if !is_between(options.customers, MAX_ORDERS, options.orders) {
        let least = (options.customers, " (the customers)");
        return limit_detail(alloc, "orders", options.orders, least, MAX_ORDERS);
    }
    if !is_between(1, MAX_COMMITS, options.commits) {
        return limit_detail(alloc, "commits", options.commits, (1, ""), MAX_COMMITS);
    }
    Ok(String::new(alloc))
}

/// The line on an option whose number is outside its limits, the least of which has a note.
fn limit_detail(
    alloc: Global,
    option: &str,
    number: u32,
    low: (u32, &str),
    high: u32,
) -> Result<String, AllocError>
    ensures { IfOk result (λ line. string_bytes line
        ≡ limit_line option.now number low.entry.0 low.entry.1.now high) }
{
    let (low, note) = low;
    format!(in alloc; "--{option} is {number}: it is to be from {low}{note} to {high}\n")
}

/// The line on what couldn't be done, and why, where that is the system's to say.
fn told(alloc: Global, what: &str, reason: Option<Error>) -> Result<String, AllocError>
    ensures { IfOk result (λ line. IsReasonTold what.now reason (string_bytes line)) }
{
    match reason {
        Some(error) => {
            let reason = format!(in alloc; "{error}")?;
            format!(in alloc; "{what}: {reason}\n")
        }
        None => format!(in alloc; "{what}\n"),
    }
}
