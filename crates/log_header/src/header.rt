//! The header of a log file: whose file it is, and over what.
ghost use Rattle.std.specs.Prelude.{◌≡◌, ◌≤◌, ◌<◌, ◌++◌, ℕ, List, IfSome, IfNone, OnOk, OnErr};
ghost use Rattle.std.specs.Prelude.{length, take};
ghost use Rattle.std.specs.Option.{option_map};
ghost use Rattle.log_codec.specs.Read.{chosen};
ghost use Rattle.tables.specs.Sizes.{IsScale};
ghost use Rattle.tables.specs.declared.limits.TheConstants.{MAX_LOGGERS};
ghost use Rattle.log_header.specs.Header.{HeaderView, IsHeader, scale_text, header_text};
ghost use Rattle.log_header.specs.HeaderReading.{scale_if, scale_from, header_if, parts};

use log_codec::{put_u16, put_u32, put_u64, u16_at, u32_at, u64_at};
use std::alloc::AllocError;
use std::marker::Model;
use tables::Scale;
use tables::limits::MAX_LOGGERS;

/// The name of the format, `SILOTPCC`, as a number of eight bytes.
const MAGIC: u64 = 0x4343_5054_4f4c_4953;

/// The version of the format in which files are written.
pub const VERSION: u32 = 2;

/// The oldest version that is read: in its files stands nothing of C_DATA.
pub const OLDEST_VERSION: u32 = 1;

/// What a log file begins with. Each header keeps `IsHeader`: who reads a field of one knows it.
#[derive(Clone, Copy, Debug, PartialEq, Eq)]
pub struct Header {
    /// The version of the format, from `OLDEST_VERSION` to `VERSION`.
    pub version: u32,
    /// The number of the logger whose file it is, from 0.
    pub logger: u16,
    /// How many loggers there are, from 1 to 8.
    pub loggers: u16,
    /// How large the database is.
    pub scale: Scale,
    /// The number that seeded the population, or 0 for the plain one.
    pub seed: u64,
}

impl Model for Header {
    ghost use Rattle.log_header.specs.Header.{HeaderView, IsHeader, header_of_version};

    ghost Value = { HeaderView };

    ghost view = { λ h. header_of_version h.version h.logger h.loggers h.scale h.seed };

    ghost invariant = { λ h. IsHeader (header_of_version h.version h.logger h.loggers h.scale h.seed) };

    ghost inverse = { λ h. record {
      version = h.version;
      logger = h.logger;
      loggers = h.loggers;
      scale = h.scale;
      seed = h.seed;
    } };
}

impl Header {
    ghost use Rattle.log_header.specs.Header.{IsHeader, header_view};

    /// The header of a file that is written today, of the logger with this number, from 0, among 1 to 8 loggers, over a
    /// scale and the population of this seed, where 0 stands for the plain one.
    pub fn new(scale: Scale, seed: u64, logger: u16, loggers: u16) -> Header
        requires loggers { (1 ≤ loggers) × (loggers ≤ MAX_LOGGERS) }
        requires logger { logger < loggers }
        ensures value { result ≡ header_view logger loggers scale seed }
        ensures lawful { IsHeader result }
    {
        scale_keeps_limits(&scale);
        Header {
            version: VERSION,
            logger,
            loggers,
            scale,
            seed,
        }
    }
}

/// The header in the first 48 bytes, with the bytes behind it, or None exactly where the bytes begin with no header's:
/// where they are fewer, of another format or version, or break a rule of `IsHeader`.
pub fn read_header(bytes: &[u8]) -> Option<(Header, &[u8])>
    ensures found { IfSome result (λ x. IsHeader x.0 × (bytes.now ≡ header_text x.0 ++ x.1.now)) }
    ensures none { IfNone result ((h : HeaderView) (rest : List ℕ) → IsHeader h
        → bytes.now ≡ header_text h ++ rest → ⊥) }
{
    header_at(bytes)
}

/// Appends the 48 bytes of a header; without memory for them, `out` stays as it was.
pub fn put_header(out: &mut Vec<u8>, header: &Header) -> Result<(), AllocError>
    ensures ok { OnOk result (out.new.items ≡ out.old.items ++ header_text header.now) }
    ensures err { OnErr result (out.new.items ≡ out.old.items) }
{
    let before = out.len();
    let result = put_fields(out, header);
    if result.is_err() {
        out.truncate(before);
    }
    result
}

/// Bytes that begin with headers' bytes begin with those of one header. The function does nothing: its contract is a
/// law.
pub fn one_header()
    ensures { (g h : HeaderView) (a b : List ℕ) → IsHeader g → IsHeader h
        → header_text g ++ a ≡ header_text h ++ b → (g ≡ h) × (a ≡ b) }
{}

/// Does nothing: it says of a scale as a whole what its getters say of each number.
fn scale_keeps_limits(scale: &Scale)
    ensures { IsScale scale.now }
{
    let _ = (scale.warehouses(), scale.districts(), scale.customers());
    let _ = (scale.items(), scale.orders(), scale.commits());
}

/// The header in the first 48 bytes, with the bytes behind it.
#[tactic(auto, unfolding(log_codec::specs::Read::both, log_codec::specs::Read::chosen))]
fn header_at(bytes: &[u8]) -> Option<(Header, &[u8])>
    ensures { option_map (λ x. (x.0, x.1.now)) result ≡ chosen header_if parts bytes.now }
{
    let (magic, bytes) = u64_at(bytes)?;
    let (version, bytes) = u32_at(bytes)?;
    let (logger, bytes) = u16_at(bytes)?;
    let (loggers, bytes) = u16_at(bytes)?;
    let Some((scale, bytes)) = scale_at(bytes) else {
        return None;
    };
    let (seed, bytes) = u64_at(bytes)?;
    let header = header_of(magic, version, logger, loggers, scale, seed)?;
    Some((header, bytes))
}

/// The header of these parts, or None exactly where they are another format's or version's, or where no logger has that
/// number.
#[tactic(auto, unfolding(crate::specs::HeaderReading::header_if, crate::specs::HeaderReading::is_logger))]
fn header_of(
    magic: u64,
    version: u32,
    logger: u16,
    loggers: u16,
    scale: Scale,
    seed: u64,
) -> Option<Header>
    ensures { result ≡ header_if (magic, (version, (logger, (loggers, (scale, seed))))) }
{
    let is_format = magic == MAGIC && OLDEST_VERSION <= version && version <= VERSION;
    let is_logger = 1 <= loggers && loggers <= MAX_LOGGERS && logger < loggers;
    if is_format && is_logger {
        let header = Header::new(scale, seed, logger, loggers);
        Some(Header { version, ..header })
    } else {
        None
    }
}

/// The scale in the first 24 bytes, with the bytes behind it.
#[tactic(auto, unfolding(log_codec::specs::Read::both, log_codec::specs::Read::chosen))]
fn scale_at(bytes: &[u8]) -> Option<(Scale, &[u8])>
    ensures { option_map (λ x. (x.0, x.1.now)) result ≡ scale_from bytes.now }
{
    let (warehouses, bytes) = u32_at(bytes)?;
    let (districts, bytes) = u32_at(bytes)?;
    let (customers, bytes) = u32_at(bytes)?;
    let (items, bytes) = u32_at(bytes)?;
    let (orders, bytes) = u32_at(bytes)?;
    let (commits, bytes) = u32_at(bytes)?;
    let scale = scale_of(warehouses, districts, customers, items, orders, commits)?;
    Some((scale, bytes))
}

/// The scale of these numbers, or None exactly where one is outside its limits.
#[tactic(auto, using(crate::proofs::Headers::scale_taken, crate::proofs::Headers::scale_refused))]
fn scale_of(
    warehouses: u32,
    districts: u32,
    customers: u32,
    items: u32,
    orders: u32,
    commits: u32,
) -> Option<Scale>
    ensures { result ≡ scale_if (warehouses, (districts, (customers, (items, (orders, commits))))) }
{
    Scale::new(warehouses, districts, customers, items, orders, commits).ok()
}

/// Appends the bytes of a header; without memory for them, `out` begins with what it held.
fn put_fields(out: &mut Vec<u8>, header: &Header) -> Result<(), AllocError>
    ensures ok { OnOk result (out.new.items ≡ out.old.items ++ header_text header.now) }
    ensures err { OnErr result (take (length out.old.items) out.new.items ≡ out.old.items) }
{
    put_u64(out, MAGIC)?;
    put_u32(out, header.version)?;
    put_u16(out, header.logger)?;
    put_u16(out, header.loggers)?;
    put_scale(out, &header.scale)?;
    put_u64(out, header.seed)
}

/// Appends the numbers of a scale; without memory for them, `out` begins with what it held.
#[tactic(auto, unfolding(crate::specs::Header::scale_text))]
fn put_scale(out: &mut Vec<u8>, scale: &Scale) -> Result<(), AllocError>
    ensures ok { OnOk result (out.new.items ≡ out.old.items ++ scale_text scale.now) }
    ensures err { OnErr result (take (length out.old.items) out.new.items ≡ out.old.items) }
{
    put_u32(out, scale.warehouses())?;
    put_u32(out, scale.districts())?;
    put_u32(out, scale.customers())?;
    put_u32(out, scale.items())?;
    put_u32(out, scale.orders())?;
    put_u32(out, scale.commits())
}
