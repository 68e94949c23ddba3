//! A log file of a version that is none of those that are read.
ghost use Rattle.std.specs.Prelude.{◌≡◌};
ghost use Rattle.log_flaws.specs.Versions.{newer_version};

use log_codec::{u32_at, u64_at};
use log_header::VERSION;

/// The name of the format, `SILOTPCC`, as a number of eight bytes.
const FORMAT: u64 = 0x4343_5054_4f4c_4953;

/// The version that stands behind the format's name, where bytes begin with that, and it is above the one that is
/// written today.
#[tactic(auto, unfolding(crate::specs::Versions::newer_version))]
pub(crate) fn newer_version(bytes: &[u8]) -> Option<u64>
    ensures { result ≡ newer_version bytes.now }
{
    let (name, rest) = u64_at(bytes)?;
    let (version, _) = u32_at(rest)?;
    if name == FORMAT && VERSION < version {
        Some(u64::from(version))
    } else {
        None
    }
}
