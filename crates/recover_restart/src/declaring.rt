//! Declaring void, in every log file, what a crash has taken.
ghost use Rattle.std.specs.Prelude.{◌≡◌, ◌+◌, ◌<◌, ℕ, Some, IfErr, OnOk, OnErr, length, map, slice_index_or};
ghost use Rattle.money.specs.declared.refusal.Refusal.TheVariants.{Device};
ghost use Rattle.log_text.specs.Bodies.{Void, body_after, marked};
ghost use Rattle.logfile.specs.Standing.{LogFileView};
ghost use Rattle.recover_opening.specs.Opening.{file_on};
ghost use Rattle.recover_restart.specs.Declaring.{AreDeclared, device_failure};
ghost use Rattle.recover_restart.specs.Restarting.{MayGiveUp, HaveLost, HaveMoved};

use log_disk::Disk;
use logfile::LogFile;
use money::Refusal;

/// Declares the epochs from `low` to `high` void in every file, in their order, by the four calls of the device that an
/// append has (Silo, section 4.10). Takes no memory.
///
/// # Errors
///
/// `Device`, where the device of a file fails, or has failed: the files in front of it have the void body then, those
/// behind it stand as they stood.
pub fn declare_all<D: Disk>(files: &mut [LogFile<D>], low: u64, high: u64) -> Result<(), Refusal>
    requires { (l : ℕ) (d : LogFileView D) → l < length files.old
        → body_after (slice_index_or files.old l d).header (slice_index_or files.old l d).last (Void low high)
        ≡ Some (marked high (slice_index_or files.old l d).last) }
    ensures declared { AreDeclared D.is_modelled D.seen D.story D.failed low high result files.old files.new }
    ensures only_device { IfErr result (λ refusal. refusal ≡ Device) }
{
    for n in 0..files.len() {
        files[n].append_void(low, high)?;
    }
    Ok(())
}

/// Declares void, in every file in turn, the epochs behind the durable one up to the top, if there are such. It asks
/// for what goes on behind them, tables that were tested among it: nothing is given up before.
///
/// # Errors
///
/// `Device`, as `declare_all`, where there are such epochs.
pub(crate) fn declare_lost<D: Disk>(
    files: &mut [LogFile<D>],
    durable: u64,
    top: u64,
) -> Result<(), Refusal>
    requires { MayGiveUp durable top files.old }
    ensures moved { OnOk result (HaveMoved durable top files.old files.new) }
    ensures lost { D.is_modelled → OnOk result (HaveLost durable top (map (file_on D.seen D.story) files.old)
        (map (file_on D.seen D.story) files.new)) }
    ensures none_failed { OnOk result (map (λ file. D.failed file.disk) files.new
        ≡ map (λ file. D.failed file.disk) files.old) }
    ensures stopped { OnErr result ((durable < top) × AreDeclared D.is_modelled D.seen D.story D.failed (durable + 1) top
        device_failure files.old files.new) }
    ensures only_device { IfErr result (λ refusal. refusal ≡ Device) }
{
    if durable < top {
        declare_all(files, durable + 1, top)?;
    }
    Ok(())
}
