//! Log files of one version of the format.
ghost use Rattle.std.specs.Prelude.{◌≡◌, ◌≢◌, ◌⊎◌, [], ◌∷◌, ◌++◌, IfOk, IfErr, IsErrOf, OnOk};
ghost use Rattle.money.specs.declared.refusal.Refusal.TheVariants.{OutOfMemory, Damaged};
ghost use Rattle.log_header.specs.declared.header.TheConstants.{VERSION};

use log_header::VERSION;
use log_text::Body;
use money::Refusal;
use std::alloc::Global;

/// The bodies of log files that are all of one version.
#[derive(Drop)]
pub(crate) struct FileSet {
    /// The version, and of no files the one that is written today.
    pub version: u32,
    /// The bodies of each file, in the order of the loggers.
    pub bodies: Vec<Vec<Body>>,
}

impl FileSet {
    /// No files.
    pub fn new(alloc: Global) -> FileSet
        ensures version { result.version ≡ VERSION }
        ensures none { result.bodies.items ≡ [] }
    {
        FileSet {
            version: VERSION,
            bodies: Vec::new(alloc),
        }
    }

    /// Adds a file of this version, with these bodies, behind the others.
    ///
    /// # Errors
    ///
    /// `Damaged` where the others are of another version; `OutOfMemory`.
    pub fn push(&mut self, version: u32, bodies: Vec<Body>) -> Result<(), Refusal>
        ensures version { OnOk result (self.new.version ≡ version) }
        ensures others_are { OnOk result ((self.old.bodies.items ≡ []) ⊎ (self.old.version ≡ version)) }
        ensures bodies { OnOk result (self.new.bodies.items ≡ self.old.bodies.items ++ bodies ∷ []) }
        ensures damaged { IsErrOf result Damaged → (self.old.bodies.items ≢ []) × (self.old.version ≢ version) }
        ensures others { IfErr result (λ refusal. (refusal ≢ OutOfMemory) → refusal ≡ Damaged) }
    {
        if self.bodies.is_empty() {
            self.version = version;
        }
        if self.version != version {
            return Err(Refusal::Damaged);
        }
        self.bodies.push(bodies)?;
        Ok(())
    }

    /// These files, and others behind them. A set without files counts as one of the version that is written today.
    ///
    /// # Errors
    ///
    /// `Damaged` where the others are of another version; `OutOfMemory`.
    pub fn joined(self, others: FileSet) -> Result<FileSet, Refusal>
        ensures files { IfOk result (λ files. (files.bodies.items ≡ self.bodies.items ++ others.bodies.items)
            × (self.version ≡ files.version) × (others.version ≡ files.version)) }
        ensures damaged { IsErrOf result Damaged → self.version ≢ others.version }
        ensures others { IfErr result (λ refusal. (refusal ≢ OutOfMemory) → refusal ≡ Damaged) }
    {
        if self.version != others.version {
            return Err(Refusal::Damaged);
        }
        let (mut all, mut rest) = (self.bodies, others.bodies);
        all.append(&mut rest)?;
        Ok(FileSet {
            version: self.version,
            bodies: all,
        })
    }
}
