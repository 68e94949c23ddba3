//! The law of log files. The function of this file does nothing: its contract is the law.
ghost use Rattle.std.specs.Prelude.{◌≡◌, ◌<◌, ◌^◌, ℕ, List, length};
ghost use Rattle.log_header.specs.Header.{HeaderView};
ghost use Rattle.log_text.specs.Bodies.{BodyView};
ghost use Rattle.log_text.specs.File.{IsFile};

/// A string of fewer than 2^64 bytes is the file of one header and one list of bodies at most, however it is read.
pub fn one_file()
    ensures { (file : List ℕ) (g h : HeaderView) (a b : List BodyView) → length file < 2 ^ 64
        → IsFile file g a → IsFile file h b → (g ≡ h) × (a ≡ b) }
{}
