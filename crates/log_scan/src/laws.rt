//! The law of fronts of log files. The function of this file does nothing: its contract is the law.
ghost use Rattle.std.specs.Prelude.{◌↔◌, ◌<◌, ◌^◌, ℕ, List, length};
ghost use Rattle.log_header.specs.Header.{HeaderView};
ghost use Rattle.log_text.specs.Bodies.{BodyView};
ghost use Rattle.log_text.specs.File.{IsFile, IsFileTo};
ghost use Rattle.log_text.specs.declared.last.Last.{Last};
ghost use Rattle.log_scan.specs.Text.{HoldsText};

/// Bytes that have a file's text are a log file exactly where the file is one, of the same header and bodies; and their
/// text ends at the same place.
pub fn same_file()
    ensures file { (bytes file : List ℕ) (h : HeaderView) (bodies : List BodyView) → length file < 2 ^ 64
        → HoldsText bytes file → IsFile bytes h bodies ↔ IsFile file h bodies }
    ensures place { (bytes file : List ℕ) (h : HeaderView) (bodies : List BodyView) (last : Last) (end : ℕ)
        → length file < 2 ^ 64 → HoldsText bytes file
        → IsFileTo bytes h bodies last end ↔ IsFileTo file h bodies last end }
{}
