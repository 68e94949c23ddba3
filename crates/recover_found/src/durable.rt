//! How far all log files are whole.
ghost use Rattle.std.specs.Prelude.{◌≡◌, map};
ghost use Rattle.recover_found.specs.Found.{bodies_in, durable_of as durable_epoch, last_mark as last_mark_from};

use log_text::Body;

/// The mark of the last body, and 0 where there is none. Constant time.
fn last_mark(bodies: &[Body]) -> u64
    ensures { result ≡ last_mark_from 0 (bodies_in bodies.now) }
{
    match bodies.last() {
        Some(body) => body.mark(),
        None => 0,
    }
}

/// The durable epoch: the least of the files' last marks (Silo, section 4.10), and 0 where there are no files.
pub fn durable_of(files: &[Vec<Body>]) -> u64
    ensures { result ≡ durable_epoch (map (λ bodies. bodies_in bodies.items) files.now) }
{
    let mut durable = None;
    for bodies in files {
        let mark = last_mark(bodies);
        durable = match durable {
            Some(least) if least < mark => Some(least),
            _ => Some(mark),
        };
    }
    durable.unwrap_or(0)
}
