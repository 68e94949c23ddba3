//! The ranges of epochs that void bodies declare.
ghost use Rattle.std.specs.Prelude.{◌≡◌, ◌||◌, ℕ, map, IfOk, OnOk};
ghost use Rattle.std.specs.List.{list_any};
ghost use Rattle.recover_found.specs.Found.{bodies_in, is_spanned, void_in, void_of};
ghost use Rattle.recover_found.specs.Spans.{AreReaching};

use log_text::Body;
use std::alloc::{AllocError, Global};

/// The epochs from `low` to `high`.
#[derive(Clone, Copy, Debug, PartialEq, Eq)]
pub struct Span {
    pub low: u64,
    pub high: u64,
}

/// The ranges that files declare void, file after file. One pass over their bodies.
pub(crate) fn voids_of(alloc: Global, files: &[Vec<Body>]) -> Result<Vec<Span>, AllocError>
    ensures { IfOk result (λ spans. (epoch : ℕ) → list_any (is_spanned epoch) spans.items
        ≡ void_of (map (λ bodies. bodies_in bodies.items) files.now) epoch) }
{
    let mut spans = Vec::new(alloc);
    for bodies in files {
        add_voids(&mut spans, bodies)?;
    }
    Ok(spans)
}

/// Adds the ranges that a file's bodies declare void.
fn add_voids(spans: &mut Vec<Span>, bodies: &[Body]) -> Result<(), AllocError>
    ensures { OnOk result ((epoch : ℕ) → list_any (is_spanned epoch) spans.new.items
        ≡ (list_any (is_spanned epoch) spans.old.items || void_in (bodies_in bodies.now) epoch)) }
{
    for body in bodies {
        if let Body::Void(low, high) = body {
            spans.push(Span {
                low: *low,
                high: *high,
            })?;
        }
    }
    Ok(())
}

/// Ranges that hold the same epochs, so that one look finds whether an epoch is in one: by their lows, and each reaches
/// as far as any up to it. Sorts them, and takes no memory.
pub(crate) fn reaching(spans: Vec<Span>) -> Vec<Span>
    ensures same { (epoch : ℕ) → list_any (is_spanned epoch) result.items
        ≡ list_any (is_spanned epoch) spans.items }
    ensures reaching { AreReaching result.items }
{
    let mut spans = spans;
    spans.sort_unstable_by_key(|span| span.low);
    let mut high = 0;
    for n in 0..spans.len() {
        high = spans[n].high.max(high);
        spans[n].high = high;
    }
    spans
}

/// Whether an epoch is in one of these ranges. Costs the logarithm of their number.
pub(crate) fn is_within(epoch: u64, spans: &[Span]) -> bool
    requires { AreReaching spans.now }
    ensures { result ≡ list_any (is_spanned epoch) spans.now }
{
    let behind = spans.partition_point(|span| span.low <= epoch);
    behind > 0 && epoch <= spans[behind - 1].high
}
