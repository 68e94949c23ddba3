//! A value that two may have.
ghost use Rattle.std.specs.Prelude.{◌≡◌, IfOk};
ghost use Rattle.std.specs.Arc.{arc_value};

use std::alloc::{AllocError, Global};
use std::sync::Arc;

/// A value that two may have, which stands in memory once.
pub(crate) fn shared<T: Drop>(
    alloc: Global,
    value: T,
) -> Result<(Arc<T, Global>, Arc<T, Global>), AllocError>
    ensures { IfOk result (λ made. (arc_value made.0 ≡ value) × (arc_value made.1 ≡ value)) }
{
    let Ok(one) = Arc::new(alloc, value) else {
        return Err(AllocError);
    };
    let other = Arc::try_clone(&one)?;
    Ok((one, other))
}
