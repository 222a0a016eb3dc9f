// Approaches under their names.
ghost use Rattle.std.specs.Prelude.{◌≡◌, IfOk, List, map};
ghost use Rattle.ring_config.specs.Walk.{NoneRepeats};
ghost use Rattle.std.specs.Str.{bytes_eq};

use crate::items::Approach;
use indexmap::IndexMap;
use std::alloc::{AllocError, Global};

/// The approaches under their names, in their order.
pub(crate) fn by_name(
    alloc: Global,
    approaches: Vec<Approach>,
) -> Result<IndexMap<Vec<u8>, Approach>, AllocError>
    requires { NoneRepeats (λ a b. bytes_eq a.name b.name) approaches.items }
    ensures values { IfOk result (λ m. map (λ e. e.1) m.entries ≡ approaches.items) }
    ensures named { IfOk result (λ m. map (λ e. e.0.items) m.entries
        ≡ map (λ e. e.1.name) m.entries) }
{
    let mut named = IndexMap::new(alloc);
    for approach in approaches {
        let name = approach.name.bytes().to_vec(alloc)?;
        named.insert(name, approach)?;
    }
    Ok(named)
}
