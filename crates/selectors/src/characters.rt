ghost use Rattle.std.specs.Prelude.{◌≡◌, IfOk};
ghost use Rattle.std.specs.Str.{chars};

use std::alloc::Global;
use wd_json::Memory;

/// The characters of a text. `Memory` where there is no memory for them.
pub fn characters(alloc: Global, text: &str) -> Result<Vec<char>, Memory>
    ensures { IfOk result (λ list. list.items ≡ chars text.now) }
{
    Ok(text.chars().collect(alloc)?)
}
