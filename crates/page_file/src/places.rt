//! An index of places by address.

ghost use Rattle.std.specs.Prelude.{◌≡◌, ℕ, List, true, false, Some, None, IfOk, is_some};
ghost use Rattle.std.specs.HashMap.{get_by_text, IsEmpty};
ghost use Rattle.std.specs.Map.{update};
ghost use Rattle.std.specs.Str.{bytes_eq};

use std::alloc::Global;
use std::collections::HashMap;
use wd_json::Memory;

/// Places by the bytes of an address.
pub type Places = HashMap<String, u32>;

/// Whether the address had no place; it then has this one.
pub fn add(places: &mut Places, alloc: Global, address: &str, place: u32) -> Result<bool, Memory>
    ensures known { IfOk result (λ new. new ≡ false → is_some (get_by_text places.old address.now) ≡ true) }
    ensures new { IfOk result (λ new. new ≡ true → (get_by_text places.old address.now ≡ None)
        × ((q : List ℕ) → get_by_text places.new q ≡ update bytes_eq (get_by_text places.old) address.now (Some place) q)) }
{
    if places.get(address).is_some() {
        return Ok(false);
    }
    let key = String::from_str(alloc, address)?;
    places.insert(key, place)?;
    Ok(true)
}

/// The place of an address.
pub fn place_of(places: &Places, address: &str) -> Option<u32>
    ensures { result ≡ get_by_text places.now address.now }
{
    places.get(address).copied()
}
