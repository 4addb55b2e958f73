//! The values that spell numbers, flags, texts, boxes and waits.

ghost use Rattle.std.specs.Prelude.{◌≡◌, IfOk, Some, true};
ghost use Rattle.page_engine.specs.Fitting.{is_within, is_up_to, is_box, is_box_or_none, is_layer, is_wait};
ghost use Rattle.wd_json.specs.Json.{data_of};
ghost use Rattle.wd_json.specs.Whole.{is_whole};
ghost use Rattle.page_file.specs.Values.{text_of, optional_text_of, bool_of, number_of, wait_of, within_of, up_to_of, optional_box_of};

use page_tree::PixelBox;
use std::alloc::Global;
use wd_json::{Json, Memory, WdList, WdText};

/// A number of 32 bits as a value.
#[tactic(auto, using(crate::proofs::WholeValues::whole_values))]
pub fn number(n: u32) -> Json
    ensures same { number_of result ≡ Some n }
    ensures whole { is_whole (data_of result) ≡ true }
{
    Json::Int(i64::from(n))
}

#[tactic(auto, using(crate::proofs::WholeValues::whole_values))]
pub fn flag(b: bool) -> Json
    ensures same { bool_of result ≡ Some b }
    ensures whole { is_whole (data_of result) ≡ true }
{
    Json::Bool(b)
}

#[tactic(auto, using(crate::proofs::WholeValues::whole_values))]
pub fn layer(z: i32) -> Json
    ensures same { is_layer z ≡ true → within_of 1000 result ≡ Some z }
    ensures whole { is_whole (data_of result) ≡ true }
{
    Json::Int(i64::from(z))
}

#[tactic(auto, using(crate::proofs::WholeValues::whole_values))]
pub fn text(alloc: Global, text: &WdText) -> Result<Json, Memory>
    ensures same { IfOk result (λ v. text_of v ≡ Some text.now) }
    ensures whole { IfOk result (λ v. is_whole (data_of v) ≡ true) }
{
    Ok(Json::Text(text.copy(alloc)?))
}

/// A text, or null for none.
#[tactic(auto, using(crate::proofs::WholeValues::whole_values))]
pub fn optional_text(alloc: Global, text: &Option<WdText>) -> Result<Json, Memory>
    ensures same { IfOk result (λ v. optional_text_of v ≡ Some text.now) }
    ensures whole { IfOk result (λ v. is_whole (data_of v) ≡ true) }
{
    match text {
        Some(text) => Ok(Json::Text(text.copy(alloc)?)),
        None => Ok(Json::Null),
    }
}

// A number of a box's corner.
#[tactic(auto, using(crate::proofs::WholeValues::whole_values))]
fn corner(z: i32) -> Json
    ensures same { is_within 1000000 z ≡ true → within_of 1000000 result ≡ Some z }
    ensures whole { is_whole (data_of result) ≡ true }
{
    Json::Int(i64::from(z))
}

// A number of a box's size.
#[tactic(auto, using(crate::proofs::WholeValues::whole_values))]
fn size(z: i32) -> Json
    ensures same { is_up_to 1000000 z ≡ true → up_to_of 1000000 result ≡ Some z }
    ensures whole { is_whole (data_of result) ≡ true }
{
    Json::Int(i64::from(z))
}

/// A box as a list, or null for none.
#[tactic(auto, using(crate::proofs::WholeValues::whole_values))]
pub fn optional_box(alloc: Global, pixels: &Option<PixelBox>) -> Result<Json, Memory>
    ensures same { is_box_or_none pixels.now ≡ true → IfOk result (λ v. optional_box_of v ≡ Some pixels.now) }
    ensures whole { IfOk result (λ v. is_whole (data_of v) ≡ true) }
{
    match pixels {
        Some(pixels) => box_list(alloc, pixels),
        None => Ok(Json::Null),
    }
}

#[tactic(auto, using(crate::proofs::WholeValues::whole_values))]
fn box_list(alloc: Global, pixels: &PixelBox) -> Result<Json, Memory>
    ensures same { is_box pixels.now ≡ true → IfOk result (λ v. optional_box_of v ≡ Some (Some pixels.now)) }
    ensures whole { IfOk result (λ v. is_whole (data_of v) ≡ true) }
{
    let mut values = Vec::with_capacity(alloc, 4)?;
    values.push(corner(pixels.x))?;
    values.push(corner(pixels.y))?;
    values.push(size(pixels.w))?;
    values.push(size(pixels.h))?;
    Ok(Json::List(WdList::from_vec(values)))
}

/// A wait as a value, or null for what is longer than 2^40.
#[tactic(auto, using(crate::proofs::WholeValues::whole_values))]
pub fn wait(ms: u64) -> Json
    ensures same { is_wait ms ≡ true → wait_of result ≡ Some ms }
    ensures whole { is_whole (data_of result) ≡ true }
{
    if ms > 1_099_511_627_776 {
        return Json::Null;
    }
    Json::Int(ms as i64)
}
