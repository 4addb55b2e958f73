//! The numbers, flags, texts, lists and boxes that values are.

ghost use Rattle.std.specs.Prelude.{◌≡◌, ◌<◌, ◌^◌, IfSome, true};
ghost use Rattle.std.specs.Option.{option_map};
ghost use Rattle.page_engine.specs.Fitting.{is_within, is_up_to, is_box, is_box_or_none, is_wait};
ghost use Rattle.page_file.specs.Values.{text_of, bool_of, list_of, number_of, optional_number_of, wait_of, within_of, whole_of, up_to_of, box_of, optional_box_of};

use page_tree::PixelBox;
use wd_json::{Json, MAX_WHOLE, WdText};

pub fn as_text(value: &Json) -> Option<&WdText>
    ensures { option_map (λ t. t.now) result ≡ text_of value.now }
{
    match value {
        Json::Text(text) => Some(text),
        _ => None,
    }
}

pub fn as_bool(value: &Json) -> Option<bool>
    ensures { result ≡ bool_of value.now }
{
    match value {
        Json::Bool(b) => Some(*b),
        _ => None,
    }
}

pub fn as_list(value: &Json) -> Option<&[Json]>
    ensures { option_map (λ t. t.now) result ≡ list_of value.now }
{
    match value {
        Json::List(list) => Some(list.as_slice()),
        _ => None,
    }
}

/// A number of 32 bits.
pub fn as_number(value: &Json) -> Option<u32>
    ensures { result ≡ number_of value.now }
{
    match value {
        Json::Int(n) if 0 <= *n && *n < 4_294_967_296 => Some(*n as u32),
        _ => None,
    }
}

/// A number of 32 bits, or null.
pub fn as_optional_number(value: &Json) -> Option<Option<u32>>
    ensures { result ≡ optional_number_of value.now }
{
    match value {
        Json::Null => Some(None),
        _ => Some(Some(as_number(value)?)),
    }
}

/// Milliseconds that a timer may wait.
pub fn as_wait(value: &Json) -> Option<u64>
    ensures same { result ≡ wait_of value.now }
    ensures within { IfSome result (λ ms. is_wait ms ≡ true) }
{
    match value {
        Json::Int(n) if 1 <= *n && *n <= 1_099_511_627_776 => Some(*n as u64),
        _ => None,
    }
}

/// A number within plus or minus so much.
pub fn as_within(value: &Json, most: u32) -> Option<i32>
    requires { most < 2 ^ 31 }
    ensures same { result ≡ within_of most value.now }
    ensures within { IfSome result (λ z. is_within most z ≡ true) }
{
    match value {
        Json::Int(n) if n.unsigned_abs() <= u64::from(most) => Some(*n as i32),
        _ => None,
    }
}

/// A number within plus or minus 2^53 - 1.
pub fn as_whole(value: &Json) -> Option<i64>
    ensures { result ≡ whole_of value.now }
{
    match value {
        Json::Int(n) if n.unsigned_abs() <= MAX_WHOLE as u64 => Some(*n),
        _ => None,
    }
}

/// A number from 0 to so much.
fn as_up_to(value: &Json, most: u32) -> Option<i32>
    requires { most < 2 ^ 31 }
    ensures same { result ≡ up_to_of most value.now }
    ensures within { IfSome result (λ z. is_up_to most z ≡ true) }
{
    match value {
        Json::Int(n) if 0 <= *n && *n <= i64::from(most) => Some(*n as i32),
        _ => None,
    }
}

/// The box `[x,y,w,h]`.
pub fn as_box(value: &Json) -> Option<PixelBox>
    ensures same { result ≡ box_of value.now }
    ensures within { IfSome result (λ b. is_box b ≡ true) }
{
    let [x, y, w, h] = as_list(value)? else {
        return None;
    };
    Some(PixelBox {
        x: as_within(x, 1_000_000)?,
        y: as_within(y, 1_000_000)?,
        w: as_up_to(w, 1_000_000)?,
        h: as_up_to(h, 1_000_000)?,
    })
}

/// A box or null.
pub fn as_optional_box(value: &Json) -> Option<Option<PixelBox>>
    ensures same { result ≡ optional_box_of value.now }
    ensures within { IfSome result (λ b. is_box_or_none b ≡ true) }
{
    match value {
        Json::Null => Some(None),
        Json::List(_) => Some(Some(as_box(value)?)),
        _ => None,
    }
}
