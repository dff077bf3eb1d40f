// Types as they are written in names.

ghost use Rattle.std.specs.Prelude.{◌≡◌, map, filter_map};
ghost use Rattle.std.specs.Option.{option_map};
ghost use Rattle.ir_intrinsics.specs.Intrinsics.{first, behind_front, width_before, vector_before, type_written};
ghost use Rattle.ir_intrinsics.specs.Means.{vector_in};

use ir_types::Ty;
use text_forms::find;

static WIDTHS: [(&[u8], u32); 5] = [
    (b"i1", 1),
    (b"i8", 8),
    (b"i16", 16),
    (b"i32", 32),
    (b"i64", 64),
];

static LANES: [(&[u8], u32); 9] = [
    (b"v2", 2),
    (b"v4", 4),
    (b"v8", 8),
    (b"v16", 16),
    (b"v32", 32),
    (b"v64", 64),
    (b"v128", 128),
    (b"v256", 256),
    (b"v512", 512),
];

/// What stands behind a front.
pub fn behind_front<'t>(front: &[u8], text: &'t [u8]) -> Option<&'t [u8]>
    ensures { option_map (λ rest. rest.now) result ≡ behind_front front.now text.now }
{
    if text.starts_with(front) {
        Some(&text[front.len()..])
    } else {
        None
    }
}

// The width that is written so, before an end.
#[tactic(auto, unfolding(crate::specs::Intrinsics::width_texts))]
fn width_before(end: &[u8], text: &[u8]) -> Option<u32>
    ensures { result ≡ width_before end.now text.now }
{
    match text.strip_suffix(end) {
        Some(written) => find(&WIDTHS, written),
        None => None,
    }
}

// The vector that is written so, before an end, where a name may write so many lanes.
fn vector_of(lanes: &[u8], count: u32, end: &[u8], text: &[u8]) -> Option<Ty>
    ensures { result ≡ vector_in end.now text.now (lanes.now, count) }
{
    let width = width_before(end, behind_front(lanes, text)?)?;
    Some(Ty::Vector(count, width))
}

// The same of the first number of lanes with which it goes on rightly.
fn first_vector(lanes: &[(&[u8], u32)], end: &[u8], text: &[u8]) -> Option<Ty>
    ensures { result ≡ first (filter_map (vector_in end.now text.now) (map (λ e. (e.0.now, e.1)) lanes.now)) }
{
    for (front, count) in lanes {
        if let Some(vector) = vector_of(front, *count, end, text) {
            return Some(vector);
        }
    }
    None
}

/// The vector that is written so, before an end.
#[tactic(auto, unfolding(crate::specs::Intrinsics::lane_texts))]
pub fn vector_before(end: &[u8], text: &[u8]) -> Option<Ty>
    ensures { result ≡ vector_before end.now text.now }
{
    first_vector(&LANES, end, text)
}

/// The integer or the vector that is written so.
pub fn type_written(text: &[u8]) -> Option<Ty>
    ensures { result ≡ type_written text.now }
{
    match width_before(b"", text) {
        Some(width) => Some(Ty::Int(width)),
        None => vector_before(b"", text),
    }
}
