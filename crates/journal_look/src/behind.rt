//! What stands behind the entries of a record.

ghost use Rattle.std.specs.Prelude.{◌≡◌, ◌↔◌, All, IsTrue};
ghost use Rattle.journal_look.specs.Look.{HasMore, IsTooMuch, IsUnclosed};

use journal_single::number_at;

/// Whether all bytes are 0.
fn are_zero(bytes: &[u8]) -> bool
    ensures { IsTrue result ↔ All (λ byte. byte ≡ 0) bytes.now }
{
    bytes.iter().all(|byte| *byte == 0)
}

/// Whether a gate is open.
fn is_open(gate: u8) -> bool
    ensures { IsTrue result ↔ (gate ≡ 1) }
{
    gate == 1
}

/// Whether a length, a body of that length and a gate stand in front, and the gate is open, or bytes stand behind it.
fn has_more(bytes: &[u8]) -> bool
    ensures { IsTrue result ↔ HasMore bytes.now }
{
    if bytes.len() < 5 {
        return false;
    }
    let size = number_at(bytes, 0) as usize;
    if size > bytes.len() - 5 {
        return false;
    }
    if size < bytes.len() - 5 {
        return true;
    }
    is_open(bytes[4 + size])
}

/// Whether a gate stands in front that isn't closed.
pub(crate) fn is_unclosed(rest: &[u8]) -> bool
    ensures { IsTrue result ↔ IsUnclosed rest.now }
{
    match rest.first() {
        Some(gate) => *gate != 0,
        None => false,
    }
}

/// Whether a gate that isn't open stands in front, and more behind it than a crash leaves.
pub(crate) fn is_too_much(rest: &[u8]) -> bool
    ensures { IsTrue result ↔ IsTooMuch rest.now }
{
    let Some((gate, behind)) = rest.split_first() else {
        return false;
    };
    !is_open(*gate) && has_more(behind) && !are_zero(behind)
}
