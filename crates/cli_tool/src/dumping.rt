//! Messages of any kind as lines.

ghost use Rattle.std.specs.Prelude.{◌≡◌, ◌++◌, ◌<◌, [], IfOk, OnOk, codes, length, string_bytes};
ghost use Rattle.std.specs.List.{flat_map};
ghost use Rattle.std.specs.Option.{option_map_or};
ghost use Rattle.types_codec.specs.Codec.{Readable};
ghost use Rattle.cli_tool.specs.ToolAnswers.{AreTold};
ghost use Rattle.cli_tool.specs.Parts.{place_line};

use crate::lines::Line;
use crate::parts::push_place;
use crate::reading::read_values;
use crate::style::Style;
use std::alloc::{AllocError, Global};
use types_core::Read;

/// The lines of the messages that the bytes hold, then the line of the first byte at which none stands, if there is one, and its
/// place. Refused only where memory is.
pub(crate) fn dumped_messages<M: Line + Read + Drop>(
    alloc: Global,
    style: Style,
    bound: u32,
    bytes: &[u8],
) -> Result<(String, Option<usize>), AllocError>
    requires { (message : M) → 0 < length (M.spelling message) }
    ensures { IfOk result (λ answer.
        AreTold (Readable M.fits (M.within bound)) M.spelling (M.reading bound) (M.line style) style bytes.now (string_bytes answer.0)
        answer.1) }
{
    let (messages, fault) = read_values::<M>(alloc, bound, bytes)?;
    let mut text = lines_of(alloc, style, &messages)?;
    push_fault(&mut text, style, fault)?;
    Ok((text, fault))
}

/// The lines of messages.
pub(crate) fn lines_of<M: Line>(
    alloc: Global,
    style: Style,
    messages: &[M],
) -> Result<String, AllocError>
    ensures { IfOk result (λ text. string_bytes text ≡ flat_map (M.line style) messages.now) }
{
    let mut text = String::new(alloc);
    for message in messages {
        message.push_line(alloc, &mut text, style)?;
    }
    Ok(text)
}

/// Ends the text with the line of a fault, if there is one.
fn push_fault(text: &mut String, style: Style, fault: Option<usize>) -> Result<(), AllocError>
    ensures { OnOk result (string_bytes text.new ≡ string_bytes text.old ++ option_map_or (place_line style (codes "fault")) fault []) }
{
    match fault {
        Some(place) => push_place(text, style, "fault", place as u64),
        None => Ok(()),
    }
}

/// The line of a foreign entry.
pub(crate) fn foreign_line(alloc: Global, style: Style, place: u64) -> Result<String, AllocError>
    ensures { IfOk result (λ text. string_bytes text ≡ place_line style (codes "foreign") place) }
{
    let mut text = String::new(alloc);
    push_place(&mut text, style, "foreign", place)?;
    Ok(text)
}
