//! The parts of a line.

ghost use Rattle.std.specs.Prelude.{◌≡◌, ◌++◌, IfOk, OnOk, string_bytes};
ghost use Rattle.std.specs.Fmt.{decimal};
ghost use Rattle.hex.specs.Hex.{encode_lower};
ghost use Rattle.cli_tool.specs.Parts.{field, kind_words, line_end, place_line, round_fields, signature_field, truth_word};

use crate::style::Style;
use simplex_types::PlainSignature;
use std::alloc::{AllocError, Global};
use types_core::{Attestation, Round, Sha256Digest, Write};

/// Ends the text with what a line begins with.
#[tactic(auto, unfolding(crate::specs::Parts::kind_words))]
pub(crate) fn push_kind(text: &mut String, style: Style, kind: &str) -> Result<(), AllocError>
    ensures { OnOk result (string_bytes text.new ≡ string_bytes text.old ++ kind_words style kind.now) }
{
    match style {
        Style::Plain => text.push_str(kind),
        Style::Json => write!(text, "{{\"kind\":\"{kind}\""),
    }
}

/// Ends the text with a name and a word.
#[tactic(auto, unfolding(crate::specs::Parts::field))]
pub(crate) fn push_word(
    text: &mut String,
    style: Style,
    name: &str,
    word: &str,
) -> Result<(), AllocError>
    ensures { OnOk result (string_bytes text.new ≡ string_bytes text.old ++ field style name.now word.now) }
{
    match style {
        Style::Plain => write!(text, " {name} {word}"),
        Style::Json => write!(text, ",\"{name}\":\"{word}\""),
    }
}

/// Ends the text with a name and a number.
#[tactic(auto, unfolding(crate::specs::Parts::field))]
pub(crate) fn push_number(
    text: &mut String,
    style: Style,
    name: &str,
    number: u64,
) -> Result<(), AllocError>
    ensures { OnOk result (string_bytes text.new ≡ string_bytes text.old ++ field style name.now (decimal number)) }
{
    match style {
        Style::Plain => write!(text, " {name} {number}"),
        Style::Json => write!(text, ",\"{name}\":\"{number}\""),
    }
}

/// Ends the text with a name and a payload.
#[tactic(auto, unfolding(crate::specs::Parts::field))]
pub(crate) fn push_payload(
    text: &mut String,
    style: Style,
    name: &str,
    payload: Sha256Digest,
) -> Result<(), AllocError>
    ensures { OnOk result (string_bytes text.new ≡ string_bytes text.old ++ field style name.now (encode_lower payload)) }
{
    match style {
        Style::Plain => write!(text, " {name} {payload}"),
        Style::Json => write!(text, ",\"{name}\":\"{payload}\""),
    }
}

/// Ends the text with the end of a line.
#[tactic(auto, unfolding(crate::specs::Parts::line_end))]
pub(crate) fn push_end(text: &mut String, style: Style) -> Result<(), AllocError>
    ensures { OnOk result (string_bytes text.new ≡ string_bytes text.old ++ line_end style) }
{
    match style {
        Style::Plain => text.push_str("\n"),
        Style::Json => text.push_str("}\n"),
    }
}

/// The digits of a signature.
fn digits_of(alloc: Global, signature: &PlainSignature) -> Result<String, AllocError>
    ensures { IfOk result (λ digits. string_bytes digits ≡ encode_lower signature.now) }
{
    let mut bytes = Vec::new(alloc);
    signature.append(&mut bytes)?;
    hex::encode(alloc, bytes)
}

/// Ends the text with a name and a signature.
pub(crate) fn push_signature(
    alloc: Global,
    text: &mut String,
    style: Style,
    name: &str,
    signature: &PlainSignature,
) -> Result<(), AllocError>
    ensures { OnOk result (string_bytes text.new ≡ string_bytes text.old ++ field style name.now (encode_lower signature.now)) }
{
    let digits = digits_of(alloc, signature)?;
    push_word(text, style, name, digits.as_str())
}

/// Ends the text with an attestation that a certificate lists.
#[tactic(auto, unfolding(crate::specs::Parts::signature_field))]
pub(crate) fn push_attestation(
    alloc: Global,
    text: &mut String,
    style: Style,
    attestation: &Attestation<PlainSignature>,
) -> Result<(), AllocError>
    ensures { OnOk result (string_bytes text.new ≡ string_bytes text.old ++ signature_field style attestation.now) }
{
    let signer = attestation.signer.get();
    let name = format!(in alloc; "signature-{signer}")?;
    push_signature(alloc, text, style, name.as_str(), &attestation.signature)
}

/// Ends the text with a round.
#[tactic(auto, unfolding(crate::specs::Parts::round_fields))]
pub(crate) fn push_round(text: &mut String, style: Style, round: Round) -> Result<(), AllocError>
    ensures { OnOk result (string_bytes text.new ≡ string_bytes text.old ++ round_fields style round) }
{
    push_number(text, style, "epoch", round.epoch.get())?;
    push_number(text, style, "view", round.view.get())
}

/// Ends the text with the line that names a place, counted in bytes from 0.
#[tactic(auto, unfolding(crate::specs::Parts::place_line, crate::specs::Parts::kind_words, crate::specs::Parts::field, crate::specs::Parts::line_end))]
pub(crate) fn push_place(
    text: &mut String,
    style: Style,
    word: &str,
    place: u64,
) -> Result<(), AllocError>
    ensures { OnOk result (string_bytes text.new ≡ string_bytes text.old ++ place_line style word.now place) }
{
    match style {
        Style::Plain => writeln!(text, "{word} at byte {place}"),
        Style::Json => writeln!(text, "{{\"kind\":\"{word}\",\"byte\":\"{place}\"}}"),
    }
}

/// How a truth value is told.
pub(crate) fn word_of(truth: bool) -> &'static str
    ensures { result.now ≡ truth_word truth }
{
    if truth { "true" } else { "false" }
}
