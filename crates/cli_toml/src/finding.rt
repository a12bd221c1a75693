//! Where a place of a text stands.

ghost use Rattle.std.specs.Prelude.{◌≡◌, ◌≤◌, length};
ghost use Rattle.cli_toml.specs.Refusing.{line_of};

/// The line of this place of a text, counted from 1.
#[tactic(auto, using(crate::proofs::Wrong::ends_within))]
pub fn line_at(text: &[u8], place: usize) -> usize
    requires { place ≤ length text.now }
    ensures { result ≡ line_of place text.now }
{
    let before = &text[..place];
    before.iter().filter(|byte| **byte == b'\n').count() + 1
}
