//! Whose record is looked for.

ghost use Rattle.std.specs.Prelude.{◌≡◌};
ghost use Rattle.cli_settings.specs.Checking.{HasTurns};
ghost use Rattle.cli_opening.specs.Members.{owner_of};

use cli_settings::Settings;
use simplex_record::Owner;
use types_core::{Participant, TermLength};

/// Whose record a member's is by its settings.
pub fn owner_by(settings: &Settings) -> Owner
    requires { HasTurns settings.now.committee.turns }
    ensures { result ≡ owner_of settings.now }
{
    let committee = &settings.committee;
    Owner {
        epoch: committee.epoch,
        term_length: TermLength::new(committee.turns.length),
        signer: Participant::new(settings.member),
    }
}
