//! What certificates certify.

ghost use Rattle.cli_settings.specs.Checking.{HasMembers};

use cli_light::{Certified, Uncertified, certifies, finalized_in};
use cli_settings::Committee;
use test_words::{Say, Trouble};

/// Why nothing is certified.
fn say_why(why: Uncertified, say: &mut Say) -> Result<(), Trouble> {
    match why {
        Uncertified::Unread(trouble) => say.fault(trouble),
        Uncertified::OtherEpoch => say.text("epoch"),
        Uncertified::NotCertifying => say.text("unsigned"),
    }
}

/// `certifies BYTES`.
pub(crate) fn one(committee: &Committee, bytes: &[u8], say: &mut Say) -> Result<(), Trouble>
    requires { HasMembers committee.now }
{
    match certifies(say.alloc, committee, bytes) {
        Ok(Certified::Notarization(proposal)) => {
            say.text("notarization ")?;
            say.proposal(&proposal)
        }
        Ok(Certified::Nullification(round)) => {
            say.text("nullification ")?;
            say.round(&round)
        }
        Ok(Certified::Finalization(proposal)) => {
            say.text("finalization ")?;
            say.proposal(&proposal)
        }
        Err(why) => say_why(why, say),
    }
}

/// `chain BYTES`.
pub(crate) fn chain(committee: &Committee, bytes: &[u8], say: &mut Say) -> Result<(), Trouble>
    requires { HasMembers committee.now }
{
    match finalized_in(say.alloc, committee, bytes) {
        Ok(found) => {
            say.number(found.len() as u64)?;
            for proposal in &found {
                say.gap()?;
                say.proposal(proposal)?;
            }
            Ok(())
        }
        Err(broken) => {
            say.number(broken.place as u64)?;
            say.gap()?;
            match broken.why {
                Some(why) => say_why(why, say),
                None => say.none(),
            }
        }
    }
}
