//! Hashing of what is signed, piece by piece, so that no memory is taken.

ghost use Rattle.std.specs.Prelude.{◌++◌, ◌≤◌, ℕ, List, length};
ghost use Rattle.simplex_types.specs.Plain.{hashed};
ghost use Rattle.sha2.specs.Hashers.{Holds256};
ghost use Rattle.types_core.specs.Proposal.{proposal_spelling};
ghost use Rattle.types_core.specs.Round.{round_spelling};
ghost use Rattle.types_core.specs.Subject.{statement, message};
ghost use Rattle.types_codec.specs.Varint.{varint};

use sha2::{Digest as _, Sha256};
use types_core::{Digest, Participant, Proposal, Round, Subject};

/// Hashes all that the plain scheme hashes for this index and subject, in namespaces over this base.
/// It is for schemes whose signatures are hashes, and takes no memory.
pub fn hash_signed<D: Digest>(
    hasher: &mut Sha256,
    base: &[u8],
    index: Participant,
    subject: &Subject<'_, D>,
)
    requires { length base.now ≤ 255 }
    ensures { (m : List ℕ) → Holds256 hasher.old m → Holds256 hasher.new (m ++ hashed D.spelling base.now index (statement subject.now)) }
{
    let kind = subject.kind_name();
    hasher.update(index.get().to_be_bytes());
    hasher.update(((base.len() + kind.len()) as u32).to_be_bytes());
    hasher.update(base);
    hasher.update(kind);
    hash_message(hasher, subject);
}

/// Hashes the message of the subject.
fn hash_message<D: Digest>(hasher: &mut Sha256, subject: &Subject<'_, D>)
    ensures { (m : List ℕ) → Holds256 hasher.old m → Holds256 hasher.new (m ++ message D.spelling (statement subject.now)) }
{
    match subject {
        Subject::Notarize(proposal) => hash_proposal(hasher, proposal),
        Subject::Nullify(round) => hash_round(hasher, round),
        Subject::Finalize(proposal) => hash_proposal(hasher, proposal),
    }
}

/// Hashes a proposal as it is spelled.
fn hash_proposal<D: Digest>(hasher: &mut Sha256, proposal: &Proposal<D>)
    ensures { (m : List ℕ) → Holds256 hasher.old m → Holds256 hasher.new (m ++ proposal_spelling D.spelling proposal.now) }
{
    hash_round(hasher, &proposal.round);
    hash_number(hasher, proposal.parent.get());
    hasher.update(proposal.payload.as_bytes());
}

/// Hashes a round as it is spelled.
fn hash_round(hasher: &mut Sha256, round: &Round)
    ensures { (m : List ℕ) → Holds256 hasher.old m → Holds256 hasher.new (m ++ round_spelling round.now) }
{
    hash_number(hasher, round.epoch.get());
    hash_number(hasher, round.view.get());
}

/// Hashes a number as it is spelled.
#[tactic(auto, using(types_codec::specs::Varint::varint_steps))]
fn hash_number(hasher: &mut Sha256, number: u64)
    ensures { (m : List ℕ) → Holds256 hasher.old m → Holds256 hasher.new (m ++ varint number) }
{
    if number < 128 {
        hasher.update([number as u8]);
    } else {
        hasher.update([(number % 128) as u8 + 128]);
        hash_number(hasher, number / 128);
    }
}
