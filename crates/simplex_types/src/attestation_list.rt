//! Certificates that list their attestations.

ghost use Rattle.std.specs.Prelude.{◌≡◌, ◌+◌, ◌++◌, ◌<◌, ◌≤◌, ◌^◌, length, take, vec_len, All, IfOk, OnOk, OnErr};
ghost use Rattle.std.specs.List.{flat_map};
ghost use Rattle.types_core.specs.Attestation.{attestation_fits, attestation_spelling};
ghost use Rattle.types_codec.specs.Codec.{Gives, GivesBy};
ghost use Rattle.simplex_types.specs.AttestationList.{next_at, ascending_at};

use std::alloc::{AllocError, Global};
use std::hash::{Hash, Hasher};
use std::marker::Model;
use types_codec::{put_varint, read_u64, varint_size};
use types_core::{
    Aggregate, AssemblyError, Attestation, CodecError, Duplicate, EncodeSize, MaxEncodeSize,
    Participant, Read, Signature, Write, quorum,
};

/// Attestations of distinct members, by ascending index.
#[derive(Debug, Drop)]
pub struct AttestationList<G: Signature> {
    attestations: Vec<Attestation<G>>,
}

impl<G: Signature> Model for AttestationList<G> {
    ghost use Rattle.std.specs.Prelude.{List, length, ◌≤◌};
    ghost use Rattle.types_core.specs.declared.attestation.Attestation.{Attestation};
    ghost use Rattle.types_core.specs.Ascending.{AscendsFrom};
    ghost use Rattle.types_codec.specs.Varint.{max_u32};

    ghost Value = { List (Attestation G) };

    ghost view = { λ c. c.attestations.items };

    ghost invariant = { λ c. AscendsFrom 0 c.attestations.items × (length c.attestations.items ≤ max_u32) };
}

impl<G: Signature> AttestationList<G> {
    ghost use Rattle.std.specs.Prelude.{◌≡◌, ◌<◌, ◌≤◌, length, All, Err, IfOk, IfErr};
    ghost use Rattle.std.specs.List.Sorted.{IsPermutation};
    ghost use Rattle.types_core.specs.Ascending.{AscendsFrom};
    ghost use Rattle.simplex_types.specs.AttestationList.{list_within};
    ghost use Rattle.types_core.specs.Quorum.{AreDistinct};
    ghost use Rattle.types_quorum.specs.Committee.{quorum};
    ghost use Rattle.types_core.specs.declared.scheme.AssemblyError.TheVariants.{InsufficientAttestations, Memory};

    /// The list of these attestations, of distinct members of a committee of so many, as
    /// `are_of_distinct_members` tells. Refused only where memory is.
    pub fn new(
        alloc: Global,
        participants: u32,
        attestations: &[Attestation<G>],
    ) -> Result<Self, AllocError>
        requires distinct { AreDistinct attestations.now }
        requires members { All (λ a. a.signer < participants) attestations.now }
        ensures same { IfOk result (λ c. IsPermutation attestations.now c) }
        ensures ascending { IfOk result (λ c. AscendsFrom 0 c) }
        ensures within { IfOk result (λ c. list_within participants c) }
    {
        let mut attestations = Vec::from_slice(alloc, attestations)?;
        attestations.sort_unstable_by_key(|attestation| attestation.signer.get());
        Ok(AttestationList { attestations })
    }

    /// The list of these attestations, where they are enough for a quorum of a committee of so many.
    ///
    /// # Errors
    ///
    /// [`AssemblyError::InsufficientAttestations`] where they are fewer than a quorum, and
    /// [`AssemblyError::Memory`] where memory ran out.
    pub fn assemble(
        alloc: Global,
        participants: u32,
        attestations: &[Attestation<G>],
    ) -> Result<Self, AssemblyError>
        requires distinct { AreDistinct attestations.now }
        requires members { All (λ a. a.signer < participants) attestations.now }
        ensures same { IfOk result (λ c. IsPermutation attestations.now c) }
        ensures ascending { IfOk result (λ c. AscendsFrom 0 c) }
        ensures quorum { IfOk result (λ c. quorum participants ≤ length c) }
        ensures within { IfOk result (λ c. list_within participants c) }
        ensures too_few { length attestations.now < quorum participants
            → result ≡ Err (InsufficientAttestations (quorum participants) (length attestations.now)) }
        ensures enough { quorum participants ≤ length attestations.now → IfErr result (λ e. e ≡ Memory) }
    {
        let needed = quorum(participants);
        let count = attestations.len();
        if count < needed as usize {
            return Err(AssemblyError::InsufficientAttestations(needed, count as u32));
        }
        Ok(Self::new(alloc, participants, attestations)?)
    }

    /// The attestations, by ascending index.
    pub fn attestations(&self) -> &[Attestation<G>]
        ensures value { result.now ≡ self.now }
        ensures ascending { AscendsFrom 0 self.now }
    {
        self.attestations.as_slice()
    }
}

/// Reads one attestation of an index from `low` on and below the bound.
#[tactic(auto, unfolding(crate::specs::AttestationList::next_at))]
fn read_next<G: Signature>(
    alloc: Global,
    input: &mut &[u8],
    bound: u32,
    low: u32,
) -> Result<Attestation<G>, CodecError>
    ensures exact { Gives (next_at (G.reading bound) bound low) input.old.now input.new.now result }
    ensures below { IfOk result (λ a. a.signer < bound) }
{
    let mut rest = *input;
    let signer = Participant::read_cfg(alloc, &mut rest, bound)?;
    if signer.get() < low || signer.get() >= bound {
        return Err(CodecError::Invalid);
    }
    let Some(signature) = G::take(&mut rest, bound) else {
        // This says why there is none.
        G::read_cfg(alloc, &mut rest, bound)?;
        unreachable!();
    };
    *input = rest;
    Ok(Attestation { signer, signature })
}

/// Reads so many attestations of ascending indices below the bound.
fn read_ascending<G: Signature>(
    alloc: Global,
    input: &mut &[u8],
    bound: u32,
    count: u64,
) -> Result<Vec<Attestation<G>>, CodecError>
    ensures { GivesBy (λ v. v.items) (ascending_at (G.reading bound) bound count 0) input.old.now input.new.now result }
{
    let mut attestations = Vec::new(alloc);
    let mut rest = *input;
    let mut low = 0;
    for _ in 0..count {
        let attestation = read_next(alloc, &mut rest, bound, low)?;
        low = attestation.signer.get() + 1;
        attestations.push(attestation)?;
    }
    *input = rest;
    Ok(attestations)
}

/// Appends the spellings of the attestations. Where memory is refused, a part may stand behind what was
/// there.
fn put_all<G: Signature>(
    out: &mut Vec<u8>,
    attestations: &[Attestation<G>],
) -> Result<(), AllocError>
    ensures ok { OnOk result (out.new.items ≡ out.old.items ++ flat_map (attestation_spelling G.spelling) attestations.now) }
    ensures readable { OnOk result (All (attestation_fits G.fits) attestations.now) }
    ensures err { OnErr result (take (vec_len out.old) out.new.items ≡ out.old.items) }
{
    for attestation in attestations {
        attestation.write(out)?;
    }
    Ok(())
}

impl<G: Signature> Write for AttestationList<G> {
    ghost use Rattle.simplex_types.specs.AttestationList.{list_fits, list_spelling};

    ghost fits = { list_fits G.fits };

    ghost spelling = { list_spelling G.spelling };

    #[tactic(auto, unfolding(crate::specs::AttestationList::list_spelling, crate::specs::AttestationList::list_fits))]
    fn append(&self, out: &mut Vec<u8>) -> Result<(), AllocError> {
        put_varint(out, self.attestations.len() as u64)?;
        put_all(out, &self.attestations)
    }
}

impl<G: Signature> Read for AttestationList<G> {
    ghost use Rattle.simplex_types.specs.AttestationList.{list_within, list_within-grows, list_at};
    ghost use Rattle.types_codec.specs.Codec.{bounded-IsCodec};
    ghost use Rattle.simplex_types.specs.ListCodec.{list-IsCodec};

    ghost within = { list_within };

    ghost reading = { λ n. list_at (G.reading n) n };

    ghost one_spelling = { λ n small. list-IsCodec n small (bounded-IsCodec (G.one_spelling n small) (G.unbounded n)) };

    ghost grows = { list_within-grows };

    #[tactic(auto, unfolding(crate::specs::AttestationList::list_at))]
    fn read_cfg(alloc: Global, input: &mut &[u8], bound: u32) -> Result<Self, CodecError> {
        let mut rest = *input;
        let count = read_u64(&mut rest)?;
        if u64::from(bound) < count {
            return Err(CodecError::TooLong);
        }
        let attestations = read_ascending(alloc, &mut rest, bound, count)?;
        *input = rest;
        Ok(AttestationList { attestations })
    }
}

impl<G: Signature> PartialEq for AttestationList<G> {
    ghost use Rattle.std.proofs.Common.{rules};
    ghost use Rattle.std.specs.Cmp.Rules.{comparing};
    ghost use Rattle.simplex_types.specs.AttestationList.{same_list};

    ghost eq = { same_list G.PartialEq.eq };

    ghost laws = { Prim.search (comparing, rules) depth 9 };

    fn eq(&self, other: &Self) -> bool {
        self.attestations.as_slice() == other.attestations.as_slice()
    }
}

impl<G: Signature> Eq for AttestationList<G> {
    ghost use Rattle.std.proofs.Common.{rules};
    ghost use Rattle.std.specs.Cmp.Rules.{comparing};

    ghost laws = { Prim.search (comparing, rules) depth 9 };
}

impl<G: Signature> Hash for AttestationList<G> {
    ghost use Rattle.std.specs.Hash as fed;
    ghost use Rattle.std.proofs.Common.{ap};
    ghost use Rattle.simplex_types.specs.ListEquality.{same_list-is};

    ghost hash_input = { λ c. fed.slice (λ a. fed.u32 a.signer ++ G.hash_input a.signature) c };

    ghost respects_eq = { λ x y same. ap (λ c. fed.slice (λ a. fed.u32 a.signer ++ G.hash_input a.signature) c)
        ((same_list-is G.PartialEq.eq G.equal_is_same x y).0 same) };

    fn hash<H: Hasher>(&self, state: &mut H) {
        self.attestations.hash(state);
    }
}

impl<G: Signature> Duplicate for AttestationList<G> {
    fn duplicate(&self, alloc: Global) -> Result<Self, AllocError> {
        let attestations = Vec::from_slice(alloc, &self.attestations)?;
        Ok(AttestationList { attestations })
    }
}

impl<G: Signature> EncodeSize for AttestationList<G> {
    ghost use Rattle.std.proofs.Common.{rules};
    ghost use Rattle.simplex_types.specs.ListSize.{longest_list};

    ghost max_size = { longest_list };

    #[tactic(auto, unfolding(crate::specs::AttestationList::list_spelling, crate::specs::AttestationList::list_fits))]
    fn encode_size(&self) -> usize {
        let mut size = varint_size(self.attestations.len() as u64);
        for attestation in &self.attestations {
            size += attestation.encode_size();
        }
        size
    }

    ghost short = { Prim.search rules };
}

impl<G: Signature> Aggregate for AttestationList<G> {
    ghost use Rattle.std.specs.Prelude.{◌*◌};
    ghost use Rattle.std.proofs.Common.{rules};
    ghost use Rattle.simplex_types.specs.ListEquality.{same_list-is};
    ghost use Rattle.simplex_types.specs.ListSize.{list_longest, list_modest};

    ghost most_bytes = { λ n. 5 + n * (5 + G.max_size) };

    fn max_encode_size(participants: u32) -> usize {
        5 + participants as usize * Attestation::<G>::max_encode_size()
    }

    #[tactic(auto, unfolding(crate::specs::AttestationList::list_within))]
    fn is_within(&self, participants: u32) -> bool {
        // The last index is the greatest.
        match self.attestations.last() {
            Some(last) => last.signer.get() < participants,
            None => true,
        }
    }

    ghost longest = { λ n x small fits within. list_longest G.fits G.spelling G.max_size G.longest n x small fits within };

    ghost modest = { λ n small. list_modest G.max_size G.small n small };

    ghost equal_is_same = { λ x y. same_list-is G.PartialEq.eq G.equal_is_same x y };

    ghost small = { Prim.search rules };
}
