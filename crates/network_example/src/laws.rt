//! That networks are there, that contradictory certificates can be reported in one, and that one member finalizes view after view.

ghost use Rattle.simplex_member.specs.Laws.{IsExact};
ghost use Rattle.simplex_member.specs.Packet.{Formats, formats};
ghost use Rattle.network_example.specs.Based.{MembersBeginAtFloors};
ghost use Rattle.network_example.specs.Contradicted.{ContradictionsAreNamed};
ghost use Rattle.network_example.specs.Example.{NetworksAreThere};
ghost use Rattle.network_example.specs.Finalized.{TwoViewsAreFinalized};
ghost use Rattle.network_example.specs.Plain.{PlainNetworksAreThere};
ghost use Rattle.network_example.specs.PlainContradicted.{PlainContradictionsAreNamed};
ghost use Rattle.network_example.specs.PlainFinalized.{PlainViewsAreFinalized};

use simplex_member::packets_are_read_back;
use simplex_network::accountability;
use simplex_types::{AttestationList, PlainScheme, PlainSignature};
use types_core::{Digest, Listing, Read, Scheme, Write};

/// A network of four members: three of them each open, refuse what the fourth sends, a liar, and block it; crash
/// once their nullify of view 1 is recorded, and before it is sent; open again, find it, and repeat it. Then the first
/// is handed by the liar the certificate that the view is given up, takes it and hands it on to the others, who take it
/// too and enter the next view. It is a network by any scheme of four by which these three sign and attest alike, and
/// by which that certifies; and all that is asked of members of whom none is blamed is so.
pub fn networks_are_there<S: Scheme<D>, D: Digest>()
    ensures { (f : Formats S D S.PublicKey S.Signature S.Certificate) → NetworksAreThere S.Scheme f }
{}

/// The plain scheme is such a one, in a committee of four, with packets as the messages spell them: the liar sends no
/// bytes for a vote, and the certificate lists the attestations of the three.
pub fn plain_networks_are_there<D: Digest>()
    ensures { PlainNetworksAreThere ⟦<PlainScheme as Scheme<D>>⟧ (formats D.PartialEq.eq D.spelling ⟦<PlainSignature as Write>⟧.spelling
        ⟦<AttestationList<PlainSignature> as Write>⟧.spelling D.reading ⟦<PlainSignature as Read>⟧.reading
        ⟦<AttestationList<PlainSignature> as Read>⟧.reading 4) D.spelling }
{
    networks_are_there::<PlainScheme, D>();
    packets_are_read_back::<PlainScheme, D>();
}

/// Three of four members are excused; their certificates finalize view 2 and give it up. The fourth crashes right behind
/// its first opening; in its second life, where a leader has 1,500 in place of 1,000, nothing is due at 1,200; then it
/// takes both certificates and reports them. Each audit of these reports names at least two members of the view, and not
/// this one.
pub fn contradictions_are_named<S: Listing<D>, D: Digest>()
    ensures { (f : Formats S D S.PublicKey S.Signature S.Certificate) → IsExact f → ContradictionsAreNamed S.Scheme f D.cmp }
{
    accountability::<S, D>();
}

/// So they are under the plain scheme, with packets as the messages spell them: each certificate lists the attestations
/// of the three that are excused.
pub fn plain_contradictions_are_named<D: Digest>()
    ensures { PlainContradictionsAreNamed ⟦<PlainScheme as Scheme<D>>⟧ (formats D.PartialEq.eq D.spelling ⟦<PlainSignature as Write>⟧.spelling
        ⟦<AttestationList<PlainSignature> as Write>⟧.spelling D.reading ⟦<PlainSignature as Read>⟧.reading
        ⟦<AttestationList<PlainSignature> as Read>⟧.reading 4) D.cmp D.spelling D.fits }
{
    contradictions_are_named::<PlainScheme, D>();
    packets_are_read_back::<PlainScheme, D>();
}

/// The finalization of such a view lets the fourth member begin there: its opening brings it, records it, reports it and hands its proposal
/// out as final, and sends nothing. Its record begins at the view.
pub fn members_begin_at_floors<S: Scheme<D>, D: Digest>()
    ensures { (f : Formats S D S.PublicKey S.Signature S.Certificate) → MembersBeginAtFloors S.Scheme f }
{}

/// A committee of one finalizes two views, the second on the first: it builds in each, votes, makes each certificate of its own vote, and
/// finds good what it built. Both proposals are handed out as final, and both finalizations seen. Then it rewrites its record, crashes while
/// it does, and opens over the second finalization, of which alone the new record consists.
pub fn two_views_are_finalized<S: Scheme<D>, D: Digest>()
    ensures { (f : Formats S D S.PublicKey S.Signature S.Certificate) → TwoViewsAreFinalized S.Scheme f }
{}

/// So it does under the plain scheme, with packets as the messages spell them, whatever the payloads are: each certificate is the member's
/// one attestation.
pub fn plain_views_are_finalized<D: Digest>()
    ensures { PlainViewsAreFinalized ⟦<PlainScheme as Scheme<D>>⟧ (formats D.PartialEq.eq D.spelling ⟦<PlainSignature as Write>⟧.spelling
        ⟦<AttestationList<PlainSignature> as Write>⟧.spelling D.reading ⟦<PlainSignature as Read>⟧.reading
        ⟦<AttestationList<PlainSignature> as Read>⟧.reading 1) D.spelling D.fits }
{
    two_views_are_finalized::<PlainScheme, D>();
    packets_are_read_back::<PlainScheme, D>();
}
