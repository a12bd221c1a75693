//! Whom an audit names, and what does not change it.

ghost use Rattle.std.specs.Prelude.{◌≡◌, ◌↔◌, ◌+◌, ◌<◌, ◌^◌, ℕ, All, List, Contains, Option, None};
ghost use Rattle.std.specs.List.{flat_map};
ghost use Rattle.types_codec.specs.Codec.{Readable};
ghost use Rattle.types_quorum.specs.Committee.{faults};
ghost use Rattle.types_core.specs.declared.position.Round.{Round};
ghost use Rattle.simplex_messages.specs.declared.activity.Activity.{Activity};
ghost use Rattle.simplex_rules.specs.Accountability.{IsContradicted, NamesAtLeast};
ghost use Rattle.simplex_rules.specs.Audit.{Accusation, IsAccused, IsRead, IsVerdict};

use simplex_messages::Activity;
use types_core::{Digest, Listing, Read, Scheme, Write};

/// The laws of an audit's names: further reports take no name away, and the order of reports, or that
/// one is there twice, changes none.
pub fn names_rest_on_the_reports<S: Listing<D>, D: Digest>()
    ensures more { (scheme : S) (reports more evidence others : List (Activity S D S.PublicKey S.Signature S.Certificate))
        → IsVerdict S.lists (S.attests scheme) D.cmp reports evidence
        → IsVerdict S.lists (S.attests scheme) D.cmp more others
        → ((report : Activity S D S.PublicKey S.Signature S.Certificate) → Contains reports report → Contains more report)
        → (x : Accusation)
        → IsAccused evidence x
        → IsAccused others x }
    ensures any_order { (scheme : S) (reports others evidence told : List (Activity S D S.PublicKey S.Signature S.Certificate))
        → IsVerdict S.lists (S.attests scheme) D.cmp reports evidence
        → IsVerdict S.lists (S.attests scheme) D.cmp others told
        → ((report : Activity S D S.PublicKey S.Signature S.Certificate) → Contains reports report ↔ Contains others report)
        → (x : Accusation)
        → IsAccused evidence x ↔ IsAccused told x }
{}

/// The law of contradicted rounds: where certificates among the reports contradict each other on a round, any
/// evidence that is their verdict names at least one member more of it than may be faulty.
pub fn a_contradicted_round_names_enough<S: Listing<D>, D: Digest>()
    ensures { (scheme : S) (reports evidence : List (Activity S D S.PublicKey S.Signature S.Certificate)) (round : Round)
        → 0 < S.size scheme
        → IsVerdict S.lists (S.attests scheme) D.cmp reports evidence
        → IsContradicted (S.certifies scheme) reports round
        → NamesAtLeast (faults (S.size scheme) + 1) (S.size scheme) evidence round }
{}

/// The law of joined reports: the spellings of reports, one behind the other, are read to their end, and as these reports.
pub fn joined_reports_are_read<S: Scheme<D>, D: Digest>()
    ensures { (n : ℕ) (reports messages : List (Activity S D S.PublicKey S.Signature S.Certificate)) (fault : Option ℕ)
        → n < 2 ^ 32
        → All (Readable ⟦<Activity<S, D> as Write>⟧.fits (⟦<Activity<S, D> as Read>⟧.within n)) reports
        → IsRead (Readable ⟦<Activity<S, D> as Write>⟧.fits (⟦<Activity<S, D> as Read>⟧.within n)) ⟦<Activity<S, D> as Write>⟧.spelling
        (⟦<Activity<S, D> as Read>⟧.reading n) (flat_map ⟦<Activity<S, D> as Write>⟧.spelling reports) messages fault
        → (messages ≡ reports) × (fault ≡ None) }
{}
