//! Suspects in their order, each with its place.

ghost use Rattle.std.specs.Prelude.{◌≡◌, ◌++◌, ◌∷◌, [], false, IsErr, IfOk, IfSome, OnOk, IsTrue, slice_get};
ghost use Rattle.std.specs.BTreeSet.{IsOrdered, IsSubset, btree_set_len, contains};
ghost use Rattle.std.specs.List.Sorted.{IsStrictlySortedBy};
ghost use Rattle.simplex_rules.specs.Kept.{StandsAt, set_of, suspect_cmp};

use crate::cast::Suspect;
use std::alloc::{AllocError, Global};
use std::cmp::Ordering;
use std::collections::BTreeSet;
use std::marker::Model;

/// Suspects that are gathered. Reports mostly come round by round and signer by signer, and a set that grows at its end alone is
/// half empty, so those that come so stand in a list.
#[derive(Drop)]
pub(crate) struct Gathered {
    /// Those that came in order, each above all that came before.
    ascending: Vec<Suspect>,
    /// Those that came late, when one above them had come.
    late: BTreeSet<Suspect>,
    /// Where the next one is looked for first.
    next: usize,
}

impl Model for Gathered {
    ghost use Rattle.std.specs.Prelude.{◌++◌};
    ghost use Rattle.std.specs.BTreeSet.{BTreeSet};
    ghost use Rattle.std.specs.List.Sorted.{IsStrictlySortedBy};
    ghost use Rattle.simplex_rules.specs.declared.cast.Suspect.{Suspect};
    ghost use Rattle.simplex_rules.specs.Kept.{set_of, suspect_cmp};

    ghost Value = { BTreeSet Suspect };

    ghost view = { λ gathered. set_of (gathered.ascending.items ++ gathered.late.keys) };

    ghost invariant = { λ gathered. IsStrictlySortedBy suspect_cmp gathered.ascending.items };
}

impl Gathered {
    /// Nobody.
    pub(crate) fn new(alloc: Global) -> Self {
        Gathered {
            ascending: Vec::new(alloc),
            late: BTreeSet::new(alloc),
            next: 0,
        }
    }

    /// Adds the suspect.
    pub(crate) fn insert(&mut self, suspect: &Suspect) -> Result<(), AllocError>
        ensures stay { OnOk result (IsSubset suspect_cmp self.old self.new) }
        ensures added { OnOk result (IsTrue (contains suspect_cmp self.new suspect.now)) }
    {
        match place_of(&self.ascending, self.next, suspect) {
            Ok(place) => {
                self.next = place.saturating_add(1);
                Ok(())
            }
            Err(gap) => {
                self.next = gap.saturating_add(1);
                self.insert_new(suspect)
            }
        }
    }

    /// Adds the suspect, which is none of those that came in order.
    #[inline(never)]
    fn insert_new(&mut self, suspect: &Suspect) -> Result<(), AllocError>
        ensures stay { OnOk result (IsSubset suspect_cmp self.old self.new) }
        ensures added { OnOk result (IsTrue (contains suspect_cmp self.new suspect.now)) }
    {
        if is_above(&self.ascending, suspect) {
            self.ascending.push(*suspect)?;
        } else {
            self.late.insert(*suspect)?;
        }
        Ok(())
    }

    /// All of them, in order.
    pub(crate) fn into_suspects(self, alloc: Global) -> Result<Suspects, AllocError>
        ensures { IfOk result (λ suspects. IsSubset suspect_cmp self suspects) }
    {
        let Gathered {
            ascending,
            mut late,
            next: _,
        } = self;
        if late.is_empty() {
            return Ok(Suspects { ascending });
        }
        insert_all(&ascending, &mut late)?;
        listed(alloc, &late)
    }
}

/// Suspects in order, each at a place.
#[derive(Drop)]
pub(crate) struct Suspects {
    ascending: Vec<Suspect>,
}

impl Model for Suspects {
    ghost use Rattle.std.specs.BTreeSet.{BTreeSet};
    ghost use Rattle.std.specs.List.Sorted.{IsStrictlySortedBy};
    ghost use Rattle.simplex_rules.specs.declared.cast.Suspect.{Suspect};
    ghost use Rattle.simplex_rules.specs.Kept.{set_of, suspect_cmp};

    ghost Value = { BTreeSet Suspect };

    ghost view = { λ suspects. set_of suspects.ascending.items };

    ghost invariant = { λ suspects. IsStrictlySortedBy suspect_cmp suspects.ascending.items };
}

impl Suspects {
    /// All of them, in order.
    pub(crate) fn as_slice(&self) -> &[Suspect]
        ensures keys { result.now ≡ self.now.keys }
        ensures ordered { IsOrdered suspect_cmp self.now }
    {
        &self.ascending
    }

    /// The place of the suspect, if it is one of these, or else where it would stand. At the place `next` it is looked for first.
    pub(crate) fn place_of(&self, next: usize, suspect: &Suspect) -> Result<usize, usize>
        ensures found { IfOk result (λ place. StandsAt self.now place suspect.now) }
        ensures absent { IsErr result → contains suspect_cmp self.now suspect.now ≡ false }
    {
        place_of(&self.ascending, next, suspect)
    }
}

/// The place of the suspect among these, or else where it would stand. Suspects come in order, so that most stand at the place that
/// is named, or right before it, or between the two.
fn place_of(suspects: &[Suspect], next: usize, suspect: &Suspect) -> Result<usize, usize>
    requires { IsStrictlySortedBy suspect_cmp suspects.now }
    ensures found { IfOk result (λ place. StandsAt (set_of suspects.now) place suspect.now) }
    ensures absent { IsErr result → contains suspect_cmp (set_of suspects.now) suspect.now ≡ false }
{
    let Some(here) = suspects.get(next) else {
        return place_before(suspects, next, suspect);
    };
    match here.cmp(suspect) {
        Ordering::Less => search(suspects, suspect),
        Ordering::Equal => Ok(next),
        Ordering::Greater => place_before(suspects, next, suspect),
    }
}

/// The place of the suspect among these, or else where it would stand: that is below the one at the place `next`, if there is one.
fn place_before(suspects: &[Suspect], next: usize, suspect: &Suspect) -> Result<usize, usize>
    requires sorted { IsStrictlySortedBy suspect_cmp suspects.now }
    requires below { IfSome (slice_get suspects.now next) (λ here. suspect_cmp here suspect.now ≡ Ordering.Greater) }
    ensures found { IfOk result (λ place. StandsAt (set_of suspects.now) place suspect.now) }
    ensures absent { IsErr result → contains suspect_cmp (set_of suspects.now) suspect.now ≡ false }
{
    let Some(before) = next.checked_sub(1) else {
        return search(suspects, suspect);
    };
    match suspects.get(before) {
        None => search(suspects, suspect),
        Some(last) => match last.cmp(suspect) {
            Ordering::Less => Err(next),
            Ordering::Equal => Ok(before),
            Ordering::Greater => search(suspects, suspect),
        },
    }
}

/// The place of the suspect among these, or else where it would stand. It is not inlined, since few have to be searched for.
#[inline(never)]
fn search(suspects: &[Suspect], suspect: &Suspect) -> Result<usize, usize>
    requires { IsStrictlySortedBy suspect_cmp suspects.now }
    ensures found { IfOk result (λ place. StandsAt (set_of suspects.now) place suspect.now) }
    ensures absent { IsErr result → contains suspect_cmp (set_of suspects.now) suspect.now ≡ false }
{
    suspects.binary_search(suspect)
}

/// Whether the suspect is above all of these.
fn is_above(ascending: &[Suspect], suspect: &Suspect) -> bool
    requires { IsStrictlySortedBy suspect_cmp ascending.now }
    ensures { IsTrue result → IsStrictlySortedBy suspect_cmp (ascending.now ++ suspect.now ∷ []) }
{
    match ascending.last() {
        Some(last) => last.cmp(suspect).is_lt(),
        None => true,
    }
}

/// Adds each of the suspects.
fn insert_all(suspects: &[Suspect], all: &mut BTreeSet<Suspect>) -> Result<(), AllocError>
    ensures stay { OnOk result (IsSubset suspect_cmp all.old all.new) }
    ensures added { OnOk result (IsSubset suspect_cmp (set_of suspects.now) all.new) }
{
    for suspect in suspects {
        all.insert(*suspect)?;
    }
    Ok(())
}

/// The suspects as a list.
fn listed(alloc: Global, all: &BTreeSet<Suspect>) -> Result<Suspects, AllocError>
    ensures { IfOk result (λ suspects. suspects ≡ all.now) }
{
    let mut ascending = Vec::new(alloc);
    for suspect in all {
        ascending.push(*suspect)?;
    }
    Ok(Suspects { ascending })
}
