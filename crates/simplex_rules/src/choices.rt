//! What the first vote of each round is for, its choice.

ghost use Rattle.std.specs.Prelude.{◌≡◌, ◌++◌, ◌∷◌, [], OnOk, IfOk, IsTrue, None, Some};
ghost use Rattle.std.specs.Option.{option_copied, is_some};
ghost use Rattle.types_core.specs.declared.position.Round.{Round};
ghost use Rattle.simplex_rules.specs.declared.cast.Choice.{Choice};
ghost use Rattle.simplex_rules.specs.Choices.{Ascend, Extends, choice_in};

use crate::cast::Choice;
use std::alloc::{AllocError, Global};
use std::cmp::Ordering;
use std::collections::BTreeMap;
use std::marker::Model;
use types_core::{Digest, Proposal, Round};

/// The rounds that have a choice, each with it. Reports mostly come round by round, and a map that grows at its end alone is half
/// empty, so those that come so stand in a list.
#[derive(Drop)]
pub(crate) struct Choices<D: Digest> {
    /// The rounds that came in order, each above all that came before.
    ascending: Vec<(Round, Choice<D>)>,
    /// The rounds that came late, when one above them had come.
    late: BTreeMap<Round, Choice<D>>,
}

impl<D: Digest> Model for Choices<D> {
    ghost use Rattle.std.specs.Prelude.{List, ◌++◌};
    ghost use Rattle.types_core.specs.declared.position.Round.{Round};
    ghost use Rattle.simplex_rules.specs.declared.cast.Choice.{Choice};
    ghost use Rattle.simplex_rules.specs.Choices.{Ascend};

    ghost Value = { List (Round × Choice D) };

    ghost view = { λ choices. choices.ascending.items ++ choices.late.entries };

    ghost invariant = { λ choices. Ascend choices.ascending.items };
}

impl<D: Digest> Choices<D> {
    /// No round has a choice.
    pub(crate) fn new(alloc: Global) -> Self
        ensures { (round : Round) → choice_in result round ≡ None }
    {
        Choices {
            ascending: Vec::new(alloc),
            late: BTreeMap::new(alloc),
        }
    }

    /// Whether the round has a choice.
    pub(crate) fn contains(&self, round: &Round) -> bool
        ensures { result ≡ is_some (choice_in self.now round.now) }
    {
        self.get(round).is_some()
    }

    /// The round's choice, if it has one. The last round is looked at first, since reports come round by round.
    fn get(&self, round: &Round) -> Option<&Choice<D>>
        ensures { option_copied result ≡ choice_in self.now round.now }
    {
        match self.ascending.last() {
            Some((last, choice)) if last == round => Some(choice),
            _ => self.search(round),
        }
    }

    /// The round's choice, if it has one, wherever it stands. It is not inlined, since most rounds that are looked for are the last.
    #[inline(never)]
    fn search(&self, round: &Round) -> Option<&Choice<D>>
        ensures { option_copied result ≡ choice_in self.now round.now }
    {
        match choice_among(&self.ascending, round) {
            Some(choice) => Some(choice),
            None => self.late.get(round),
        }
    }

    /// Makes this the round's choice where it has none. Whether it is the round's choice then.
    pub(crate) fn choose(&mut self, proposal: &Proposal<D>) -> Result<bool, AllocError>
        ensures extends { OnOk result (Extends self.old self.new) }
        ensures own { IfOk result (λ own.
            IsTrue own → choice_in self.new proposal.now.round ≡ Some (record { parent = proposal.now.parent; payload = proposal.now.payload })) }
    {
        if let Some(first) = self.get(&proposal.round) {
            return Ok(first.parent == proposal.parent && first.payload == proposal.payload);
        }
        self.choose_first(proposal)?;
        Ok(true)
    }

    /// Makes this the choice of its round, which has none. Most votes come behind the first of their round, and need none of the room that
    /// this takes on the stack.
    #[inline(never)]
    fn choose_first(&mut self, proposal: &Proposal<D>) -> Result<(), AllocError>
        requires none { choice_in self.old proposal.now.round ≡ None }
        ensures extends { OnOk result (Extends self.old self.new) }
        ensures own { OnOk result
            (choice_in self.new proposal.now.round ≡ Some (record { parent = proposal.now.parent; payload = proposal.now.payload })) }
    {
        let round = proposal.round;
        let choice = Choice {
            parent: proposal.parent,
            payload: proposal.payload,
        };
        if is_above(&self.ascending, &round) {
            self.ascending.push((round, choice))?;
        } else {
            self.late.insert(round, choice)?;
        }
        Ok(())
    }
}

/// Whether the round is above all of these.
fn is_above<D: Digest>(ascending: &[(Round, Choice<D>)], round: &Round) -> bool
    requires { Ascend ascending.now }
    ensures { (choice : Choice D) → IsTrue result → Ascend (ascending.now ++ (round.now, choice) ∷ []) }
{
    match ascending.last() {
        Some((last, _)) => last.cmp(round).is_lt(),
        None => true,
    }
}

/// The round's choice, if it stands among these. Most rounds that don't are above the last.
fn choice_among<'a, D: Digest>(
    ascending: &'a [(Round, Choice<D>)],
    round: &Round,
) -> Option<&'a Choice<D>>
    requires { Ascend ascending.now }
    ensures { option_copied result ≡ choice_in ascending.now round.now }
{
    let (last, choice) = ascending.last()?;
    match last.cmp(round) {
        Ordering::Less => None,
        Ordering::Equal => Some(choice),
        Ordering::Greater => match ascending.binary_search_by_key(round, |&(round, _)| round) {
            Ok(place) => Some(&ascending[place].1),
            Err(_) => None,
        },
    }
}
