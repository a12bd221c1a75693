//! The first item of each signer.

ghost use Rattle.std.specs.Prelude.{◌≡◌, ◌≢◌, ◌↔◌, ◌<◌, ◌≤◌, ◌^◌, List, [], ◌∷◌, ◌++◌, length, All, IsTrue, IsNone, IfOk, IfSome, option_copied};
ghost use Rattle.std.specs.Bool.{OnTrue, OnFalse};
ghost use Rattle.std.specs.FinMap as finite;
ghost use Rattle.std.specs.Iterator.{YieldsFirstRef, item_count as items_left};
ghost use Rattle.simplex_messages.specs.AttributableMap.{item_of, items_of, item_count, RisesBySigner, HoldsFirstItems};

use std::alloc::{AllocError, Global};
use std::marker::Model;
use types_core::{Attributable, Participant};

/// A finite map of the first item of each signer below `participants`.
#[derive(Drop)]
pub struct AttributableMap<T: Attributable> {
    // The item of each participant.
    slots: Vec<Option<T>>,
    // How many slots have an item.
    count: usize,
}

impl<T: Attributable> Model for AttributableMap<T> {
    ghost use Rattle.simplex_messages.specs.AttributableMap.{SignerMap, signer_map_code};

    ghost Value = { SignerMap T };

    ghost coded = { signer_map_code T.code };

    ghost use Rattle.simplex_messages.specs.Slots.{map_of, IsSound};

    ghost view = { λ m. map_of m.slots.items };

    ghost invariant = { λ m. IsSound T.signer_of m.slots.items m.count };
}

impl<T: Attributable> AttributableMap<T> {
    /// The empty map for so many participants, with room for an item of each.
    pub fn new(alloc: Global, participants: u32) -> Result<Self, AllocError>
    where
        T: Drop,
        ensures participants { IfOk result (λ m. m.participants ≡ participants) }
        ensures empty { IfOk result (λ m. m.items ≡ finite.empty) }
        ensures first_items { IfOk result (λ m. HoldsFirstItems T.signer_of m []) }
    {
        let mut slots = Vec::with_capacity(alloc, participants as usize)?;
        for _ in 0..participants {
            slots.push(None)?;
        }
        Ok(AttributableMap { slots, count: 0 })
    }

    /// Forgets every item. The room stays.
    pub fn clear(&mut self)
    where
        T: Drop,
        ensures participants { self.new.participants ≡ self.old.participants }
        ensures empty { self.new.items ≡ finite.empty }
        ensures first_items { HoldsFirstItems T.signer_of self.new [] }
    {
        for slot in self.slots.iter_mut() {
            *slot = None;
        }
        self.count = 0;
    }

    /// Takes the item in if it is the first of a participant, and says whether it is. Another item
    /// is dropped.
    pub fn insert(&mut self, item: T) -> bool
    where
        T: Drop,
        ensures accepted { IsTrue result
            ↔ ((T.signer_of item < self.old.participants) × IsNone (item_of self.old (T.signer_of item))) }
        ensures inserted { OnTrue result (self.new.items ≡ finite.insert self.old.items (T.signer_of item) item) }
        ensures refused { OnFalse result (self.new ≡ self.old) }
        ensures changed { IsTrue result ↔ (self.new ≢ self.old) }
        ensures participants { self.new.participants ≡ self.old.participants }

        // The map of any list of items becomes the map of that list and this item.
        ensures first_items { (inserted : List T) → HoldsFirstItems T.signer_of self.old inserted
            → HoldsFirstItems T.signer_of self.new (inserted ++ item ∷ []) }
    {
        let place = item.signer().get() as usize;
        if place >= self.slots.len() || self.slots[place].is_some() {
            return false;
        }
        self.slots[place] = Some(item);
        self.count += 1;
        true
    }

    /// The item of this signer, if it has one.
    pub fn get(&self, signer: Participant) -> Option<&T>
        ensures value { option_copied result ≡ item_of self.now signer }
        ensures signer { IfSome result (λ item. T.signer_of item.now ≡ signer) }
        ensures participant { IfSome result (λ _. signer < self.now.participants) }
    {
        self.slots.get(signer.get() as usize)?.as_ref()
    }

    /// How many signers have an item.
    pub fn len(&self) -> usize
        ensures exact { result ≡ item_count self.now }
        ensures at_most { result ≤ self.now.participants }
    {
        self.count
    }

    /// Whether no signer has an item.
    pub fn is_empty(&self) -> bool
        ensures empty { IsTrue result ↔ (self.now.items ≡ finite.empty) }
        ensures len { IsTrue result ↔ (item_count self.now ≡ 0) }
    {
        self.len() == 0
    }

    /// The items, by rising signer.
    pub fn iter(&self) -> AttributableMapIter<'_, T>
        ensures items { result ≡ items_of self.now }
        ensures rises { RisesBySigner T.signer_of result }
        ensures first_items { HoldsFirstItems T.signer_of self.now result }
        ensures found { All (λ item. item_of self.now (T.signer_of item) ≡ Some item) result }
        ensures participants { All (λ item. T.signer_of item < self.now.participants) result }
        ensures len { length result ≡ item_count self.now }
        ensures fits { length result < 2 ^ 64 }
    {
        AttributableMapIter {
            slots: self.slots.as_slice(),
        }
    }
}

impl<'a, T: Attributable> IntoIterator for &'a AttributableMap<T> {
    type Item = &'a T;

    type IntoIter = AttributableMapIter<'a, T>;

    ghost into_iter_gives = { λ m it. (it ≡ items_of m.now) × RisesBySigner T.signer_of it × (length it < 2 ^ 64) };

    fn into_iter(self) -> AttributableMapIter<'a, T> {
        self.iter()
    }
}

/// The items of a map, by rising signer, seen as the list of those that are left.
#[derive(Drop)]
pub struct AttributableMapIter<'a, T> {
    // The slots that are left.
    slots: &'a [Option<T>],
}

impl<'a, T> Model for AttributableMapIter<'a, T> {
    ghost use Rattle.std.specs.Prelude.{List};
    ghost use Rattle.simplex_messages.specs.Slots.{items_in};

    ghost Value = { List T };

    ghost view = { λ it. items_in it.slots.now };
}

impl<'a, T> Iterator for AttributableMapIter<'a, T> {
    type Item = &'a T;

    ghost next_gives = { YieldsFirstRef (λ rest. rest) };

    ghost remaining = { items_left (λ rest. rest) };

    fn next(&mut self) -> Option<&'a T> {
        while let Some((slot, rest)) = self.slots.split_first() {
            self.slots = rest;
            if let Some(item) = slot {
                return Some(item);
            }
        }
        None
    }
}
