//! When a member's host rewrites its record, and how often it did.

ghost use Rattle.std.specs.Prelude.{◌≡◌, ◌≤◌, ◌+◌, ◌-◌, ◌^◌, ◌↔◌, min, None, IsTrue, IsSomeAnd, unwrap_or};

/// How a host keeps a record short: it rewrites it each so many views that became final, so that it begins with the last of them.
#[derive(Clone, Copy)]
pub struct Upkeep {
    /// Each how many, if it ever rewrites.
    each: Option<u64>,
    /// The view from which these are counted: the last one with which a rewrite was asked for, or that the record began behind when it was
    /// opened.
    since: u64,
    /// The view that the record begins behind, as far as that was told.
    pub floor: u64,
    /// How often it was rewritten.
    pub rewrites: u64,
    /// How often a crash came inside a rewrite.
    pub torn: u64,
}

impl Upkeep {
    /// That of a host that rewrites each so many views, over an empty record.
    pub(crate) fn new(each: Option<u64>) -> Upkeep
        ensures each { result.each ≡ each }
        ensures empty { (result.since ≡ 0) × (result.floor ≡ 0) }
        ensures none { (result.rewrites ≡ 0) × (result.torn ≡ 0) }
    {
        Upkeep {
            each,
            since: 0,
            floor: 0,
            rewrites: 0,
            torn: 0,
        }
    }

    /// Whether records are rewritten at all.
    pub fn is_on(&self) -> bool {
        self.each.is_some()
    }

    /// The record was opened, and begins behind this view.
    pub(crate) fn begin(&mut self, floor: u64)
        ensures { self.new ≡ record self.old { since = floor; floor = floor } }
    {
        self.since = floor;
        self.floor = floor;
    }

    /// Whether it is to be rewritten, where this view is final.
    pub(crate) fn is_due(&self, last: u64) -> bool
        ensures { IsTrue result ↔ IsSomeAnd self.now.each (λ each. min (self.now.since + each) (2 ^ 64 - 1) ≤ last) }
    {
        match self.each {
            Some(each) => self.since.saturating_add(each) <= last,
            None => false,
        }
    }

    /// A rewrite was asked for, where this view is final, and answered the view that the record begins behind from now on, if it changed.
    pub(crate) fn note(&mut self, last: u64, floor: Option<u64>)
        ensures since { self.new.since ≡ last }
        ensures floor { self.new.floor ≡ unwrap_or floor self.old.floor }
        ensures each { self.new.each ≡ self.old.each }
        ensures unchanged { floor ≡ None → self.new ≡ record self.old { since = last } }
    {
        self.since = last;
        if let Some(floor) = floor {
            self.floor = floor;
            self.rewrites = self.rewrites.saturating_add(1);
        }
    }

    /// A crash came inside a rewrite.
    pub(crate) fn tear(&mut self) {
        self.torn = self.torn.saturating_add(1);
    }
}
