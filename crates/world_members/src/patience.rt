//! How long a member's host waits for a view, before it closes the node and opens the record again.

ghost use Rattle.std.specs.Prelude.{◌≡◌, ◌≤◌, ◌<◌, ◌+◌, ◌-◌, ◌*◌, ◌^◌, ◌↔◌, ℕ, max, min, None, Some, unwrap_or, IsTrue, IsSomeAnd};

/// How long is waited at most, where the first wait isn't longer.
const MOST: u64 = 600_000;

/// How long a host waits for a view.
#[derive(Clone, Copy)]
pub(crate) struct Patience {
    /// For how long first, if it ever gives a node up.
    first: Option<u64>,
    /// For how long now.
    wait: u64,
    /// When the last view was entered, or this life began.
    since: u64,
    /// The view before this life.
    before: u64,
}

impl Patience {
    /// That of a host that waits for so long first.
    pub(crate) fn new(first: Option<u64>) -> Patience
        ensures first { result.first ≡ first }
        ensures wait { result.wait ≡ unwrap_or first 0 }
        ensures anew { (result.since ≡ 0) × (result.before ≡ 0) }
    {
        Patience {
            first,
            wait: first.unwrap_or(0),
            since: 0,
            before: 0,
        }
    }

    /// When it ends, if it does.
    pub(crate) fn end(&self) -> Option<u64>
        ensures never { self.now.first ≡ None → result ≡ None }
        ensures once { (first : ℕ) → self.now.first ≡ Some first → result ≡ Some (min (self.now.since + self.now.wait) (2 ^ 64 - 1)) }
    {
        match self.first {
            Some(_) => Some(self.since.saturating_add(self.wait)),
            None => None,
        }
    }

    /// It is counted from now on: a view is entered, or a life begins.
    pub(crate) fn begin(&mut self, now: u64)
        ensures { self.new ≡ record self.old { since = now } }
    {
        self.since = now;
    }

    /// The host's process ended, and the next one knows nothing of it.
    pub(crate) fn forget(&mut self)
        ensures first { self.new.first ≡ self.old.first }
        ensures wait { self.new.wait ≡ unwrap_or self.old.first 0 }
        ensures anew { (self.new.since ≡ 0) × (self.new.before ≡ 0) }
    {
        *self = Patience::new(self.first);
    }

    /// The node is given up in this view. For how long was waited: the next life gets the first wait again where this one had entered
    /// a view, and else twice as long.
    pub(crate) fn give_up(&mut self, view: u64) -> u64
        ensures waited { result ≡ self.old.wait }
        ensures helped { self.old.before < view → self.new.wait ≡ unwrap_or self.old.first 0 }
        ensures again { view ≤ self.old.before → self.new.wait ≡ max self.old.wait (min (self.old.wait * 2) 600000) }
        ensures rest { (self.new.first ≡ self.old.first) × ((self.new.since ≡ self.old.since) × (self.new.before ≡ view)) }
    {
        let waited = self.wait;
        self.wait = if self.before < view {
            self.first.unwrap_or(0)
        } else {
            longer(waited)
        };
        self.before = view;
        waited
    }
}

/// Twice as long, up to the most.
fn longer(wait: u64) -> u64
    ensures { result ≡ max wait (min (wait * 2) 600000) }
{
    if wait < MOST {
        (wait * 2).min(MOST)
    } else {
        wait
    }
}

/// The earlier of two moments, where there are two.
pub(crate) fn earlier(one: Option<u64>, other: Option<u64>) -> Option<u64>
    ensures one { other ≡ None → result ≡ one }
    ensures other { one ≡ None → result ≡ other }
    ensures both { (a b : ℕ) → one ≡ Some a → other ≡ Some b → result ≡ Some (min a b) }
{
    match (one, other) {
        (Some(one), Some(other)) => Some(one.min(other)),
        (Some(one), None) => Some(one),
        (None, other) => other,
    }
}

/// Whether there is a moment, and it has come.
pub(crate) fn has_come(moment: Option<u64>, now: u64) -> bool
    ensures { IsTrue result ↔ IsSomeAnd moment (λ m. m ≤ now) }
{
    match moment {
        Some(moment) => moment <= now,
        None => false,
    }
}
