//! How far ahead of its current view a member listens and speaks.

ghost use Rattle.std.specs.Prelude.{◌≡◌, ◌↔◌, ◌⊎◌, ◌<◌, ◌≤◌, ◌+◌, ◌-◌, ◌*◌, ◌^◌, ℕ, min, IsTrue, IsNone, IfSome};
ghost use Rattle.types_core.specs.Positions.{next_term_start, term_end, IsTermStart};
ghost use Rattle.types_terms.specs.Windows.{InAdmissionWindow, Admits, AdmitsOutbound, admission_limit, issuance_floor, early_views, HasExactly};

use crate::terms::Terms;
use types_core::{TermLength, View, ViewDelta};

/// How far ahead of its current view a member listens and speaks.
#[derive(Clone, Copy, Debug, PartialEq, Eq, Hash)]
pub struct Lookahead {
    /// How many views a term has.
    pub length: TermLength,
    /// How many views may be taken up before the views before them are certified.
    pub optimistic_views: ViewDelta,
}

impl Lookahead {
    /// What these terms allow.
    pub const fn new(terms: &Terms) -> Self
        ensures length { result.length ≡ terms.now.length }
        ensures optimistic_views { result.optimistic_views ≡ terms.now.optimistic_views }
    {
        Lookahead {
            length: terms.length(),
            optimistic_views: terms.optimistic_views(),
        }
    }

    /// Whether the view comes after the current one, in its term and at most twice the optimistic
    /// views and one more ahead.
    pub fn in_admission_window(&self, current: View, view: View) -> bool
        ensures { IsTrue result ↔ InAdmissionWindow self.now.length self.now.optimistic_views current view }
    {
        let furthest = wide(current) + 2 * self.optimistic() + 1;
        current < view && wide(view) <= furthest.min(self.term_end(current))
    }

    /// Whether a member in the current view listens to votes of the view: up to the current one, in
    /// the admission window, at the start of the next term, and in the first two views of what
    /// comes after that.
    pub fn admits(&self, current: View, view: View) -> bool
        ensures { IsTrue result ↔ Admits self.now.length self.now.optimistic_views current view }
    {
        let length = u128::from(self.length.get());
        let number = wide(view);
        let next = self.term_end(current) + 1;
        let later = next + length;
        view <= current
            || self.in_admission_window(current, view)
            || next <= number && number < next + self.optimistic().max(1).min(length)
            || number == later
            || number == later + 1
    }

    /// Whether a member in the current view may speak of the view: up to the current one, as far
    /// ahead in its term as is optimistic, and at the next term's start where the current term ends
    /// no further ahead than that.
    pub fn admits_outbound(&self, current: View, view: View) -> bool
        ensures { IsTrue result ↔ AdmitsOutbound self.now.length self.now.optimistic_views current view }
    {
        let number = wide(view);
        let furthest = wide(current) + self.optimistic();
        let last = self.term_end(current);
        view <= current || number <= furthest.min(last) || number == last + 1 && last <= furthest
    }

    /// The last view that is listened to. It must have a number of 64 bits.
    pub fn admission_limit(&self, current: View) -> View
        requires { admission_limit self.now.length current < 2 ^ 64 }
        ensures { result ≡ admission_limit self.now.length current }
    {
        let next = current.next_term_start(self.length).get();
        View::new(next + u64::from(self.length.get()) + 1)
    }

    /// The least view whose certificate lets the view be taken up, stopped at 0. There is none
    /// without optimistic views, and none for a view that starts a term.
    pub fn issuance_floor(&self, view: View) -> Option<View>
        ensures none { IsNone result ↔ ((self.now.optimistic_views ≡ 0) ⊎ IsTermStart self.now.length view) }
        ensures floor { IfSome result (λ floor. floor ≡ issuance_floor self.now.optimistic_views view) }
    {
        if self.optimistic_views.is_zero() || view.is_term_start(self.length) {
            return None;
        }
        let before = view.get().saturating_sub(self.optimistic_views.get());
        Some(View::new(before.saturating_sub(1)))
    }

    /// The view that a nullification of this one leads to: the first of the next term. It must have a number of 64 bits.
    pub fn after_nullification(&self, view: View) -> View
        requires { next_term_start self.now.length view < 2 ^ 64 }
        ensures { result ≡ next_term_start self.now.length view }
    {
        view.next_term_start(self.length)
    }

    /// The last view of the current view's term, also where it has no number of 64 bits.
    fn term_end(&self, current: View) -> u128
        ensures value { result ≡ term_end self.now.length current }
        ensures fits { result < 2 ^ 97 }
    {
        u128::from(current.term_index(self.length)) * u128::from(self.length.get())
    }

    /// How many views are optimistic, for sums above 64 bits.
    fn optimistic(&self) -> u128
        ensures value { result ≡ self.now.optimistic_views }
        ensures fits { result < 2 ^ 64 }
    {
        u128::from(self.optimistic_views.get())
    }
}

/// The number of the view, for sums above 64 bits.
fn wide(view: View) -> u128
    ensures value { result ≡ view }
    ensures fits { result < 2 ^ 64 }
{
    u128::from(view.get())
}

/// A law of the windows: what may be spoken of is listened to.
pub fn what_is_spoken_of_is_listened_to()
    ensures { (views optimistic current view : ℕ) → 0 < views → AdmitsOutbound views optimistic current view → Admits views optimistic current view }
{}

/// A law of the windows: how many views after the current one are listened to.
pub fn few_views_ahead_are_listened_to()
    ensures { (views optimistic current : ℕ)
        → 0 < views
        → HasExactly (λ view. (current < view) × Admits views optimistic current view)
        (min (2 * optimistic + 1) (term_end views current - current) + 2 + early_views views optimistic) }
{}

/// A law of the windows: the admission limit is the last view that is listened to.
pub fn admission_limit_is_the_last_view_listened_to()
    ensures there { (views optimistic current : ℕ) → Admits views optimistic current (admission_limit views current) }
    ensures last { (views optimistic current view : ℕ) → 0 < views → Admits views optimistic current view → view ≤ admission_limit views current }
{}

/// A law of the windows: an earlier view lies at or above the issuance floor exactly where at most
/// the optimistic views lie strictly between the two.
pub fn issuance_floor_leaves_the_optimistic_views_between()
    ensures { (optimistic earlier view : ℕ)
        → earlier < view
        → (between : ℕ)
        → HasExactly (λ v. (earlier < v) × (v < view)) between
        → (issuance_floor optimistic view ≤ earlier) ↔ (between ≤ optimistic) }
{}
