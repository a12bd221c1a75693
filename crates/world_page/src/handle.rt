//! A session as its caller holds it.

ghost use Rattle.std.specs.Prelude.{◌≡◌, ◌≢◌, IfNone, IfSome, IsSome, None, Some};
ghost use Rattle.cli_calls.specs.Kept.{count_of};

use crate::place::Place;
use crate::session::Session;
use cli_calls::Loose;
use std::alloc::Global;
use std::mem;

/// A session as its caller holds it: 1 and its place while one is open, else 0.
#[repr(C)]
#[derive(Drop)]
pub struct Handle {
    pub(crate) live: u32,
    place: Place,
    ghost agrees: { live ≡ count_of place.held },
}

impl Handle {
    /// No session.
    fn nothing(alloc: Global) -> Handle
        ensures live { result.live ≡ 0 }
        ensures held { result.place.held ≡ None }
    {
        Handle {
            live: 0,
            place: Place::nothing(alloc),
        }
    }

    /// This session.
    pub(crate) fn of(session: Box<Session>) -> Handle
        ensures live { result.live ≡ 1 }
        ensures held { result.place.held ≡ Some session.value }
    {
        Handle {
            live: 1,
            place: Place::hiding(Loose::of(session)),
        }
    }

    /// The session, if one is open. Behind the call none is.
    #[tactic(auto, using(cli_calls::specs::KeptLaws::none_by))]
    pub(crate) fn taken(&mut self, alloc: Global) -> Option<Box<Session>>
        ensures live { self.old.live ≡ 1 → IsSome result }
        ensures dead { self.old.live ≢ 1 → result ≡ None }
        ensures held { IfSome result (λ session. self.old.place.held ≡ Some session.value) }
        ensures empty { IfNone result (self.old.place.held ≡ None) }
        ensures left { self.new.live ≡ 0 }
        ensures none { self.new.place.held ≡ None }
    {
        let was = mem::replace(self, Handle::nothing(alloc));
        if was.live != 1 {
            return None;
        }
        Some(was.place.shown().into_box())
    }
}
