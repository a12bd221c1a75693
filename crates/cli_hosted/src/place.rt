//! Where a node lies between two calls.

ghost use Rattle.std.specs.Prelude.{◌≡◌, IsSome, None, Option, Some};
ghost use Rattle.std.specs.Coded.{coded_option};
ghost use Rattle.cli_hosted.specs.declared.session.Session.{Session as Kept};
ghost use Rattle.cli_hosted.specs.contracts.session.Session.{the_row};

use crate::session::Session;
use cli_calls::Loose;
use std::alloc::{Allocator, Global};
use std::marker::Model;
use std::ptr;

/// Where a node lies between two calls, or nothing. It owns the node, and C passes it on unread.
#[repr(C)]
#[derive(Drop)]
pub struct Place {
    at: *mut u8,
    alloc: Global,
    pub ghost held: { Option Kept } by { coded_option the_row.coded },
}

impl Model for Place {
    ghost use Rattle.cli_calls.specs.Kept.{owned};
    ghost use Rattle.cli_hosted.specs.contracts.session.Session.{the_row};

    ghost also_owns = { λ p. owned (⟦<Global as Allocator>⟧.dealloc_token p.alloc) the_row p.held p.at };
}

impl Place {
    /// Nothing.
    pub(crate) fn nothing(alloc: Global) -> Place
        ensures { result.held ≡ None }
    {
        Place {
            at: ptr::null_mut(),
            alloc,
        }
    }

    /// The place of this node.
    pub(crate) fn hiding(session: Loose<Session, Global>) -> Place
        ensures { result.held ≡ Some session.value }
    {
        let Loose { at, alloc } = session;
        Place {
            at: at as *mut u8,
            alloc,
        }
    }

    /// The node that lies here.
    pub(crate) fn shown(self) -> Loose<Session, Global>
        requires { IsSome self.held }
        ensures { self.held ≡ Some result.value }
    {
        let Place { at, alloc } = self;
        Loose {
            at: at as *mut Session,
            alloc,
        }
    }
}
