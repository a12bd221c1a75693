//! How the nodes of the program and of the library for C are set up.

ghost use Rattle.std.specs.Prelude.{◌≡◌, ◌<◌, IfOk};
ghost use Rattle.simplex_cli.specs.Settings.{program_committee, program_config, program_rotation};

use simplex_types::PlainScheme;
use std::alloc::{AllocError, Global};
use std::rc::Rc;
use types_core::{Epoch, Participant, Sha256Digest, TermLength, ViewDelta};
use types_terms::elector::{Config as Building, Elector, RoundRobin, RoundRobinElector};
use voter_rules::Floor;
use voter_rules::config::{Config, ForwardPolicy, RepairPolicy, SkipBudget, SkipPolicy};

/// The base of the namespaces that the program's committees sign in.
const BASE: &[u8; 7] = b"simplex";

/// The node's settings. All times are in milliseconds.
pub fn config() -> Config<Floor<PlainScheme, Sha256Digest>>
    ensures { result ≡ program_config }
{
    Config {
        epoch: Epoch::new(0),
        floor: Floor::Genesis(Sha256Digest::new([0; 32])),
        leader_timeout: 1_000,
        certification_timeout: 2_000,
        timeout_retry: 5_000,
        view_retention: ViewDelta::new(10),
        skip: SkipPolicy::Enabled {
            timeout: 8_000,
            budget: SkipBudget::Participants,
        },
        forward: ForwardPolicy::Disabled,
        repair: RepairPolicy::once(),
        track_historical_votes: true,
    }
}

/// The plain scheme of so many members, as the member of this index has it.
pub fn scheme(alloc: Global, index: u16, count: u16) -> Result<Rc<PlainScheme>, AllocError>
    requires { index < count }
    ensures { IfOk result (λ s. s.value ≡ program_committee index count) }
{
    let me = Participant::new(u32::from(index));
    let scheme = PlainScheme::new(alloc, BASE, u32::from(count), Some(me))?;
    let scheme = Rc::new(alloc, scheme)?;
    Ok(scheme)
}

/// Who leads in a committee of so many: all in turn, a term of four views each, with two optimistic views and a stall timeout of ten
/// seconds.
pub fn elector(alloc: Global, count: u16) -> Result<RoundRobinElector, AllocError>
    requires { 0 < count }
    ensures rotation { IfOk result (λ e. e ≡ program_rotation count) }
    ensures built { IfOk result (λ e. ⟦<RoundRobinElector as Elector<PlainScheme, Sha256Digest>>⟧.built_for e count) }
{
    let rotation = RoundRobin::default().with_term(TermLength::new(4), 10_000, ViewDelta::new(2));
    Building::<PlainScheme, Sha256Digest>::build(&rotation, alloc, u32::from(count))
}
