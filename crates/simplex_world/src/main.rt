//! A committee that one can watch: runs scenarios of standard input, and writes a line for each event that matters.
//!
//! A scenario is a line for each of what it sets; empty lines and those that begin with `#` are passed over, and `run` ends a
//! scenario where another follows. Moments and times are milliseconds. Without lines: four members, ten views.
//!
//! | Line | What it sets |
//! |---|---|
//! | `members N`, `seed N`, `views N`, `until MOMENT` | the committee, what chance rests on, and when the run ends |
//! | `delay LEAST MOST`, `lose S`, `repeat S` | the network; shares are of a thousand packets |
//! | `cut FROM UNTIL MEMBERS` | these members and the others don't hear each other then, unless one lies |
//! | `work LEAST MOST`, `doubt S` | how long the application thinks, and how many verdicts are bad |
//! | `clock T` | how coarse the clocks of hosts are |
//! | `term LENGTH STALL OPTIMISTIC`, `times LEADER CERTIFICATION RETRY`, `skip T`, `keep VIEWS` | the nodes |
//! | `lie MEMBER WAY ..` | `silent`, `two-votes`, `two-proposals`, `two-faced`, `forged`, `withheld`, `asking`, `stale` |
//! | `crash MEMBER VIEW CALLS DOWN` | in that view, behind so many calls of its disk, for so long |
//! | `down MEMBER FROM UNTIL` | this member is dead then, as one that was killed |
//! | `join MEMBER FROM` | this member joins then, and starts from what is final by then |
//! | `reopen T` | a correct member's node that enters no view for so long is closed and opened again |
//! | `rewrite VIEWS` | each member's record is rewritten behind so many views that became final, over two disks |
//! | `format text` or `json`, `lines all`, `some` or `none` | what is written |
//!
//! The word `--json` behind the program's name stands for `format json`; `--help` and `--version` tell of the program, and no other
//! word has a meaning. The status is 1 where two members' finalized proposals differ, a correct member is named or blocked by a
//! correct one, or a record isn't opened again; 2 where a line or a word is refused, 3 where memory ran out, 4 where reading or
//! writing failed; else 0.
#![tactic(auto)]

use simplex_types::PlainScheme;
use std::io::Write;
use std::process::ExitCode;
use std::{env, io};
use types_terms::RoundRobinElector;
use world_network::TornDisk;
use world_playing::play;
use world_seats::Keeper;

/// A member of these worlds.
type Seated = Keeper<PlainScheme, RoundRobinElector, TornDisk>;

/// What `--help` tells, and on standard error whoever calls it by other words.
const HELP: &str =
    "usage: simplex_world [--json] < SCENARIOS\n  runs scenarios, and writes a line for each event that matters, with --json as JSON (docs/WORLD.md)\n  --help, --version\n";

/// What `--version` tells: what the nodes of worlds read and write.
const VERSION: &str = "simplex_world: version 1 of the formats\n";

/// The words behind the program's name.
fn words(rt: &HostRuntime) -> io::Result<Vec<String>> {
    let words = env::args(rt)?.skip(1).collect(rt.alloc())?;
    Ok(words)
}

/// Runs the scenarios of standard input, and gives the status to end with.
fn run(rt: &HostRuntime, is_json: bool) -> u8 {
    let mut output = io::writer(rt);
    play::<PlainScheme, Seated, _, _>(rt.alloc(), is_json, rt.reader(), &mut output)
}

/// Writes a text on the program, and gives the status to end with.
fn tell(rt: &HostRuntime, text: &str) -> u8 {
    match rt.stdout().write_all(text.as_bytes()) {
        Ok(()) => 0,
        Err(_) => 4,
    }
}

/// Does what the words ask for, and gives the status to end with.
fn serve(rt: &HostRuntime, words: &[String]) -> u8 {
    match words {
        [] => run(rt, false),
        [word] if word.as_str() == "--json" => run(rt, true),
        [word] if word.as_str() == "--help" => tell(rt, HELP),
        [word] if word.as_str() == "--version" => tell(rt, VERSION),
        _ => {
            let _ = rt.stderr().write_all(HELP.as_bytes());
            2
        }
    }
}

fn main(rt: HostRuntime) -> ExitCode {
    let status = match words(&rt) {
        Ok(words) => serve(&rt, &words),
        Err(_) => 4,
    };
    ExitCode::from(status)
}
