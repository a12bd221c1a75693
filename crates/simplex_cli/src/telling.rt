//! What a node's program tells of its end.

ghost use Rattle.std.specs.Prelude.{◌≡◌, ◌⊎◌, IfErr, IfOk};
ghost use Rattle.simplex_cli.specs.Ending.{ending_line, ending_status, memory_line};
ghost use Rattle.types_codec.specs.Front.{AppendsFront};

use crate::ending::{Ending, push_line};
use std::alloc::Global;
use std::io::Write;
use types_codec::write_whole;

/// Tells how a program ended: answers the status, 0 for a whole input, and writes the line of what ended it before its input to
/// `faults`.
///
/// The status is the same where `faults` fails: then a front of the line may have been written. Where there is no memory for the
/// line, that of want of memory stands in its place.
pub fn tell<F: Write>(alloc: Global, ended: Result<(), Ending>, faults: &mut F) -> u8
    ensures whole { IfOk ended (λ _. result ≡ 0) }
    ensures silent { IfOk ended (λ _. faults.new ≡ faults.old) }
    ensures status { IfErr ended (λ why. result ≡ ending_status why) }
    ensures told { IfErr ended (λ why.
        AppendsFront (F.contents faults.old) (F.contents faults.new) (ending_line why) ⊎ AppendsFront (F.contents faults.old)
        (F.contents faults.new) memory_line) }
{
    match ended {
        Ok(()) => 0,
        Err(why) => {
            write_line(alloc, why, faults);
            why.status()
        }
    }
}

/// Writes the line of an ending, or a front of it.
#[tactic(auto, unfolding(crate::specs::Ending::memory_line))]
fn write_line<F: Write>(alloc: Global, why: Ending, faults: &mut F)
    ensures { AppendsFront (F.contents faults.old) (F.contents faults.new) (ending_line why) ⊎ AppendsFront (F.contents faults.old)
        (F.contents faults.new) memory_line }
{
    let mut text = String::new(alloc);
    if push_line(&mut text, why).is_err() {
        let _ = write_whole(faults, "error: memory\n".as_bytes());
        return;
    }
    let _ = write_whole(faults, text.as_bytes());
}
