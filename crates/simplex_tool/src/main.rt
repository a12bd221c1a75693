//! `simplex_tool`: hands the program's words, its streams and the file that they name to the libraries, says of a record that is
//! checked what of its file is no part of it, and runs a member by a file of its settings.
#![tactic(auto)]

mod member;

ghost use Rattle.std.specs.Prelude.{◌<◌};
ghost use Rattle.cli_tool.specs.Command.{IsAsked};

use crate::member::run_file;
use cli_audit::{Trouble, read_all, report};
use cli_file::{HELP, path_behind, tell_settings};
use cli_opening::{look_at, say_barred, say_found};
use cli_tool::{Call, Request, misused, parse_call, run_request, unopened, words_unread};
use std::fs::{self, File};
use std::io::Write;
use std::process::ExitCode;
use std::{env, io};
use types_codec::write_whole;

/// The words after the program's name.
fn words(rt: &HostRuntime) -> io::Result<Vec<String>> {
    let words = env::args(rt)?.skip(1).collect(rt.alloc())?;
    Ok(words)
}

/// Answers a call about the record in a file.
fn answer_of_file(rt: &HostRuntime, call: Call<'_>, path: &str) -> u8
    requires { IsAsked call.request }
{
    let mut output = rt.stdout();
    let mut faults = rt.stderr();
    match File::open(rt, path) {
        Ok(mut file) => run_request(rt.alloc(), call, &mut file, &mut output, &mut faults),
        Err(_) => unopened(&mut faults),
    }
}

/// Whether the path names a file. What is no file is not read twice: a pipe would wait.
fn is_file(rt: &HostRuntime, path: &str) -> bool {
    match fs::metadata(rt, path) {
        Ok(found) => found.is_file(),
        Err(_) => false,
    }
}

/// Says how far the record in a file reaches and what stands behind it, or why a node would leave the file.
fn say_looked(rt: &HostRuntime, path: &str, index: u16, count: u16)
    requires { index < count }
{
    let Ok(mut file) = File::open(rt, path) else {
        return;
    };
    let Ok(bytes) = read_all(rt.alloc(), &mut file) else {
        return;
    };
    let mut faults = rt.stderr();
    match look_at(rt.alloc(), &bytes, index, count, false) {
        Ok(found) => say_found(rt.alloc(), path, found, &mut faults),
        Err(barred) => say_barred(rt.alloc(), path, barred, &mut faults),
    }
}

/// Answers a call that checks a record.
fn answer_of_check(rt: &HostRuntime, call: Call<'_>, path: &str, index: u16, count: u16) -> u8
    requires { IsAsked call.request }
{
    let status = answer_of_file(rt, call, path);
    if status != 1 && index < count && is_file(rt, path) {
        say_looked(rt, path, index, count);
    }
    status
}

/// Answers a call about standard input, or about nothing.
fn answer_of_input(rt: &HostRuntime, call: Call<'_>) -> u8
    requires { IsAsked call.request }
{
    let mut input = rt.stdin();
    let mut output = rt.stdout();
    let mut faults = rt.stderr();
    run_request(rt.alloc(), call, &mut input, &mut output, &mut faults)
}

/// Answers a call for help: how the program is called, with the commands on files of settings.
fn answer_of_help(rt: &HostRuntime, call: Call<'_>) -> u8
    requires { IsAsked call.request }
{
    let status = answer_of_input(rt, call);
    if status != 0 {
        return status;
    }
    match say_help(&mut rt.stdout()) {
        Ok(()) => 0,
        Err(_) => report(Err(Trouble::Write), &mut rt.stderr()),
    }
}

/// Says how the program is called with a file of settings.
fn say_help<W: Write>(output: &mut W) -> io::Result<()> {
    write_whole(output, HELP.as_bytes())?;
    write_whole(output, cli_member::HELP.as_bytes())
}

/// The status where the words are no call, with how the program is called on standard error.
fn answer_of_none(rt: &HostRuntime) -> u8 {
    let mut faults = rt.stderr();
    let status = misused(&mut faults);
    let _ = say_help(&mut faults);
    status
}

/// Tells what the file of settings at this path says.
fn tell_file(rt: &HostRuntime, path: &str) -> u8 {
    let mut output = rt.stdout();
    let mut faults = rt.stderr();
    match File::open(rt, path) {
        Ok(mut file) => tell_settings(rt.alloc(), &mut file, &mut output, &mut faults),
        Err(_) => unopened(&mut faults),
    }
}

/// Answers the call of these words.
fn answer(rt: &HostRuntime, words: &[String]) -> u8 {
    match words {
        [command @ .., last] if last.as_str() == "--cut" => {
            if let Some(path) = path_behind("member", command) {
                return run_file(rt, path, true);
            }
        }
        _ => {}
    }
    if let Some(path) = path_behind("member", words) {
        return run_file(rt, path, false);
    }
    match path_behind("settings", words) {
        Some(path) => tell_file(rt, path),
        None => answer_call(rt, words),
    }
}

/// Answers the call of these words about messages or a record.
fn answer_call(rt: &HostRuntime, words: &[String]) -> u8 {
    let Some(call) = parse_call(words) else {
        return answer_of_none(rt);
    };
    match call.request {
        Request::Help => answer_of_help(rt, call),
        Request::Record { path } => answer_of_file(rt, call, path),
        Request::Check { index, count, path } => answer_of_check(rt, call, path, index, count),
        _ => answer_of_input(rt, call),
    }
}

fn main(rt: HostRuntime) -> ExitCode {
    let status = match words(&rt) {
        Ok(words) => answer(&rt, &words),
        Err(error) => words_unread(&error, &mut rt.stderr()),
    };
    ExitCode::from(status)
}
