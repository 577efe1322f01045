//! The program flow_replay: plays scripts of archives on disks in memory, with stops and faults where that is asked,
//! and reports each answer that isn't the one that is wanted.
#![tactic(auto)]

mod asked;
mod foldered;
mod playing;
mod report;
mod sharing;
mod stage;
mod stopping;
mod thawed;
mod way;
mod ways;
mod worn;

use crate::report::Report;
use crate::way::{Plan, USAGE, Way, plan_of};
use crate::ways::play;
use flow_disk::DiskError;
use flow_scripts::{BadScript, Script, read_scripts};
use std::alloc::Global;
use std::env;
use std::io::Read;
use std::process::ExitCode;
use std::sync::Wait;

/// The plan that the words of the command line give, if they are right.
fn plan(rt: &HostRuntime) -> Option<Plan> {
    let words: Vec<String> = env::args(rt).ok()?.skip(1).collect(rt.alloc()).ok()?;
    plan_of(words.as_slice())
}

/// Why scripts weren't played to the end.
#[derive(Clone, Copy)]
enum NotPlayed<'a> {
    /// The text isn't scripts.
    Bad(BadScript),
    /// It has no script.
    None,
    /// The script of this name couldn't be played.
    Stopped(&'a str, DiskError),
}

/// Plays scripts: how many.
fn play_each<'a, W: Wait>(
    rt: &W,
    alloc: Global,
    scripts: &[Script<'a>],
    plan: Plan,
    report: &mut Report,
) -> Result<u64, NotPlayed<'a>> {
    let mut count = 0u64;
    for script in scripts {
        count = count.saturating_add(1);
        if let Err(why) = play(rt, alloc, script, plan, report) {
            return Err(NotPlayed::Stopped(script.name, why));
        }
    }
    Ok(count)
}

/// Plays the scripts that a text has: how many.
fn play_text<'a, W: Wait>(
    rt: &W,
    alloc: Global,
    text: &'a str,
    plan: Plan,
    report: &mut Report,
) -> Result<u64, NotPlayed<'a>> {
    match read_scripts(alloc, text) {
        Ok(scripts) => match scripts.as_slice() {
            [] => Err(NotPlayed::None),
            scripts => play_each(rt, alloc, scripts, plan, report),
        },
        Err(bad) => Err(NotPlayed::Bad(bad)),
    }
}

/// Says why scripts weren't played to the end, after what differed.
fn stopped(rt: &HostRuntime, why: NotPlayed<'_>, report: &Report) -> u8 {
    match why {
        NotPlayed::Bad(bad) => {
            let _ = println!(rt; "{bad}");
        }
        NotPlayed::None => {
            let _ = println!(rt; "there is no script");
        }
        NotPlayed::Stopped(name, why) => {
            let _ = print!(rt; "{}", report.text);
            let _ = println!(rt; "script {name}: {why}");
        }
    }
    1
}

/// Says how many answers differ.
fn ended(rt: &HostRuntime, plan: Plan, more: u64, count: u64, report: &Report) -> u8 {
    let (text, answers, differ) = (report.text.as_str(), report.answers, report.differ);
    let _ = print!(rt; "{text}");
    if plan.way.stops() {
        let _ = println!(rt; "{} of {} stops played", report.played, report.stops);
    }
    if plan.way == Way::Memory {
        let _ = println!(rt; "{} given once more", more.saturating_sub(report.more));
    }
    let _ = println!(rt; "{count} scripts, {answers} answers: {differ} differ");
    u8::from(!report.agrees())
}

fn main(rt: HostRuntime) -> ExitCode {
    let alloc = rt.alloc();
    let Some(plan) = plan(&rt) else {
        let _ = println!(rt; "{USAGE}");
        return ExitCode::from(1);
    };
    let mut text = String::new(alloc);
    if rt.stdin().read_to_string(&mut text).is_err() {
        let _ = println!(rt; "standard input can't be read as text");
        return ExitCode::from(1);
    }
    let more = u64::from(plan.way == Way::Memory);
    let mut report = Report::new(alloc, more);
    let status = match play_text(&rt, alloc, text.as_str(), plan, &mut report) {
        Ok(count) => ended(&rt, plan, more, count, &report),
        Err(why) => stopped(&rt, why, &report),
    };
    ExitCode::from(status)
}
