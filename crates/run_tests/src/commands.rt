//! Tables of commands on sources and sinks in memory, each with its status and its whole output.

mod afterwards;
mod agreement;
mod analyses;
mod command_lines;
mod divisions;
mod globals;
mod meeting;
mod tables;
mod worked;

use self::afterwards::{AFTERWARDS, BUNDLED, FAULTY};
use self::agreement::{tally_alone, tally_calling, tally_dividing, tally_sharing};
use self::analyses::{ANALYSES, CALLS, OPEN, Open};
use self::command_lines::{AFTERWARDS_WORDS, CHECK_WORDS, REPLAY_WORDS, WORKLOAD_WORDS};
use self::divisions::{DIVIDED, DIVISION_CHECKS, DIVISIONS};
use self::globals::{GLOBAL_CHECKS, GLOBALS};
use self::meeting::{Counting, Meeting};
use self::tables::{
    BLANKS, BODIES, Blanks, CHECKS, FAULTS, Fault, LIMITS, Limit, NESTINGS, NO_COMMANDS, Nesting,
    REFUSALS, REPLAYS, Row, SUM, SUM_REPORT, WORKLOADS,
};
use self::worked::WORKED;
use command_words::{Command, command_from, one_command};
use outer_io::{MemSink, MemSource, NoGate};
use smash_run::run::run;
use std::alloc::Global;
use std::fmt::Write;
use std::process::Abort;
use std::sync::Wait;
use std::test::Fail;
use std::thread::Threads;

/// The words of a line, in which they are parted by `|`.
fn words_in(alloc: Global, line: &str) -> Result<Vec<String>, Fail> {
    let mut words = Vec::new(alloc);
    if line != "" {
        for word in line.split('|') {
            words.push(String::from_str(alloc, word)?)?;
        }
    }
    Ok(words)
}

/// A source that gives at most `piece` bytes a call, of which one fails.
fn source_of(alloc: Global, text: &str, piece: usize, failing: u32) -> Result<MemSource, Fail> {
    let bytes = Vec::from_slice(alloc, text.as_bytes())?;
    let failing = vec![in alloc; failing; 1]?;
    Ok(MemSource::new(bytes, failing, piece.max(1)))
}

/// The status and the output of words on a source.
fn answer<R: Threads + Wait + Sync>(
    rt: &R,
    alloc: Global,
    words: &[String],
    source: &mut MemSource,
    sink: &mut MemSink,
) -> Result<String, Fail> {
    let status = run(rt, alloc, words, source, sink, &NoGate).status;
    let output = std::str::from_utf8(sink.written())?;
    Ok(format!(in alloc; "{status} {output}")?)
}

/// The status and the output of a line of words, on a source and into a sink with so much room.
fn told<R: Threads + Wait + Sync>(
    rt: &R,
    alloc: Global,
    line: &str,
    source: MemSource,
    room: usize,
) -> Result<String, Fail> {
    let mut source = source;
    let words = words_in(alloc, line)?;
    let mut sink = MemSink::new(alloc, room, Vec::new(alloc), 7)?;
    answer(rt, alloc, &words, &mut source, &mut sink)
}

/// The same on a text that is read without a fault.
fn told_of<R: Threads + Wait + Sync>(
    rt: &R,
    alloc: Global,
    line: &str,
    text: &str,
) -> Result<String, Fail> {
    told(rt, alloc, line, source_of(alloc, text, 4096, 1000)?, 4096)
}

/// Each row is answered so.
fn agree<R: Abort + Threads + Wait + Sync>(
    rt: &R,
    alloc: Global,
    rows: &[Row],
) -> Result<(), Fail> {
    for (line, text, wanted) in rows {
        let got = told_of(rt, alloc, line, text)?;
        assert_eq!(rt; got.as_str(), *wanted, "{line} of {text}");
    }
    Ok(())
}

#[test]
fn answers_checks(rt: HostRuntime) -> Result<(), Fail> {
    agree(&rt, rt.alloc(), CHECKS)
}

#[test]
fn answers_analyses(rt: HostRuntime) -> Result<(), Fail> {
    agree(&rt, rt.alloc(), ANALYSES)
}

#[test]
fn answers_programs_with_calls(rt: HostRuntime) -> Result<(), Fail> {
    agree(&rt, rt.alloc(), CALLS)
}

/// What may be written in place of a line that says `proved`.
fn unknown_for(alloc: Global, line: &str) -> Result<Option<String>, Fail> {
    let Some(place) = line.strip_suffix("proved") else {
        return Ok(None)
    };
    Ok(Some(format!(in alloc; "{place}unknown (budget 20000 spent)\n")?))
}

/// These lines, or what was written in their place, and the summary and the status that follow.
fn report_with(alloc: Global, told: &str, lines: &[&str]) -> Result<String, Fail> {
    let mut text = String::new(alloc);
    let (mut proved, mut found, mut unknown) = (0_u32, 0_u32, 0_u32);
    for line in lines {
        match unknown_for(alloc, line)? {
            None => {
                found = found.saturating_add(1);
                writeln!(text, "{line}")?;
            }
            Some(other) if told.contains(other.as_str()) => {
                unknown = unknown.saturating_add(1);
                text.push_str(other.as_str())?;
            }
            Some(_) => {
                proved = proved.saturating_add(1);
                writeln!(text, "{line}")?;
            }
        }
    }
    let status = if found > 0 {
        1
    } else if unknown > 0 {
        2
    } else {
        0
    };
    Ok(format!(in alloc;
        "{status} {text}summary: {proved} proved, {found} found, {unknown} unknown\n"
    )?)
}

/// Each source has these lines, or other ones that they allow.
fn agree_on_open<R: Abort + Threads + Wait + Sync>(
    rt: &R,
    alloc: Global,
    rows: &[Open],
) -> Result<(), Fail> {
    for (line, text, lines) in rows {
        let got = told_of(rt, alloc, line, text)?;
        let wanted = report_with(alloc, got.as_str(), lines)?;
        assert_eq!(rt; got.as_str(), wanted.as_str(), "{line} of {text}");
    }
    Ok(())
}

#[test]
fn answers_with_much_budget(rt: HostRuntime) -> Result<(), Fail> {
    agree_on_open(&rt, rt.alloc(), OPEN)
}

#[test]
fn answers_replays(rt: HostRuntime) -> Result<(), Fail> {
    agree(&rt, rt.alloc(), REPLAYS)
}

#[test]
fn answers_workloads(rt: HostRuntime) -> Result<(), Fail> {
    agree(&rt, rt.alloc(), WORKLOADS)
}

/// What the last lines of the largest one are.
#[test]
fn answers_the_largest_workload(rt: HostRuntime) -> Result<(), Fail> {
    let got = told_of(&rt, rt.alloc(), "workload|60", "")?;
    let last = "60:43: found [60, -60]\nsummary: 40 proved, 20 found, 0 unknown\n";
    assert!(rt; got.as_str().starts_with("1 1:42: proved\n"), "{got}");
    assert!(rt; got.as_str().ends_with(last), "{got}");
    Ok(())
}

#[test]
fn answers_programs_with_globals(rt: HostRuntime) -> Result<(), Fail> {
    agree(&rt, rt.alloc(), GLOBALS)?;
    agree(&rt, rt.alloc(), GLOBAL_CHECKS)
}

#[test]
fn answers_quotients(rt: HostRuntime) -> Result<(), Fail> {
    agree(&rt, rt.alloc(), DIVISIONS)?;
    agree(&rt, rt.alloc(), DIVISION_CHECKS)
}

/// Each of two workers makes its first call before the other one is let on.
#[test]
fn two_workers_meet(rt: HostRuntime) -> Result<(), Fail> {
    let words = words_in(rt.alloc(), "workload|2|--workers|2")?;
    let mut source = source_of(rt.alloc(), "", 4096, 1000)?;
    let mut sink = MemSink::new(rt.alloc(), 4096, Vec::new(rt.alloc()), 7)?;
    let gate = Meeting::new();
    let status = run(&rt, rt.alloc(), &words, &mut source, &mut sink, &gate).status;
    let wanted = "1:42: proved\n2:42: proved\nsummary: 2 proved, 0 found, 0 unknown\n";
    assert_eq!(rt; status, 0);
    assert_eq!(rt; std::str::from_utf8(sink.written())?, wanted);
    assert_eq!(rt; gate.met(), 2);
    Ok(())
}

#[test]
fn answers_worked_examples(rt: HostRuntime) -> Result<(), Fail> {
    agree(&rt, rt.alloc(), WORKED)
}

#[test]
fn answers_afterwards(rt: HostRuntime) -> Result<(), Fail> {
    agree(&rt, rt.alloc(), AFTERWARDS)
}

/// A bundle is made by one worker in the calling thread, which passes no gate.
#[test]
fn bundles_by_one_worker(rt: HostRuntime) -> Result<(), Fail> {
    let words = words_in(rt.alloc(), "bundle|1")?;
    let mut source = source_of(rt.alloc(), SUM, 4096, 1000)?;
    let mut sink = MemSink::new(rt.alloc(), 4096, Vec::new(rt.alloc()), 7)?;
    let gate = Counting::new();
    let status = run(&rt, rt.alloc(), &words, &mut source, &mut sink, &gate).status;
    assert_eq!(rt; (status, gate.passed()), (0, 0));
    Ok(())
}

/// What is written where the first read fails, and where there is room for three bytes.
fn of_both_faults<R: Threads + Wait + Sync>(
    rt: &R,
    alloc: Global,
    line: &str,
    text: &str,
) -> Result<String, Fail> {
    let unread = told(rt, alloc, line, source_of(alloc, text, 4096, 0)?, 4096)?;
    let unwritten = told(rt, alloc, line, source_of(alloc, text, 4096, 1000)?, 3)?;
    Ok(format!(in alloc; "{unread}; {unwritten}")?)
}

#[test]
fn tells_of_faults_afterwards(rt: HostRuntime) -> Result<(), Fail> {
    for &(line, text, wanted) in FAULTY {
        let got = of_both_faults(&rt, rt.alloc(), line, text)?;
        assert_eq!(&rt; got.as_str(), wanted, "{line} of {text}");
    }
    Ok(())
}

/// What is written of the bundle that words make of a text.
fn rechecked<R: Threads + Wait + Sync>(
    rt: &R,
    alloc: Global,
    line: &str,
    text: &str,
) -> Result<String, Fail> {
    let made = told(
        rt,
        alloc,
        line,
        source_of(alloc, text, 4096, 1000)?,
        1 << 20,
    )?;
    match made.as_str().strip_prefix("0 ") {
        Some(bundle) => told_of(rt, alloc, "recheck", bundle),
        None => Ok(made),
    }
}

/// The bundle of each row is answered so.
#[test]
fn accepts_what_it_bundles(rt: HostRuntime) -> Result<(), Fail> {
    for &(line, text, wanted) in BUNDLED {
        let got = rechecked(&rt, rt.alloc(), line, text)?;
        assert_eq!(&rt; got.as_str(), wanted, "{line} of {text}");
    }
    Ok(())
}

#[test]
fn refuses_the_first_fault(rt: HostRuntime) -> Result<(), Fail> {
    agree(&rt, rt.alloc(), REFUSALS)
}

#[test]
fn tells_the_usage(rt: HostRuntime) -> Result<(), Fail> {
    agree(&rt, rt.alloc(), NO_COMMANDS)
}

/// What is written of a source that gives 4 bytes a call, of which one fails.
fn of_faults<R: Threads + Wait + Sync>(
    rt: &R,
    alloc: Global,
    failing: u32,
    room: usize,
) -> Result<String, Fail> {
    told(rt, alloc, "check", source_of(alloc, SUM, 4, failing)?, room)
}

/// Each row of faults is answered so.
fn agree_on_faults<R: Abort + Threads + Wait + Sync>(
    rt: &R,
    alloc: Global,
    rows: &[Fault],
) -> Result<(), Fail> {
    for (failing, room, wanted) in rows {
        let got = of_faults(rt, alloc, *failing, *room)?;
        assert_eq!(rt; got.as_str(), *wanted, "call {failing} and room {room}");
    }
    Ok(())
}

#[test]
fn tells_of_faults(rt: HostRuntime) -> Result<(), Fail> {
    agree_on_faults(&rt, rt.alloc(), FAULTS)
}

/// The 61 bytes take 16 calls, and one more sees the end.
#[test]
fn tells_of_each_failed_read(rt: HostRuntime) -> Result<(), Fail> {
    for failing in 0..17 {
        let got = of_faults(&rt, rt.alloc(), failing, 4096)?;
        assert_eq!(rt; got.as_str(), "5 ", "call {failing}");
    }
    Ok(())
}

/// Whether the status is 6, after a prefix of the report of this length.
fn is_front(told: &str, room: usize) -> bool {
    match told.strip_prefix("6 ") {
        Some(front) => front.len() == room && SUM_REPORT.starts_with(front),
        None => false,
    }
}

#[test]
fn tells_of_each_room(rt: HostRuntime) -> Result<(), Fail> {
    for room in 0..SUM_REPORT.len() {
        let got = of_faults(&rt, rt.alloc(), 17, room)?;
        assert!(rt; is_front(got.as_str(), room), "room {room}: {got}");
    }
    Ok(())
}

fn push_times(text: &mut String, part: &str, count: usize) -> Result<(), Fail> {
    for _ in 0..count {
        text.push_str(part)?;
    }
    Ok(())
}

/// What is written of a source that nests so deep.
fn of_nesting<R: Threads + Wait + Sync>(
    rt: &R,
    alloc: Global,
    nesting: &Nesting,
) -> Result<String, Fail> {
    let (head, (open, close), tail, count, _) = *nesting;
    let mut text = String::from_str(alloc, head)?;
    push_times(&mut text, open, count)?;
    text.push_str(tail)?;
    push_times(&mut text, close, count)?;
    told_of(rt, alloc, "check", text.as_str())
}

#[test]
fn bounds_nesting(rt: HostRuntime) -> Result<(), Fail> {
    for nesting in NESTINGS {
        let got = of_nesting(&rt, rt.alloc(), nesting)?;
        assert_eq!(rt; got.as_str(), nesting.4, "{}", nesting.3);
    }
    Ok(())
}

/// What is written of `count` blanks.
fn of_blanks<R: Threads + Wait + Sync>(
    rt: &R,
    alloc: Global,
    line: &str,
    count: usize,
) -> Result<String, Fail> {
    let blanks = vec![in alloc; b' '; count]?;
    let source = MemSource::new(blanks, Vec::new(alloc), 4096);
    told(rt, alloc, line, source, 4096)
}

/// Each number of blanks is answered so.
fn agree_on_blanks<R: Abort + Threads + Wait + Sync>(
    rt: &R,
    alloc: Global,
    rows: &[Blanks],
) -> Result<(), Fail> {
    for (line, count, wanted) in rows {
        let got = of_blanks(rt, alloc, line, *count)?;
        assert_eq!(rt; got.as_str(), *wanted, "{line} of {count} blanks");
    }
    Ok(())
}

#[test]
fn bounds_a_source(rt: HostRuntime) -> Result<(), Fail> {
    agree_on_blanks(&rt, rt.alloc(), BLANKS)
}

/// What is written of a body.
fn of_body<R: Threads + Wait + Sync>(rt: &R, alloc: Global, body: &str) -> Result<String, Fail> {
    let text = format!(in alloc;
        "int f(int a, int b) {{ return a - b * 2; }} int main() {{ {body}\n}} /* end */ // end"
    )?;
    told_of(rt, alloc, "replay|[]", text.as_str())
}

/// Each body is answered so.
fn agree_on_bodies<R: Abort + Threads + Wait + Sync>(
    rt: &R,
    alloc: Global,
    rows: &[(&str, &str)],
) -> Result<(), Fail> {
    for (body, wanted) in rows {
        let got = of_body(rt, alloc, body)?;
        assert_eq!(rt; got.as_str(), *wanted, "{body}");
    }
    Ok(())
}

#[test]
fn values_of_bodies(rt: HostRuntime) -> Result<(), Fail> {
    agree_on_bodies(&rt, rt.alloc(), BODIES)
}

#[test]
fn values_of_quotients(rt: HostRuntime) -> Result<(), Fail> {
    agree_on_bodies(&rt, rt.alloc(), DIVIDED)
}

/// What is written of a head, a repeated part with its number between its halves, and a tail.
fn of_parts<R: Threads + Wait + Sync>(
    rt: &R,
    alloc: Global,
    head: &str,
    part: (&str, &str),
    tail: &str,
    count: usize,
) -> Result<String, Fail> {
    let mut text = String::from_str(alloc, head)?;
    for number in 0..count {
        write!(text, "{}{}{}", part.0, number, part.1)?;
    }
    text.push_str(tail)?;
    told_of(rt, alloc, "replay|[]", text.as_str())
}

/// Each limit is answered so.
fn agree_on_limits<R: Abort + Threads + Wait + Sync>(
    rt: &R,
    alloc: Global,
    rows: &[Limit],
) -> Result<(), Fail> {
    for (head, part, tail, count, wanted) in rows {
        let got = of_parts(rt, alloc, head, *part, tail, *count)?;
        assert_eq!(rt; got.as_str(), *wanted, "{head} with {count}");
    }
    Ok(())
}

#[test]
fn limits_of_the_language(rt: HostRuntime) -> Result<(), Fail> {
    agree_on_limits(&rt, rt.alloc(), LIMITS)
}

/// The command that a line of words is.
fn command_of(alloc: Global, line: &str) -> Result<String, Fail> {
    let words = words_in(alloc, line)?;
    match command_from(alloc, &words)? {
        None => Ok(String::from_str(alloc, "none")?),
        Some(Command::Check { budget, workers }) => {
            Ok(format!(in alloc; "check {budget} {workers}")?)
        }
        Some(Command::Replay { fuel, list }) => Ok(format!(in alloc; "{fuel} {list:?}")?),
        Some(
            Command::Workload {
                number,
                budget,
                workers,
            },
        ) => Ok(format!(in alloc; "workload {number} {budget} {workers}")?),
        Some(Command::Bundle { number, budget }) => {
            Ok(format!(in alloc; "bundle {number} {budget}")?)
        }
        Some(Command::Recheck) => Ok(String::from_str(alloc, "recheck")?),
        Some(Command::Sweep { edges }) => Ok(format!(in alloc; "sweep {edges}")?),
        Some(
            Command::Edit {
                old_length,
                budget,
                workers,
            },
        ) => Ok(format!(in alloc; "edit {old_length} {budget} {workers}")?),
    }
}

/// Each line of words is that command.
fn agree_on_commands(rt: &impl Abort, alloc: Global, rows: &[(&str, &str)]) -> Result<(), Fail> {
    for (line, wanted) in rows {
        let got = command_of(alloc, line)?;
        assert_eq!(rt; got.as_str(), *wanted, "{line}");
    }
    Ok(())
}

#[test]
fn checks_of_words(rt: HostRuntime) -> Result<(), Fail> {
    one_command();
    agree_on_commands(&rt, rt.alloc(), CHECK_WORDS)
}

#[test]
fn replays_of_words(rt: HostRuntime) -> Result<(), Fail> {
    agree_on_commands(&rt, rt.alloc(), REPLAY_WORDS)
}

#[test]
fn workloads_of_words(rt: HostRuntime) -> Result<(), Fail> {
    agree_on_commands(&rt, rt.alloc(), WORKLOAD_WORDS)
}

#[test]
fn bundles_sweeps_and_edits_of_words(rt: HostRuntime) -> Result<(), Fail> {
    agree_on_commands(&rt, rt.alloc(), AFTERWARDS_WORDS)
}

/// Whether a replay may have a list of `count` values.
fn takes_list_of(alloc: Global, count: usize) -> Result<bool, Fail> {
    let mut text = String::from_str(alloc, "[1")?;
    for _ in 1..count {
        text.push_str(",1")?;
    }
    text.push_str("]")?;
    let words = [String::from_str(alloc, "replay")?, text];
    Ok(command_from(alloc, &words)?.is_some())
}

#[test]
fn lists_of_many_values(rt: HostRuntime) -> Result<(), Fail> {
    assert!(rt; takes_list_of(rt.alloc(), 10_000)?);
    assert!(rt; !takes_list_of(rt.alloc(), 10_001)?);
    Ok(())
}

#[test]
fn checks_and_replays_agree(rt: HostRuntime) -> Result<(), Fail> {
    let tally = tally_alone(&rt, rt.alloc())?;
    assert_eq!(rt; tally.wrong, 0, "{tally:?}");
    assert!(rt; tally.found > 100 && tally.proved > 50, "{tally:?}");
    Ok(())
}

#[test]
fn checks_and_replays_of_calls_agree(rt: HostRuntime) -> Result<(), Fail> {
    let tally = tally_calling(&rt, rt.alloc())?;
    assert_eq!(rt; tally.wrong, 0, "{tally:?}");
    assert!(rt; tally.found > 60 && tally.proved > 20, "{tally:?}");
    Ok(())
}

#[test]
fn checks_and_replays_of_globals_agree(rt: HostRuntime) -> Result<(), Fail> {
    let tally = tally_sharing(&rt, rt.alloc())?;
    assert_eq!(rt; tally.wrong, 0, "{tally:?}");
    assert!(rt; tally.found > 20 && tally.proved > 5, "{tally:?}");
    Ok(())
}

#[test]
fn checks_and_replays_of_quotients_agree(rt: HostRuntime) -> Result<(), Fail> {
    let tally = tally_dividing(&rt, rt.alloc())?;
    assert_eq!(rt; tally.wrong, 0, "{tally:?}");
    assert!(rt; tally.found > 10 && tally.proved > 5, "{tally:?}");
    Ok(())
}
