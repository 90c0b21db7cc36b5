// Scripts of two applications under quotas: on threads together, and each alone.

use anyhow::bail;
use seed_words::SeedEntropy;
use std::alloc::{AllocError, Global};
use std::sync::Wait;
use std::thread::Threads;
use tee_ports::Entropy;
use trial_runs::{blank_bench, reliable, run_script};

/// How many scripts are run.
const SCRIPTS: u8 = 200;

/// How many calls each of them has.
const CALLS_OF_SCRIPT: u64 = 60;

/// The applications, each with its name.
const APPLICATIONS: [(&str, &str); 2] = [
    ("a", "00000000-0000-0000-0000-000000000001"),
    ("b", "00000000-0000-0000-0000-000000000002"),
];

/// What they call.
const CALLS: [&str; 16] = [
    "create 6b rwm - 0102",
    "create 6c rwm 0a 030405",
    "create 6b rwmo - 060708",
    "create 6d rw - -",
    "open 6b rwm",
    "open 6c rwm",
    "read 0 4",
    "write 0 a1a2a3",
    "write 1 b1",
    "seek 0 0 end",
    "seek 1 0 end",
    "truncate 0 6",
    "truncate 1 9",
    "rename 0 6e",
    "delete 0",
    "close 1",
];

/// What became of the scripts so far.
#[derive(Drop)]
struct Isolations {
    calls: u64,
    /// How many calls were refused.
    refused: u64,
    /// How many times an application had other answers, or left other objects, than alone.
    differ: u64,
}

// Whether the application is the one that is wanted, or none is.
fn is_wanted(wanted: Option<&str>, name: &str) -> bool {
    match wanted {
        Some(only) => only == name,
        None => true,
    }
}

// The script of that number: its quotas and its calls are drawn. One in four applications has no quota. Where an application is wanted, the
// lines of the other are left out.
fn script_of(alloc: Global, number: u8, wanted: Option<&str>) -> Result<String, AllocError> {
    let mut words = SeedEntropy::from_seed(&[number; 32]);
    let mut drawn = [0; 16];
    let mut script = String::new(alloc);
    for (name, app) in APPLICATIONS {
        if is_wanted(wanted, name) {
            script.push_str(format!(in alloc; "app {name} {app}\n")?.as_str())?;
        }
    }
    script.push_str("threads\n")?;
    for (name, app) in APPLICATIONS {
        let _ = words.draw(&mut drawn);
        if is_wanted(wanted, name) && drawn[0] % 4 > 0 {
            let objects = drawn[1] % 4;
            let bytes = drawn[2] % 16;
            script.push_str(format!(in alloc; "quota {app} {objects} {bytes}\n")?.as_str())?;
        }
    }
    for _ in 0..CALLS_OF_SCRIPT {
        let _ = words.draw(&mut drawn);
        let (name, _) = APPLICATIONS[usize::from(drawn[0] % 2)];
        let call = CALLS[usize::from(drawn[1] % 16)];
        if is_wanted(wanted, name) {
            script.push_str(format!(in alloc; "{name} {call}\n")?.as_str())?;
        }
    }
    script.push_str("list\n")?;
    Ok(script)
}

// What a line of a run tells behind its place: of an event or a refused call, its application first; of an object, its application's UUID first.
fn without_place(line: &str) -> &str {
    let line = match line.strip_prefix("# quota ") {
        Some(refused) => refused,
        None => line,
    };
    match line.split_once(" ") {
        Some((_place, told)) => told,
        None => line,
    }
}

// What a run tells of an application, line by line.
fn lines_of(alloc: Global, output: &str, name: &str, app: &str) -> Result<String, AllocError> {
    let mut lines = String::new(alloc);
    for line in output.lines() {
        let told = without_place(line);
        if let Some((first, _)) = told.split_once(" ") {
            if first == name || first == app {
                lines.push_str(told)?;
                lines.push_str("\n")?;
            }
        }
    }
    Ok(lines)
}

// What a script puts that is run over new devices.
fn output_of<W: Threads + Wait + Sync>(
    rt: &W,
    alloc: Global,
    script: &str,
) -> anyhow::Result<String> {
    let ran = run_script(rt, alloc, script, blank_bench(alloc)?, &mut reliable())?;
    Ok(ran.output)
}

// How many lines of a run are of calls that pass the test.
fn count_lines(output: &str, is_refused: bool) -> u64 {
    output.lines().fold(0u64, |count, line| {
        let counts = line.contains(" -> ") && line.starts_with("# ") == is_refused;
        count.saturating_add(u64::from(counts))
    })
}

// Runs a script on threads, and the lines of each application alone: it must have the same answers, and leave the same objects.
fn isolate<W: Threads + Wait + Sync>(
    rt: &W,
    alloc: Global,
    number: u8,
    isolations: &mut Isolations,
) -> anyhow::Result<()> {
    let script = script_of(alloc, number, None)?;
    let both = output_of(rt, alloc, script.as_str())?;
    let refused = count_lines(both.as_str(), true);
    let answered = count_lines(both.as_str(), false);
    isolations.refused = isolations.refused.saturating_add(refused);
    isolations.calls = isolations
        .calls
        .saturating_add(answered)
        .saturating_add(refused);
    for (name, app) in APPLICATIONS {
        let script = script_of(alloc, number, Some(name))?;
        let alone = output_of(rt, alloc, script.as_str())?;
        let told = lines_of(alloc, both.as_str(), name, app)?;
        if lines_of(alloc, alone.as_str(), name, app)? != told {
            isolations.differ = isolations.differ.saturating_add(1);
        }
    }
    Ok(())
}

/// The line that says how many scripts of two applications under quotas were run on threads, how many calls they have, and how many times an
/// application was answered otherwise than alone.
pub fn quota_line<W: Threads + Wait + Sync>(rt: &W, alloc: Global) -> anyhow::Result<String> {
    let mut isolations = Isolations {
        calls: 0,
        refused: 0,
        differ: 0,
    };
    for number in 0..SCRIPTS {
        isolate(rt, alloc, number, &mut isolations)?;
    }
    if isolations.refused == 0 {
        bail!("no call was refused");
    }
    Ok(format!(in alloc;
        "{SCRIPTS} scripts under quotas on threads, {} calls, {} differ from each application alone",
        isolations.calls, isolations.differ
    )?)
}
