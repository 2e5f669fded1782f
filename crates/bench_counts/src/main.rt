//! Does work whose instructions are counted: on names, names in messages, sorted records, chains,
//! key sets and judgements.
//!
//! A line that begins with `#` says what is done: on what, a task and how often, as in `# names
//! compare 2`. The lines behind it, up to the next such line, are what is worked on. For each a
//! line is printed, which counts what was found.
#![tactic(auto)]

mod flat_names;
mod key_sets;
mod message_names;
mod nsec3_chains;
mod nsec_chains;
mod sorted_records;
mod whole_messages;
mod zone;

use std::alloc::Global;
use std::io;

/// What is done, and the lines of what is worked on.
#[derive(Drop)]
struct Work {
    task: String,
    lines: Vec<String>,
}

/// What work counts, of a task as in `names compare 2`.
fn counted(alloc: Global, task: &str, lines: &[String]) -> io::Result<u64> {
    let (what, rest) = task.split_once(' ').unwrap_or((task, ""));
    let (task, rounds) = rest.split_once(' ').unwrap_or((rest, "0"));
    let rounds = rounds.parse().unwrap_or(0);
    match what {
        "names" => flat_names::counted(alloc, task, rounds, lines),
        "messages" => message_names::counted(alloc, task, rounds, lines),
        "sorted" => sorted_records::counted(alloc, task, rounds, lines),
        "nsec" => nsec_chains::counted(alloc, task, rounds, lines),
        "nsec3" => nsec3_chains::counted(alloc, rounds, lines),
        "judge" => whole_messages::counted(alloc, rounds, lines),
        _ => key_sets::counted(alloc, task, rounds),
    }
}

fn main(rt: HostRuntime) -> io::Result<()> {
    let mut works: Vec<Work> = Vec::new(rt.alloc());
    for line in rt.lines(rt.alloc()) {
        let line = line?;
        if let Some(task) = line.strip_prefix("# ") {
            works.push(Work {
                task: String::from_str(rt.alloc(), task)?,
                lines: Vec::new(rt.alloc()),
            })?;
        } else if let Some(work) = works.last_mut() {
            work.lines.push(line)?;
        }
    }
    for work in &works {
        let count = counted(rt.alloc(), &work.task, &work.lines)?;
        println!(rt; "{count}")?;
    }
    Ok(())
}
