//! Times a sequenced cell that some threads write while others read it.
//!
//! Its arguments are a word that it does not read, the size of the value in bytes (8, 64 or 256), the number of readers (1, 2 or
//! 3), how often each writer tries to write, how many loads it makes after each try, and the number of writers (1, 2 or 3). The
//! number of writers is 1 if it is not given.
//!
//! Writes numbers to standard output: the nanoseconds that all took, how often the readers tried to read, and how many tries
//! returned a value. If the number of writers is given, then also how often the writers tried to write, and how many writes were
//! finished.
#![tactic(auto)]

mod workload;

use crate::workload::{Crew, Workload, run};
use std::env;
use std::time::Instant;

fn main(rt: HostRuntime) -> Result<(), anyhow::Error> {
    let alloc = rt.alloc();
    let mut words = Vec::new(alloc);
    for word in env::args(&rt)? {
        words.push(word)?;
    }
    let (size, readers, tries, pause, writers) = match words.as_slice() {
        [_, _, size, readers, tries, pause] => (size, readers, tries, pause, None),
        [_, _, size, readers, tries, pause, writers] => (
            size,
            readers,
            tries,
            pause,
            Some(writers),
        ),
        _ => anyhow::bail!(
            "five or six arguments are needed: WORD SIZE READERS TRIES PAUSE [WRITERS]"
        ),
    };
    let writing = match writers {
        Some(writers) => crew(writers)?,
        None => Crew::One,
    };
    let workload = Workload::new(writing, crew(readers)?, tries.parse()?, pause.parse()?);
    let start = Instant::now(&rt)?;
    let (writes, reads) = match size.as_str() {
        "8" => run::<8, _>(&rt, alloc, &workload)?,
        "64" => run::<64, _>(&rt, alloc, &workload)?,
        "256" => run::<256, _>(&rt, alloc, &workload)?,
        _ => anyhow::bail!("the size is 8, 64 or 256"),
    };
    let took = start.elapsed(&rt)?.as_nanos();
    if writers.is_some() {
        println!(rt;
            "{took} {} {} {} {}",
            reads.tries, reads.values, writes.tries, writes.finished
        )?;
    } else {
        println!(rt; "{took} {} {}", reads.tries, reads.values)?;
    }
    Ok(())
}

/// Returns the crew of so many threads.
fn crew(threads: &str) -> Result<Crew, anyhow::Error> {
    match threads {
        "1" => Ok(Crew::One),
        "2" => Ok(Crew::Two),
        "3" => Ok(Crew::Three),
        _ => anyhow::bail!("the numbers of readers and of writers are 1, 2 or 3"),
    }
}
