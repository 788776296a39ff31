//! Given traces, right and wrong, that are judged.

use crate::comparing::{Finding, Report, checked, compare};
use crate::read;
use crate::verdicts::Shown;
use std::io;

/// Audits the traces of that name.
pub fn tell_audited(rt: &HostRuntime, name: &str) -> io::Result<()> {
    let job = read(rt, name, ".job")?;
    let trace = read(rt, name, ".trace")?;
    let wrong = read(rt, name, ".wrong")?;
    match compare(rt.alloc(), &job, &trace, &wrong) {
        Ok(Some(report)) => print(rt, name, &report),
        Ok(None) => println!(rt; "{name}: no job, no trace, or no wrong traces"),
        Err(_) => println!(rt; "{name}: no memory"),
    }
}

/// Checks the trace of that name, which Linux's driver made.
pub fn tell_checked(rt: &HostRuntime, name: &str) -> io::Result<()> {
    let job = read(rt, name, ".job")?;
    let trace = read(rt, name, ".trace")?;
    let told = read(rt, name, ".told")?;
    match checked(rt.alloc(), &job, &trace, &told) {
        Ok(Some(Finding { found, told, .. })) if found != told => {
            println!(rt; "{name}: {} and not {}", Shown(found), Shown(told))
        }
        Ok(
            Some(
                Finding {
                    is_tallied: false,
                    ..
                },
            ),
        ) => println!(rt; "{name}: another tally"),
        Ok(Some(Finding { found, .. })) => println!(rt; "{name}: {}, as told", Shown(found)),
        Ok(None) => println!(rt; "{name}: no job, no trace, or nothing told"),
        Err(_) => println!(rt; "{name}: no memory"),
    }
}

fn print(rt: &HostRuntime, name: &str, report: &Report) -> io::Result<()> {
    for other in &report.others {
        let what = other.what.as_str();
        println!(rt;
            "{name}: {what}: {} and not {}",
            Shown(other.found),
            Shown(other.told)
        )?;
    }
    let each = if report.others.is_empty() {
        ", each as told"
    } else {
        ""
    };
    println!(rt;
        "{name}: {}; {} wrong traces{each}",
        Shown(report.right),
        report.all
    )
}
