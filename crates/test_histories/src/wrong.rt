//! Wrong traces, each told by an edit of a right one.

use audit_check::verdict::Verdict;
use history_rules::rules::Rule;
use sgx_rules::entries::Entry;
use sgx_types::names::Memory;
use std::alloc::Global;
use trace_lines::lines::read_line;
use trace_text::edition::Edition;

/// A wrong trace: what it is, what is told of it, and where other entries stand in it in place of so many of the right ones.
#[derive(Drop)]
pub struct Wrong {
    pub what: String,
    pub told: Verdict,
    place: usize,
    dropped: usize,
    others: Vec<Entry>,
}

impl Wrong {
    /// Reads a wrong trace: lines `# WHAT`, `no PLACE RULE`, `at PLACE drop COUNT`, and `+ ENTRY` for each entry that
    /// stands there. A second line `yes` says that it is a history all the same.
    pub fn read(alloc: Global, text: &str) -> Result<Option<Wrong>, Memory> {
        let mut lines = text.lines();
        let (Some(first), Some(second), Some(third)) = (lines.next(), lines.next(), lines.next())
        else {
            return Ok(None);
        };
        let (Some(what), Some(told), Some((place, dropped))) = (
            first.strip_prefix("# "),
            verdict_in(second),
            cut_in(third),
        ) else {
            return Ok(None);
        };
        let mut others = Vec::new(alloc);
        for line in lines {
            let Some(entry) = entry_in(alloc, line)? else {
                return Ok(None);
            };
            others.push(entry)?;
        }
        Ok(Some(Wrong {
            what: String::from_str(alloc, what)?,
            told,
            place,
            dropped,
            others,
        }))
    }

    /// The entries of the wrong trace.
    pub fn entries(&self, alloc: Global, right: &[Entry]) -> Result<Vec<Entry>, Memory> {
        let before = right.iter().take(self.place);
        let behind = right.iter().skip(self.place.saturating_add(self.dropped));
        Ok(
            before
                .chain(&self.others)
                .chain(behind)
                .copied()
                .collect(alloc)?,
        )
    }
}

/// The verdict that a line tells.
pub fn verdict_in(line: &str) -> Option<Verdict> {
    if line == "yes" {
        return Some(Verdict::Yes);
    }
    let (place, rule) = line.strip_prefix("no ")?.split_once(' ')?;
    Some(Verdict::No {
        place: place.parse().ok()?,
        rule: rule_in(rule)?,
    })
}

fn cut_in(line: &str) -> Option<(usize, usize)> {
    let (place, dropped) = line.strip_prefix("at ")?.split_once(" drop ")?;
    Some((place.parse().ok()?, dropped.parse().ok()?))
}

fn entry_in(alloc: Global, line: &str) -> Result<Option<Entry>, Memory> {
    match line.strip_prefix("+ ") {
        Some(text) => read_line(alloc, Edition::Two, text.as_bytes(), &mut Vec::new(alloc)),
        None => Ok(None),
    }
}

fn rule_in(word: &str) -> Option<Rule> {
    match word {
        "Script" => Some(Rule::Script),
        "Refusal" => Some(Rule::Refusal),
        "Flat" => Some(Rule::Flat),
        "Fits" => Some(Rule::Fits),
        "Stale" => Some(Rule::Stale),
        "Evict" => Some(Rule::Evict),
        "Fresh" => Some(Rule::Fresh),
        "Sealed" => Some(Rule::Sealed),
        "Measure" => Some(Rule::Measure),
        "Age" => Some(Rule::Age),
        "Kick" => Some(Rule::Kick),
        _ => None,
    }
}
