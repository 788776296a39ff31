//! How a verdict is printed, and which verdict by the processor's rules goes with one by all rules.

use audit_check::verdict::Verdict;
use history_rules::rules::Rule;
use std::fmt;

/// A verdict as text: `yes`, or the place and the rule.
#[derive(Clone, Copy)]
pub struct Shown(pub Verdict);

impl fmt::Display for Shown {
    fn fmt<W: fmt::Write>(&self, f: &mut fmt::Formatter<W>) -> fmt::Result {
        match self.0 {
            Verdict::Yes => write!(f, "yes"),
            Verdict::No { place, rule } => write!(f, "{place} {rule:?}"),
        }
    }
}

/// Whether a trace of which this is told by all rules can be judged so by the processor's alone: one of which they tell
/// is judged alike, and any other fails by them at no earlier place.
pub fn goes_with(told: Verdict, checked: Verdict) -> bool {
    let Verdict::No { place, rule } = told else {
        return checked == Verdict::Yes;
    };
    if is_machines(rule) {
        return checked == told;
    }
    match checked {
        Verdict::Yes => true,
        Verdict::No { place: found, rule } => place <= found && is_machines(rule),
    }
}

// Whether a rule says nothing of a driver.
fn is_machines(rule: Rule) -> bool {
    !matches!(rule, Rule::Script | Rule::Age | Rule::Kick)
}
