//! Cases of a TIA.

use crate::console::Console;
use crate::step::Step;

/// Whether each line of a text is a comment.
pub(crate) fn is_comment(text: &str) -> bool {
    text.lines().all(|line| line.starts_with('#'))
}

/// A case that is under way.
#[derive(Drop)]
struct Trial {
    console: Console,
    has_check: bool,
}

impl Trial {
    /// Whether a step can be read and is met. An empty one is met.
    fn is_met(&mut self, step: &str) -> bool {
        if step.is_empty() {
            return true;
        }
        let Some(step) = Step::parse(step) else {
            return false;
        };
        self.has_check = self.has_check || step.is_check();
        self.console.take(&step)
    }

    /// The first step of a line that isn't met.
    fn difference<'a>(&mut self, line: &'a str) -> Option<&'a str> {
        for step in line.split(';') {
            let step = step.trim();
            if !self.is_met(step) {
                return Some(step);
            }
        }
        None
    }
}

/// The first step of a case that isn't met. Where its first line names no source, or no step checks
/// anything, that line.
///
/// The first line is the case's name and its source with ` | ` between them. The others are its
/// steps, with `;` between them.
pub(crate) fn difference(case: &str) -> Option<&str> {
    let found = difference_by(case, false);
    if found.is_some() {
        found
    } else {
        difference_by(case, true)
    }
}

/// The same, by clocks one by one, or many at once.
fn difference_by(case: &str, at_once: bool) -> Option<&str> {
    let (title, steps) = case.split_once('\n').unwrap_or((case, ""));
    let mut trial = Trial {
        console: Console::power_on(at_once),
        has_check: false,
    };
    for line in steps.lines() {
        let found = trial.difference(line);
        if found.is_some() {
            return found;
        }
    }
    if title.contains(" | ") && trial.has_check {
        None
    } else {
        Some(title)
    }
}
