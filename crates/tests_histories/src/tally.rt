//! How often each kind of step was taken.

use step_code::StepKind;

/// The counts of the ten kinds, in their order.
#[derive(Clone, Copy)]
pub struct Tally {
    counts: [u64; 10],
}

// The place of the kind among the ten.
fn place(what: &StepKind) -> usize {
    match what {
        StepKind::Start => 0,
        StepKind::Collect { .. } => 1,
        StepKind::FeedEnd { .. } => 2,
        StepKind::Take { .. } => 3,
        StepKind::Done { .. } => 4,
        StepKind::Retry { .. } => 5,
        StepKind::Fail { .. } => 6,
        StepKind::Reload { .. } => 7,
        StepKind::Redo { .. } => 8,
        StepKind::Round { .. } => 9,
    }
}

impl Tally {
    pub fn new() -> Tally {
        Tally { counts: [0; 10] }
    }

    pub fn count(&mut self, what: &StepKind) {
        if let Some(count) = self.counts.get_mut(place(what)) {
            *count = count.saturating_add(1);
        }
    }

    /// The least of the counts.
    pub fn least(&self) -> u64 {
        let mut least = u64::MAX;
        for count in &self.counts {
            least = least.min(*count);
        }
        least
    }
}
