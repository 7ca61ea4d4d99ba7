//! What a bot does with a message that it couldn't process.
#![tactic(auto)]

ghost use Rattle.std.specs.Prelude.{◌≡◌};
ghost use Rattle.error_policy.specs.Policy.{decided};

/// How a bot is set for messages that it can't process.
#[derive(Clone, Copy, Debug, PartialEq, Eq)]
pub struct Policy {
    /// Whether the bot stops once it gives a message up.
    pub stop: bool,
    /// How often a message is tried again.
    pub retries: u32,
}

/// What comes next for a message that couldn't be processed.
#[derive(Clone, Copy, Debug, PartialEq, Eq)]
pub enum Next {
    /// The message is tried again.
    Retry,
    /// The message is put aside, and the bot goes on.
    Fail,
    /// The message is put aside, and the bot stops.
    FailAndStop,
}

/// What comes next for a message that was already tried again so often.
pub fn decide(policy: Policy, tries: u32) -> Next
    ensures { result ≡ decided policy tries }
{
    if tries < policy.retries {
        Next::Retry
    } else if policy.stop {
        Next::FailAndStop
    } else {
        Next::Fail
    }
}
