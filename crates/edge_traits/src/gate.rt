use base_types::BotName;

/// Where in its turn a worker stands.
#[derive(Clone, Copy, Debug, PartialEq, Eq)]
pub enum When {
    BeforeRules,
    AfterCommit,
}

/// Where workers pass and wait. It has no meaning: it is there for tests, which hold workers up, and for delays.
pub trait Gate {
    /// A worker of this bot, by the number of its instance, passes.
    fn at(&self, bot: &BotName, instance: u8, when: When);

    /// Waits for so many milliseconds.
    fn rest(&self, millis: u64);

    /// Waits for some tens of microseconds, in which a step or two may be made.
    fn pause(&self);
}
