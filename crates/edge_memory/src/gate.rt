use base_types::BotName;
use edge_traits::{Gate, When};

/// A gate that holds no one up.
#[derive(Clone, Copy, Debug, Default)]
pub struct NoGate;

impl Gate for NoGate {
    fn at(&self, _bot: &BotName, _instance: u8, _when: When) {}

    fn rest(&self, _millis: u64) {}

    fn pause(&self) {}
}
