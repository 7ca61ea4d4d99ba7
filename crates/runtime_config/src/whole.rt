use config_bundle::Bundle;
use runtime_text::{Bot, Object};

/// What loading looks at: a bundle, the parameters of all bots, the bots, and what each of them sends to.
#[derive(Drop)]
pub(crate) struct Whole<'a, 't> {
    pub(crate) bundle: &'a Bundle,
    pub(crate) global: &'a Object<'t>,
    pub(crate) bots: &'a [Bot<'t>],
    pub(crate) graph: &'a [Vec<usize>],
}

/// One of the bots, and those before it.
#[derive(Drop)]
pub(crate) struct PlacedBot<'a, 't> {
    pub(crate) whole: &'a Whole<'a, 't>,
    pub(crate) before: &'a [Bot<'t>],
    pub(crate) bot: &'a Bot<'t>,
}
