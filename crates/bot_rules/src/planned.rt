//! Planned bots and their paths, looked up by name.
ghost use Rattle.std.specs.Prelude.{◌≡◌, find, position, Some, None, MatchOption};
ghost use Rattle.std.specs.Str.{bytes_eq};
ghost use Rattle.bot_rules.specs.Facts.{route_named};

use base_types::BotName;
use runtime_config::{Planned, Route};

/// The place of the bot of this name.
pub fn place_of_bot(bots: &[Planned], name: &BotName) -> Option<usize>
    ensures { result ≡ position (λ p. bytes_eq p.bot name.now) bots.now }
{
    bots.iter().position(|p| p.bot == *name)
}

fn place_of_route(routes: &[Route], path: &str) -> Option<usize>
    ensures { result ≡ position (λ route. bytes_eq route.path path.now) routes.now }
{
    routes.iter().position(|route| route.path.as_str() == path)
}

/// The path of this name.
#[tactic(auto, using(base_types::proofs::Found::find_placed, base_types::proofs::Found::find_missing))]
pub fn route_named<'r>(routes: &'r [Route], path: &str) -> Option<&'r Route>
    ensures { MatchOption result (route_named path.now routes.now ≡ None) (λ route. route_named path.now routes.now ≡ Some route.now) }
{
    match place_of_route(routes, path) {
        Some(i) => Some(&routes[i]),
        None => None,
    }
}
