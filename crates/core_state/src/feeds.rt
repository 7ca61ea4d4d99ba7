//! How far collectors have come.
ghost use Rattle.std.specs.Prelude.{◌≡◌, ◌<◌, true, List, find, position, option_map, unwrap_or, Some, None, MatchOption};
ghost use Rattle.std.specs.Str.{bytes_eq};
ghost use Rattle.base_types.specs.Lists.{changed};
ghost use Rattle.step_code.specs.Rules.{passes};
ghost use Rattle.step_code.specs.State.{is_feed};
ghost use Rattle.step_code.specs.declared.feed.Feed.{Feed};
ghost use Rattle.step_code.specs.After.{next_round};
ghost use Rattle.base_types.specs.Number.{last_u64};

use base_types::BotName;
use step_code::Feed;

fn place_of_feed(feeds: &[Feed], bot: &BotName) -> Option<usize>
    ensures { result ≡ position (is_feed bot.now) feeds.now }
{
    feeds.iter().position(|f| f.bot == *bot)
}

/// The offset up to which the feed was collected, in bytes.
#[tactic(auto, using(base_types::proofs::Found::find_placed, base_types::proofs::Found::find_missing))]
pub fn position_of(feeds: &[Feed], bot: &BotName) -> u64
    ensures { result ≡ unwrap_or (option_map (λ f. f.position) (find (is_feed bot.now) feeds.now)) 0 }
{
    match place_of_feed(feeds, bot) {
        Some(i) => feeds[i].position,
        None => 0,
    }
}

#[tactic(auto, using(base_types::proofs::Found::find_placed, base_types::proofs::Found::find_missing))]
pub fn has_finished(feeds: &[Feed], bot: &BotName) -> bool
    ensures { result ≡ passes (λ f. f.finished) (find (is_feed bot.now) feeds.now) }
{
    match place_of_feed(feeds, bot) {
        Some(i) => feeds[i].finished,
        None => false,
    }
}

/// The feed was collected up to this offset.
#[tactic(auto, using(base_types::proofs::Found::changed_missing))]
pub fn go_to(feeds: &mut Vec<Feed>, bot: &BotName, position: u64)
    ensures { feeds.new.items ≡ changed (is_feed bot.now) (λ f. record f { position = position }) feeds.old.items }
{
    if let Some(i) = place_of_feed(feeds, bot) {
        feeds[i].position = position;
    }
}

/// The feed was collected to its end.
#[tactic(auto, using(base_types::proofs::Found::changed_missing))]
pub fn finish(feeds: &mut Vec<Feed>, bot: &BotName)
    ensures { feeds.new.items ≡ changed (is_feed bot.now) (λ f. record f { finished = true }) feeds.old.items }
{
    if let Some(i) = place_of_feed(feeds, bot) {
        feeds[i].finished = true;
    }
}

/// The feed is collected again from its beginning.
#[tactic(auto, using(base_types::proofs::Found::changed_missing))]
pub fn begin_again(feeds: &mut Vec<Feed>, bot: &BotName)
    requires { (f : Feed) → find (is_feed bot.now) feeds.old.items ≡ Some f → f.round < last_u64 }
    ensures { feeds.new.items ≡ changed (is_feed bot.now) next_round feeds.old.items }
{
    if let Some(i) = place_of_feed(feeds, bot) {
        begin_round(&mut feeds[i]);
    }
}

/// A feed begins anew.
pub fn begin_round(feed: &mut Feed)
    requires { feed.old.round < last_u64 }
    ensures { feed.new ≡ next_round feed.old }
{
    feed.round += 1;
    feed.position = 0;
    feed.finished = false;
}

/// How far a collector has come, if it has a feed.
#[tactic(auto, using(base_types::proofs::Found::find_placed, base_types::proofs::Found::find_missing))]
pub fn feed_of<'f>(feeds: &'f [Feed], bot: &BotName) -> Option<&'f Feed>
    ensures { MatchOption result (find (is_feed bot.now) feeds.now ≡ None) (λ f. find (is_feed bot.now) feeds.now ≡ Some f.now) }
{
    match place_of_feed(feeds, bot) {
        Some(i) => Some(&feeds[i]),
        None => None,
    }
}
