ghost use Rattle.std.specs.Prelude.{◌≡◌, ◌≢◌, ◌≤◌, List, ℕ, Some};
ghost use Rattle.std.specs.List.{AllByRecursion};
ghost use Rattle.base_types.specs.Lists.{IsIn};
ghost use Rattle.edge_traits.specs.Shelf.{count_on, IsListed};
ghost use Rattle.collector_feeds.specs.Standing.{all_faults, FeedView, IsOf, RoseBy};

use crate::CollectorFeed;
use crate::stage::Stage;
use edge_traits::Shelf;

/// Gives a feed's source back, if one was fetched. It takes no memory.
pub fn give_back<H: Shelf>(feed: CollectorFeed<H::Src>, shelf: &mut H)
    requires { IsOf (H.shelf shelf.old) feed }
    ensures counted { (n first : ℕ) → RoseBy n first (all_faults (H.shelf shelf.old) feed) → RoseBy n first (count_on (H.shelf shelf.new) feed.facts.file) }
    ensures count { (name : List ℕ) → count_on (H.shelf shelf.old) name ≤ count_on (H.shelf shelf.new) name }
    ensures other_counts { (other : List ℕ) → other ≢ feed.facts.file → count_on (H.shelf shelf.new) other ≡ count_on (H.shelf shelf.old) other }
    ensures told { (H.shelf shelf.new).told ≡ (H.shelf shelf.old).told }
    ensures stay_listed { (other : List ℕ) → IsListed (H.shelf shelf.old) other → IsListed (H.shelf shelf.new) other }
{
    let CollectorFeed {
        bot: _,
        facts,
        retries: _,
        failed: _,
        stage,
        kept: _,
    } = feed;
    match stage {
        Stage::Closed => {}
        Stage::Open { feed } => shelf.take_back(&facts.file, feed.into_source()),
    }
}

/// Gives the sources of all feeds back that were fetched. It takes no memory.
pub fn give_all_back<H: Shelf>(feeds: Vec<CollectorFeed<H::Src>>, shelf: &mut H)
    requires { AllByRecursion (IsOf (H.shelf shelf.old)) feeds.items }
    ensures counted { (feed : FeedView) (n first : ℕ) → IsIn feed feeds.items → RoseBy n first (all_faults (H.shelf shelf.old) feed) → RoseBy n first (count_on (H.shelf shelf.new) feed.facts.file) }
    ensures count { (name : List ℕ) → count_on (H.shelf shelf.old) name ≤ count_on (H.shelf shelf.new) name }
    ensures other_counts { (other : List ℕ) → AllByRecursion (λ feed. other ≢ feed.facts.file) feeds.items → count_on (H.shelf shelf.new) other ≡ count_on (H.shelf shelf.old) other }
    ensures told { (H.shelf shelf.new).told ≡ (H.shelf shelf.old).told }
{
    let mut feeds = feeds;
    match feeds.pop() {
        Some(feed) => {
            give_back(feed, shelf);
            give_all_back(feeds, shelf);
        }
        None => feeds.destroy_empty(),
    }
}
