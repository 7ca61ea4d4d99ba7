//! What a bundle means: the plan of its bots, or the first fault.
ghost use Rattle.std.specs.Prelude.{◌≡◌, ◌<◌, ◌≤◌, ◌+◌, ◌++◌, ◌∷◌, [], false, length, take, map, nat_lt, option_and_then, option_map, slice_get, None, Some, IfOk, MatchResult, OnOk, if◌then◌else◌};
ghost use Rattle.config_bundle.specs.Limits.{longest_runtime};
ghost use Rattle.serde_json.specs.View.{view};
ghost use Rattle.event_model.specs.Trees.{tree_in};
ghost use Rattle.runtime_config.specs.Faults.{absent_file, bad_parameter, bad_row, bad_rule, fault_of, first_fault, first_of, missing_member, past_limit, rules_of_places, rules_of_settings, rules_of_sieves, unknown_queue};
ghost use Rattle.runtime_config.specs.Found.{IsFault, IsFound, IsPlannedAs, IsSieveOf};
ghost use Rattle.runtime_config.specs.Load.{load, of_runtime, planned, IsLoaded};
ghost use Rattle.runtime_text.specs.Read.{entries_of, members_of};
ghost use Rattle.runtime_text.specs.Reaches.{reaches};
ghost use Rattle.runtime_text.specs.Runtime.{object_of, runtime_in, Entry};
ghost use Rattle.runtime_config.specs.Whole.{is_past, place_of, planned_at, runtime_as, sieve_at, AreSumsBefore, AreSumsOver, AreSumsWith, IsPlaced, IsPlannedThere, IsWhole};
ghost use Rattle.runtime_config.specs.declared.fault.LoadFault.TheVariants as fault;

use crate::limits::{Sums, is_past_limit};
use crate::paths::known_paths;
use crate::planning::planned;
use crate::rules::{absent_file, bad_parameter, missing_member, unknown_module};
use crate::sieve::{bot_sieve, has_many_patterns, with_known_paths};
use crate::whole::{PlacedBot, Whole};
use crate::{LoadFault, Plan, Planned, PlannedList};
use base_types::OutOfMemory;
use config_bundle::{Bundle, LONGEST_RUNTIME};
use runtime_text::{Object, bots_in, comes_back, graph_of, object_of, tree_in};
use serde_json::Value as Tree;
use sieve_tree::Sieve;
use std::alloc::Global;

// ---- one bot, fault by fault

fn members_fault(alloc: Global, at: &PlacedBot) -> Result<(), LoadFault>
    ensures { IsFound (first_of (missing_member ∷ absent_file ∷ []) (place_of at.now)) result }
{
    match missing_member(alloc, at.whole.global, at.bot) {
        Ok(()) => absent_file(alloc, at.whole.bundle, at.whole.global, at.bot),
        Err(fault) => Err(fault),
    }
}

fn parameters_fault(alloc: Global, at: &PlacedBot) -> Result<(), LoadFault>
    ensures { IsFound (first_of (bad_parameter ∷ missing_member ∷ absent_file ∷ []) (place_of at.now)) result }
{
    match bad_parameter(alloc, at.whole.global, at.bot) {
        Ok(()) => members_fault(alloc, at),
        Err(fault) => Err(fault),
    }
}

// A fault that the bot has by itself: of its module, its parameters, what it lacks, its file.
fn settings_fault(alloc: Global, at: &PlacedBot) -> Result<(), LoadFault>
    ensures { IsFound (first_of rules_of_settings (place_of at.now)) result }
{
    match unknown_module(at.bot) {
        Ok(()) => parameters_fault(alloc, at),
        Err(fault) => Err(fault),
    }
}

// Whether what the bot at this place sends comes back to it.
fn is_on_cycle(alloc: Global, whole: &Whole, at: usize) -> Result<bool, OutOfMemory>
    requires whole { IsWhole whole.now }
    requires place { at < length whole.now.bots.now }
    ensures { IfOk result (λ back. (bot : Entry) → slice_get (entries_of whole.now.bots.now) at ≡ Some bot → back ≡ reaches (entries_of whole.now.bots.now) bot bot) }
{
    Ok(comes_back(alloc, whole.graph, at)?)
}

// The bot's plan, or a fault of its queues or its table.
fn routed(alloc: Global, at: &PlacedBot, sieve: Sieve) -> Result<Planned, LoadFault>
    requires placed { IsPlaced at.now }
    requires sieve { sieve ≡ sieve_at (place_of at.now) }
    ensures { IsPlannedAs (first_of (unknown_queue ∷ bad_row ∷ bad_rule ∷ []) (place_of at.now)) (planned_at (place_of at.now)) result }
{
    match known_paths(alloc, at.whole.bots, at.bot)? {
        Some(paths) => planned(
            alloc,
            at.whole.bundle,
            at.whole.global,
            at.bot,
            paths,
            sieve,
        ),
        None => Err(LoadFault::Queue { bot: at.bot.name() }),
    }
}

// Whether one of the bot's numbers is above its limit, or one of those together. The sums become those with this bot,
// unless it is.
fn passes_limit(
    alloc: Global,
    at: &PlacedBot,
    sieve: &Sieve,
    sums: &mut Sums,
) -> Result<bool, OutOfMemory>
    requires sieve { sieve.now ≡ sieve_at (place_of at.now) }
    requires sums { AreSumsBefore at.now sums.old }
    ensures past { IfOk result (λ past. past ≡ is_past (place_of at.now)) }
    ensures sums { IfOk result (λ past. past ≡ false → AreSumsWith at.now sums.new) }
{
    if has_many_patterns(sieve) {
        return Ok(true);
    }
    is_past_limit(
        alloc,
        at.whole.bundle,
        at.whole.global,
        at.before,
        at.bot,
        sums,
    )
}

// The bot's plan, or a fault of its limits, its queues or its table.
fn limited(
    alloc: Global,
    at: &PlacedBot,
    sieve: Sieve,
    sums: &mut Sums,
) -> Result<Planned, LoadFault>
    requires placed { IsPlaced at.now }
    requires sieve { sieve ≡ sieve_at (place_of at.now) }
    requires sums { AreSumsBefore at.now sums.old }
    ensures found { IsPlannedAs (first_of (past_limit ∷ unknown_queue ∷ bad_row ∷ bad_rule ∷ []) (place_of at.now)) (planned_at (place_of at.now)) result }
    ensures sums { OnOk result (AreSumsWith at.now sums.new) }
{
    if passes_limit(alloc, at, &sieve, sums)? {
        return Err(LoadFault::Limit { bot: at.bot.name() });
    }
    routed(alloc, at, sieve)
}

// The same, or that the bot is on a cycle before.
fn ordered(
    alloc: Global,
    at: &PlacedBot,
    sieve: Sieve,
    sums: &mut Sums,
) -> Result<Planned, LoadFault>
    requires placed { IsPlaced at.now }
    requires sieve { sieve ≡ sieve_at (place_of at.now) }
    requires sums { AreSumsBefore at.now sums.old }
    ensures found { IsPlannedAs (first_of rules_of_places (place_of at.now)) (planned_at (place_of at.now)) result }
    ensures sums { OnOk result (AreSumsWith at.now sums.new) }
{
    if is_on_cycle(alloc, at.whole, at.before.len())? {
        return Err(LoadFault::Cycle { bot: at.bot.name() });
    }
    limited(alloc, at, sieve, sums)
}

// The bot's sieve, or what is wrong with it or with its paths.
fn sieve_for(alloc: Global, at: &PlacedBot) -> Result<Sieve, LoadFault>
    ensures { IsSieveOf (first_of rules_of_sieves (place_of at.now)) (sieve_at (place_of at.now)) result }
{
    match bot_sieve(alloc, at.whole.bundle, at.whole.global, at.bot) {
        Ok(sieve) => with_known_paths(at.bot, sieve),
        Err(fault) => Err(fault),
    }
}

// The bot's plan, or a fault of its sieve, or one of those behind.
fn sieved(alloc: Global, at: &PlacedBot, sums: &mut Sums) -> Result<Planned, LoadFault>
    requires placed { IsPlaced at.now }
    requires sums { AreSumsBefore at.now sums.old }
    ensures found { IsPlannedAs (first_of (rules_of_sieves ++ rules_of_places) (place_of at.now)) (planned_at (place_of at.now)) result }
    ensures sums { OnOk result (AreSumsWith at.now sums.new) }
{
    match sieve_for(alloc, at) {
        Ok(sieve) => ordered(alloc, at, sieve, sums),
        Err(fault) => Err(fault),
    }
}

// The plan of a bot, or its first fault. The sums become those with this bot.
#[tactic(auto, unfolding(crate::specs::Faults::fault_of))]
fn load_bot(alloc: Global, at: &PlacedBot, sums: &mut Sums) -> Result<Planned, LoadFault>
    requires placed { IsPlaced at.now }
    requires sums { AreSumsBefore at.now sums.old }
    ensures found { IsPlannedAs (fault_of (place_of at.now)) (planned_at (place_of at.now)) result }
    ensures sums { OnOk result (AreSumsWith at.now sums.new) }
{
    match settings_fault(alloc, at) {
        Ok(()) => sieved(alloc, at, sums),
        Err(fault) => Err(fault),
    }
}

// ---- all bots

// The plan of the bot at this place, or its first fault.
fn bot_at(alloc: Global, whole: &Whole, at: usize, sums: &mut Sums) -> Result<Planned, LoadFault>
    requires whole { IsWhole whole.now }
    requires place { at < length whole.now.bots.now }
    requires sums { AreSumsOver whole.now (take at (entries_of whole.now.bots.now)) sums.old }
    ensures found { (bot : Entry) → slice_get (entries_of whole.now.bots.now) at ≡ Some bot → IsPlannedThere whole.now (take at (entries_of whole.now.bots.now)) bot result }
    ensures sums { OnOk result (AreSumsOver whole.now (take (at + 1) (entries_of whole.now.bots.now)) sums.new) }
{
    let placed = PlacedBot {
        whole,
        before: &whole.bots[..at],
        bot: &whole.bots[at],
    };
    load_bot(alloc, &placed, sums)
}

fn push_planned(bots: &mut PlannedList, planned: Planned) -> Result<(), LoadFault>
    ensures { MatchResult result (λ _. bots.new ≡ bots.old ++ planned ∷ []) (λ e. e ≡ fault.OutOfMemory) }
{
    match bots.push(planned) {
        Ok(()) => Ok(()),
        Err(_) => Err(LoadFault::OutOfMemory),
    }
}

fn load_bots(alloc: Global, whole: &Whole) -> Result<Plan, LoadFault>
    requires whole { IsWhole whole.now }
    requires short { length whole.now.bundle.now.runtime ≤ longest_runtime }
    ensures { MatchResult result (λ plan. (first_fault whole.now.bundle.now (runtime_as whole.now) ≡ None)
        × (plan ≡ record { bots = map (planned whole.now.bundle.now (members_of whole.now.global.now)) (entries_of whole.now.bots.now) }))
        (IsFault (first_fault whole.now.bundle.now (runtime_as whole.now))) }
{
    let mut bots = PlannedList::new(alloc);
    let mut sums = Sums::new(alloc, whole.bundle);
    'bots: for at in 0..whole.bots.len() {
        match bot_at(alloc, whole, at, &mut sums) {
            Ok(planned) => push_planned(&mut bots, planned)?,
            Err(fault) => return Err(fault),
        }
    }
    Ok(Plan { bots })
}

// The tree of a runtime text that isn't too long.
fn tree_of(alloc: Global, runtime: &[u8]) -> Result<Option<Tree>, OutOfMemory>
    ensures { IfOk result (λ tree. option_map view tree ≡ (if nat_lt longest_runtime (length runtime.now) then None else tree_in runtime.now)) }
{
    if runtime.len() > LONGEST_RUNTIME {
        return Ok(None);
    }
    tree_in(alloc, runtime)
}

// The plan of the bots of this tree, or their first fault. The tree is the caller's, so that its drop isn't proved at each of
// these ends.
fn load_tree(alloc: Global, bundle: &Bundle, tree: &Tree) -> Result<Plan, LoadFault>
    requires { length bundle.now.runtime ≤ longest_runtime }
    ensures { IsLoaded (of_runtime bundle.now (option_and_then runtime_in (object_of (view tree.now)))) result }
{
    let Some(members) = object_of(tree) else {
        return Err(LoadFault::Json);
    };
    let Some(bots) = bots_in(alloc, members)? else {
        return Err(LoadFault::Json);
    };
    let global = Object::under(members, "global");
    let graph = graph_of(alloc, &bots)?;
    let whole = Whole {
        bundle,
        global: &global,
        bots: &bots,
        graph: &graph,
    };
    load_bots(alloc, &whole)
}

/// The bots of a bundle with their checked parameters, in byte order of their names; or its first fault: `Json`, or of the
/// first bot that has one the first in the order of `LoadFault`.
#[tactic(auto, unfolding(crate::specs::Load::load, crate::specs::Load::runtime_of))]
pub fn load(alloc: Global, bundle: &Bundle) -> Result<Plan, LoadFault>
    ensures { IsLoaded (load bundle.now) result }
{
    let Some(tree) = tree_of(alloc, bundle.runtime.bytes())? else {
        return Err(LoadFault::Json);
    };
    load_tree(alloc, bundle, &tree)
}
