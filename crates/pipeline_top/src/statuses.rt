//! The statuses of commands, by what they came to.
ghost use Rattle.std.specs.Prelude.{◌≡◌, ◌⊎◌, codes};
ghost use Rattle.pipeline_top.specs.Statuses.{audit_status, behind_store, drain_status, is_said, store_status, turns_status, unbrought_status, IsRunEnd};
ghost use Rattle.status_texts.specs.declared.status.FeedWhy.TheVariants.{Failed};

use crate::{FeedWhy, Status};
use audit_command::AuditEnd;
use base_types::Text;
use bundle_bringing::Unbrought;
use drain_turns::TurnsEnd;
use live_reload::OrdersEnd;
use std::alloc::Global;
use store_commands::StoreEnd;

/// Of a command on a store.
pub fn store_status(end: StoreEnd) -> Status
    ensures { result ≡ store_status end }
{
    match end {
        StoreEnd::Done => Status::Done,
        StoreEnd::Memory => Status::Memory,
        StoreEnd::Disk => Status::Disk,
        StoreEnd::Sink => Status::Sink,
        StoreEnd::Store { have } => Status::Store { have },
        StoreEnd::Damaged { file, at } => Status::Damaged { file, at },
        StoreEnd::Refused => Status::Memory,
        StoreEnd::NoDump { no } => Status::NoDump { no },
        StoreEnd::Spent { next } => Status::Spent { next },
        StoreEnd::Full { bytes } => Status::Full { bytes },
    }
}

/// Of an audit.
pub fn audit_status(end: AuditEnd) -> Status
    ensures { result ≡ audit_status end }
{
    match end {
        AuditEnd::Legal => Status::Done,
        AuditEnd::Illegal { step } => Status::Illegal { step },
        AuditEnd::Damaged { file, at } => Status::Damaged { file, at },
        AuditEnd::Store { have } => Status::Store { have },
        AuditEnd::Disk => Status::Disk,
        AuditEnd::Sink => Status::Sink,
        AuditEnd::Memory => Status::Memory,
    }
}

// Of turns that ended so, where so many steps might be made.
fn turns_status(steps: Option<u64>, last: TurnsEnd) -> Status
    ensures { result ≡ turns_status steps last }
{
    match last {
        TurnsEnd::Idle => Status::Done,
        TurnsEnd::Left => Status::Stopped {
            steps: steps.unwrap_or(0),
        },
        TurnsEnd::Absent { name } => Status::Feed {
            name,
            why: FeedWhy::Absent,
        },
        TurnsEnd::Failed { name } => Status::Feed {
            name,
            why: FeedWhy::Failed,
        },
        TurnsEnd::Short { have, need } => Status::Short { have, need },
        TurnsEnd::LongLine { bot, at } => Status::LongLine { bot, at },
        TurnsEnd::LongFeed { bot } => Status::LongFeed { bot },
        TurnsEnd::Halted { bot } => Status::Halted { bot },
        TurnsEnd::Spent { next } => Status::Spent { next },
        TurnsEnd::Full { bytes } => Status::Full { bytes },
        TurnsEnd::Damaged { file, at } => Status::Damaged { file, at },
        TurnsEnd::Disk => Status::Disk,
        TurnsEnd::Memory => Status::Memory,
    }
}

/// Of a drain that might make so many steps.
pub fn drain_status(steps: Option<u64>, end: Result<TurnsEnd, StoreEnd>) -> Status
    ensures { result ≡ drain_status steps end }
{
    match end {
        Ok(last) => turns_status(steps, last),
        Err(end) => store_status(end),
    }
}

/// Of a run that made so many steps, and to whose orders this came.
pub fn run_status(
    alloc: Global,
    steps: u64,
    orders: OrdersEnd,
    end: Result<TurnsEnd, StoreEnd>,
) -> Status
    ensures { IsRunEnd steps orders end result }
{
    match (orders, end) {
        (OrdersEnd::Control, Ok(TurnsEnd::Left)) => control_failed(alloc),
        (_, end) => drain_status(Some(steps), end),
    }
}

// Control failed.
fn control_failed(alloc: Global) -> Status
    ensures { (result ≡ Status.Feed (codes "control") Failed) ⊎ (result ≡ Status.Memory) }
{
    match Text::new(alloc, b"control") {
        Ok(name) => Status::Feed {
            name,
            why: FeedWhy::Failed,
        },
        Err(_) => Status::Memory,
    }
}

/// Of a bundle that isn't brought.
pub fn unbrought_status(why: Unbrought) -> Status
    ensures { result ≡ unbrought_status why }
{
    match why {
        Unbrought::Absent { name } => Status::Feed {
            name,
            why: FeedWhy::Absent,
        },
        Unbrought::Failed { name } => Status::Feed {
            name,
            why: FeedWhy::Failed,
        },
        Unbrought::Config(fault) => Status::Config(fault),
        Unbrought::OutOfMemory => Status::Memory,
    }
}

/// Whether a drain whose bundle isn't brought still prints the summary.
pub fn is_said(why: &Unbrought) -> bool
    ensures { result ≡ is_said why.now }
{
    match why {
        Unbrought::Absent { .. } | Unbrought::Failed { .. } => true,
        Unbrought::Config(_) | Unbrought::OutOfMemory => false,
    }
}

/// What opening a store came to is told before the bundle.
pub fn behind_store(end: StoreEnd, later: Status) -> Status
    ensures { result ≡ behind_store end later }
{
    match end {
        StoreEnd::Done => later,
        other => store_status(other),
    }
}
