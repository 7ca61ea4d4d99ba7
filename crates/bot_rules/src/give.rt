//! What a bot makes of a body.
ghost use Rattle.std.specs.Prelude.{◌≡◌, [], true, None, Some, IfOk};
ghost use Rattle.event_text.specs.Exact.{strict};
ghost use Rattle.feed_rows.specs.Notes.{kind_note};
ghost use Rattle.step_code.specs.declared.rules.Given.TheVariants as given;
ghost use Rattle.bot_rules.specs.Gives.{are_lawful, body_gives, job_gives, takes};
ghost use Rattle.bot_rules.specs.Jobs.{role_for};

use crate::Job;
use crate::body::message_of;
use crate::experts::{change_gives, dedup_gives};
use crate::parsers::{csv_gives, json_gives};
use crate::sieves::sieve_gives;
use base_types::{Blob, Moment, NoteList, OutOfMemory, QueueList, SendList};
use event_model::{Kind, Message};
use feed_rows::kind_note;
use std::alloc::Global;
use step_code::{Given, Role};

fn role_for(job: &Job) -> Role
    ensures { result ≡ role_for job.now }
{
    match job {
        Job::Csv(_) | Job::Json(_) => Role::Parser,
        Job::Sieve(_) | Job::Dedup(_) | Job::Change(_) => Role::Expert,
        Job::Output => Role::Output,
    }
}

// Whether a bot of this role takes messages of this kind.
fn takes(role: Role, kind: Kind) -> bool
    ensures { result ≡ takes role kind }
{
    match role {
        Role::Collector => false,
        Role::Parser => kind == Kind::Report,
        Role::Expert => kind == Kind::Event,
        Role::Output => true,
    }
}

fn wrong_kind(alloc: Global) -> Result<Given, OutOfMemory>
    ensures { IfOk result (λ g. g ≡ given.Fault kind_note) }
{
    Ok(Given::Fault(kind_note(alloc)?))
}

// An output writes the body as it is.
fn written(alloc: Global) -> Given
    ensures { result ≡ given.Pass [] [] None true }
{
    Given::Pass {
        sends: SendList::new(alloc),
        dumps: NoteList::new(alloc),
        key: None,
        line: true,
    }
}

// What is made of a message of the right kind, whose text the body is.
#[tactic(auto, unfolding(crate::specs::Gives::job_gives))]
fn job_gives(
    alloc: Global,
    job: &mut Job,
    queues: &QueueList,
    body: &Blob,
    since: Moment,
    message: &Message,
) -> Result<Given, OutOfMemory>
    requires body { strict body.now ≡ Some message.now }
    requires taken { takes (role_for job.old) message.now.kind ≡ true }
    ensures given { IfOk result (λ g. g ≡ job_gives job.old queues.now since.0 message.now.fields) }
    ensures lawful { IfOk result (λ g. are_lawful g ≡ true) }
    ensures same { job.new ≡ job.old }
{
    let fields = &message.fields;
    match job {
        Job::Csv(rule) => csv_gives(alloc, rule, queues, fields),
        Job::Json(rule) => json_gives(alloc, rule, queues, fields),
        Job::Sieve(work) => sieve_gives(alloc, work, fields, since),
        Job::Dedup(rule) => dedup_gives(alloc, rule, queues, body, fields),
        Job::Change(change) => change_gives(alloc, change, queues, fields),
        Job::Output => Ok(written(alloc)),
    }
}

/// What is made of a body that was taken at a moment.
#[tactic(auto, unfolding(crate::specs::Gives::body_gives))]
pub fn body_gives(
    alloc: Global,
    job: &mut Job,
    queues: &QueueList,
    body: &Blob,
    since: Moment,
) -> Result<Given, OutOfMemory>
    ensures given { IfOk result (λ g. g ≡ body_gives job.old queues.now since.0 body.now) }
    ensures same { job.new ≡ job.old }
{
    let Some(message) = message_of(alloc, body)? else {
        return wrong_kind(alloc);
    };
    if !takes(role_for(job), message.kind) {
        return wrong_kind(alloc);
    }
    job_gives(alloc, job, queues, body, since, &message)
}
