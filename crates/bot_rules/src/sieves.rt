//! What sieves give.
ghost use Rattle.std.specs.Prelude.{◌≡◌, [], ◌++◌, true, false, None, IfOk, OnOk};
ghost use Rattle.std.specs.List.{list_all};
ghost use Rattle.sieve_eval.specs.Verdicts.{verdict};
ghost use Rattle.bot_rules.specs.Facts.{queues_on};
ghost use Rattle.bot_rules.specs.Gives.{are_lawful, fate_gives, is_lawful, sieve_gives, to_each, to_paths};

use crate::SieveJob;
use crate::body::{body_of, send_copies, send_to_each};
use crate::planned::route_named;
use base_types::{Blob, Moment, NoteList, OutOfMemory, SendList, Text};
use event_model::{Fields, Kind};
use feed_rows::sieve_note;
use runtime_config::Route;
use sieve_eval::{EvalFault, Fate, Verdict};
use std::alloc::Global;
use step_code::Given;

// Sends copies of a body on a path.
fn send_on(
    alloc: Global,
    sends: &mut SendList,
    routes: &[Route],
    path: &Text,
    body: &Blob,
) -> Result<(), OutOfMemory>
    ensures { OnOk result (sends.new ≡ sends.old ++ to_each (queues_on path.now routes.now) body.now) }
{
    match route_named(routes, path.as_str()) {
        Some(route) => send_copies(alloc, sends, route.queues.as_slice(), body),
        None => Ok(()),
    }
}

// Sends copies of a body on paths.
fn send_on_each(
    alloc: Global,
    sends: &mut SendList,
    routes: &[Route],
    paths: &[Text],
    body: &Blob,
) -> Result<(), OutOfMemory>
    ensures { OnOk result (sends.new ≡ sends.old ++ to_paths routes.now paths.now body.now) }
{
    'paths: for path in paths {
        send_on(alloc, sends, routes, path, body)?;
    }
    Ok(())
}

// Sends a body on a path. Its last queue gets the body itself.
fn send_on_last(
    alloc: Global,
    sends: &mut SendList,
    routes: &[Route],
    path: &Text,
    body: Blob,
) -> Result<(), OutOfMemory>
    ensures { OnOk result (sends.new ≡ sends.old ++ to_each (queues_on path.now routes.now) body) }
{
    match route_named(routes, path.as_str()) {
        Some(route) => send_to_each(alloc, sends, &route.queues, body),
        None => Ok(()),
    }
}

// Sends a body on each of these paths, in their order.
fn sent_on(
    alloc: Global,
    routes: &[Route],
    paths: &[Text],
    body: Blob,
) -> Result<SendList, OutOfMemory>
    requires { is_lawful body ≡ true }
    ensures sends { IfOk result (λ sends. sends ≡ to_paths routes.now paths.now body) }
    ensures lawful { IfOk result (λ sends. list_all (λ send. is_lawful send.1) sends ≡ true) }
{
    let mut sends = SendList::new(alloc);
    let [others @ .., last] = paths else {
        return Ok(sends);
    };
    send_on_each(alloc, &mut sends, routes, others, &body)?;
    send_on_last(alloc, &mut sends, routes, last, body)?;
    Ok(sends)
}

fn forwarded(
    alloc: Global,
    routes: &[Route],
    paths: &[Text],
    fields: Fields,
) -> Result<Given, OutOfMemory>
    ensures given { IfOk result (λ g. g ≡ fate_gives routes.now fields (Fate.Forward paths.now)) }
    ensures lawful { IfOk result (λ g. are_lawful g ≡ true) }
{
    let body = body_of(alloc, Kind::Event, fields)?;
    Ok(Given::Pass {
        sends: sent_on(alloc, routes, paths, body)?,
        dumps: NoteList::new(alloc),
        key: None,
        line: false,
    })
}

fn dropped(alloc: Global) -> Given
    ensures { result ≡ Given.Pass [] [] None false }
{
    Given::Pass {
        sends: SendList::new(alloc),
        dumps: NoteList::new(alloc),
        key: None,
        line: false,
    }
}

fn verdict_gives(alloc: Global, routes: &[Route], verdict: Verdict) -> Result<Given, OutOfMemory>
    ensures given { IfOk result (λ g. g ≡ fate_gives routes.now verdict.fields verdict.fate) }
    ensures lawful { IfOk result (λ g. are_lawful g ≡ true) }
{
    let Verdict { fields, fate } = verdict;
    match fate {
        Fate::Forward(paths) => forwarded(alloc, routes, paths.as_slice(), fields),
        Fate::Dropped => Ok(dropped(alloc)),
    }
}

/// What a sieve gives of an event that was taken at a moment.
pub fn sieve_gives(
    alloc: Global,
    work: &mut SieveJob,
    fields: &Fields,
    since: Moment,
) -> Result<Given, OutOfMemory>
    ensures given { IfOk result (λ g. g ≡ sieve_gives work.old.routes (verdict work.old.sieve fields.now since.0)) }
    ensures lawful { IfOk result (λ g. are_lawful g ≡ true) }
    ensures same { work.new ≡ work.old }
{
    match work.sieve.run(alloc, fields, since) {
        Ok(verdict) => verdict_gives(alloc, work.routes.as_slice(), verdict),
        Err(EvalFault::BadValue { at }) => Ok(Given::Fault(sieve_note(alloc, u64::from(at))?)),
        Err(EvalFault::OutOfMemory) => Err(OutOfMemory),
    }
}
