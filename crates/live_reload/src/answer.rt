//! What a line of control is answered with, and the order that it gives.
ghost use Rattle.std.specs.Prelude.{◌≡◌, ◌≤◌, List, ℕ, true, Some, IfOk, IfSome, IsSome};
ghost use Rattle.bot_rules.specs.Intel.{intel};
ghost use Rattle.edge_traits.specs.Count.{Rose};
ghost use Rattle.edge_traits.specs.Shelf.{count_on, lacks};
ghost use Rattle.live_reload.specs.Answers.{IsAnswerTo, brought_answer};
ghost use Rattle.live_reload.specs.declared.word.Word.TheVariants as word;

use crate::{Control, Order, Word};
use base_types::Blob;
use bundle_bringing::{Unbrought, bring_code};
use edge_traits::Shelf;
use status_texts::fault_number;
use std::alloc::Global;

fn of_brought(brought: Result<Option<Blob>, Unbrought>) -> Option<(Word, Order)>
    ensures { result ≡ brought_answer brought }
{
    match brought {
        Ok(Some(code)) => Some((Word::Reload, Order::Reload(code))),
        Ok(None) => None,
        Err(Unbrought::Absent { name: _ }) => Some((Word::Absent, Order::Nothing)),
        Err(Unbrought::Failed { name: _ }) => Some((Word::Failed, Order::Nothing)),
        Err(Unbrought::Config(fault)) => Some((Word::Config(fault_number(&fault)), Order::Nothing)),
        Err(Unbrought::OutOfMemory) => None,
    }
}

/// What a line that asks for this is answered with, and the order that it gives; nothing where there was no memory.
pub(crate) fn answer<H: Shelf>(
    alloc: Global,
    shelf: &mut H,
    asked: Control,
) -> Option<(Word, Order)>
    ensures answer { IfSome result (λ answer. IsAnswerTo asked (H.shelf shelf.old) answer.0 answer.1) }
    ensures loads { (code : List ℕ) → IfSome result (λ answer. answer.1 ≡ Order.Reload code → IsSome (intel.facts code)) }
    ensures absent { IfSome result (λ answer. answer.0 ≡ Word.Absent → (other : List ℕ) × (lacks (H.shelf shelf.old) other ≡ true)) }
    ensures failed { IfSome result (λ answer. answer.0 ≡ Word.Failed → (other : List ℕ) × Rose (count_on (H.shelf shelf.old) other) (count_on (H.shelf shelf.new) other)) }
    ensures told { (H.shelf shelf.new).told ≡ (H.shelf shelf.old).told }
    ensures counts { (other : List ℕ) → count_on (H.shelf shelf.old) other ≤ count_on (H.shelf shelf.new) other }
{
    match asked {
        Control::Reload(name) => of_brought(bring_code(alloc, shelf, Some(&name))),
        Control::Round => Some((Word::Round, Order::Round)),
        Control::Stop => Some((Word::Stop, Order::Stop)),
        Control::Bad => Some((Word::Bad, Order::Nothing)),
    }
}
