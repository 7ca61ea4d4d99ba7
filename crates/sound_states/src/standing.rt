//! The numbers of the messages in a state.
ghost use Rattle.std.specs.Prelude.{◌≡◌, ◌++◌, map, IfOk, OnOk};
ghost use Rattle.step_code.specs.Places.{standing, waiting_numbers};

use base_types::Msg;
use std::alloc::{AllocError, Global};
use step_code::Base;
use stored_types::{Dump, Hand, Queue};

fn push_messages(numbers: &mut Vec<u64>, messages: &[Msg]) -> Result<(), AllocError>
    ensures { OnOk result (numbers.new.items ≡ numbers.old.items ++ map (λ message. message.no) messages.now) }
{
    'messages: for message in messages {
        numbers.push(message.no)?;
    }
    Ok(())
}

fn push_waiting(numbers: &mut Vec<u64>, queues: &[Queue]) -> Result<(), AllocError>
    ensures { OnOk result (numbers.new.items ≡ numbers.old.items ++ waiting_numbers queues.now) }
{
    'queues: for queue in queues {
        push_messages(numbers, queue.messages.as_slice())?;
    }
    Ok(())
}

fn push_hands(numbers: &mut Vec<u64>, hands: &[Hand]) -> Result<(), AllocError>
    ensures { OnOk result (numbers.new.items ≡ numbers.old.items ++ map (λ h. h.message.no) hands.now) }
{
    'hands: for hand in hands {
        numbers.push(hand.message.no)?;
    }
    Ok(())
}

fn push_dumps(numbers: &mut Vec<u64>, dumps: &[Dump]) -> Result<(), AllocError>
    ensures { OnOk result (numbers.new.items ≡ numbers.old.items ++ map (λ d. d.message.no) dumps.now) }
{
    'dumps: for dump in dumps {
        numbers.push(dump.message.no)?;
    }
    Ok(())
}

/// The numbers of all messages that stand in queues, in hands or in the dumps.
pub fn standing(alloc: Global, base: &Base) -> Result<Vec<u64>, AllocError>
    ensures { IfOk result (λ numbers. numbers.items ≡ standing base.now) }
{
    let mut numbers = Vec::new(alloc);
    push_waiting(&mut numbers, base.queues.as_slice())?;
    push_hands(&mut numbers, base.hands.as_slice())?;
    push_dumps(&mut numbers, base.dumps.as_slice())?;
    Ok(numbers)
}
