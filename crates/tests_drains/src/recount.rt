//! A plain recount of the generations that a book begins: one ahead of each step where the codes of the generation in force have more
//! than half of the bytes that they may have.

use base_types::BlobList;

/// How far a book is: how many steps were made, the generation in force, and how many bytes the codes of its steps have together.
#[derive(Clone, Copy, Debug, PartialEq, Eq)]
pub struct Place {
    pub steps: u64,
    pub generation: u64,
    pub bytes: u64,
}

/// Whether the next step begins a generation.
pub fn is_due(place: &Place, limit: u16) -> bool {
    place.bytes > u64::from(limit) / 2
}

fn behind_step(place: &Place, limit: u16, code: &[u8]) -> Place {
    let len = code.len() as u64;
    let steps = place.steps.saturating_add(1);
    if is_due(place, limit) {
        Place {
            steps,
            generation: place.generation.saturating_add(1),
            bytes: len,
        }
    } else {
        Place {
            steps,
            generation: place.generation,
            bytes: place.bytes.saturating_add(len),
        }
    }
}

/// Where a book of this limit is behind so many of the steps of these codes.
pub fn place_behind(codes: &BlobList, limit: u16, steps: u64) -> Place {
    let mut place = Place {
        steps: 0,
        generation: 0,
        bytes: 0,
    };
    'steps: for code in codes.as_slice().iter().take(steps as usize) {
        place = behind_step(&place, limit, code.bytes());
    }
    place
}
