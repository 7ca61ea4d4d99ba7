use std::collections::LinkedList;

/// What a seat knows, as the rule of the lock sees it. No value of it is ever made.
pub struct View<E> {
    /// How many parts the seat has.
    pub parts: u64,
    /// Whether it has the turn.
    pub has_turn: bool,
    /// The list that its last turn left, or that it was given.
    pub seen: LinkedList<E>,
    /// A beginning of that: after a join the shorter of the two lists.
    pub front: LinkedList<E>,
    /// The entries that its turns have added, each with its position.
    pub mine: LinkedList<(u64, E)>,
    /// The list as its turn found it, and leaves it once the count is raised.
    pub list: LinkedList<E>,
}
