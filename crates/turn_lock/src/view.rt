use std::collections::LinkedList;

/// What a seat of the lock does, by its ticket. No value of it is made.
pub enum Stage {
    Resting,
    Waiting(u64),
    Called(u64),
    Note,
    Spent,
}

/// A number that was given out, with what its pass has seen and its entries. No value of it is made.
pub struct Part<N> {
    pub number: u32,
    pub width: u64,
    pub seen: LinkedList<(u32, N)>,
    pub mine: LinkedList<(u32, N)>,
}

/// What a seat of the lock knows. No value of it is made.
pub struct View<N> {
    pub number: u32,
    pub width: u64,
    pub seen: LinkedList<(u32, N)>,
    pub mine: LinkedList<(u32, N)>,
    pub made: u32,
    pub stage: Stage,
    pub heard: LinkedList<LinkedList<(u32, N)>>,
    pub joined: LinkedList<Part<N>>,
}
