//! What a batch hands out, what it gets back, and what a clause sees of who takes pieces.

use std::collections::LinkedList;

/// A piece of work and its number in the batch, from 0.
#[derive(Drop)]
pub struct Piece<T> {
    pub number: u64,
    pub value: T,
}

/// What was made of the piece of this number.
#[derive(Drop)]
pub struct Answer<U> {
    pub number: u64,
    pub value: U,
}

/// What a clause sees of a pass to the deque of a batch: how many of 1,024 parts it has, all pieces of the batch where
/// it has one, and those that it took, in this order. No value of it is made.
pub struct Hand<T> {
    pub parts: u64,
    pub pushed: LinkedList<Piece<T>>,
    pub taken: LinkedList<Piece<T>>,
}
