//! The blocks of a text.
ghost use Rattle.std.specs.Prelude.{◌≡◌, ◌≤◌, length, take, drop, if◌then◌else◌};
ghost use Rattle.std.specs.Iterator.{YieldsFirstBy, item_count};
ghost use Rattle.beetle.specs.Blocks.{blocks, ending};
ghost use Rattle.beetle.specs.Mode.{empty};

use crate::rate::Rate;
use std::marker::PhantomData;

/// The first block of a text, at most the rate's bytes, and the rest.
pub(crate) fn first_block<R: Rate>(text: &[u8]) -> (&[u8], &[u8])
    ensures block { result.0.now ≡ take R.BYTES text.now }
    ensures rest { result.1.now ≡ drop R.BYTES text.now }
{
    text.split_at(R::BYTES.min(text.len()))
}

/// A block: at most the rate's bytes.
#[derive(Drop)]
pub(crate) struct Block<'a, R: Rate> {
    pub(crate) bytes: &'a [u8],
    rate: PhantomData<R>,
    ghost within: { length bytes.now ≤ R.BYTES },
}

impl<'a, R: Rate> Block<'a, R> {
    pub(crate) fn new(bytes: &'a [u8]) -> Self
        requires { length bytes.now ≤ R.BYTES }
        ensures { result.bytes.now ≡ bytes.now }
    {
        Block {
            bytes,
            rate: PhantomData,
        }
    }
}

/// The blocks of a text in order, of which the last may be shorter.
#[derive(Drop)]
pub(crate) struct Blocks<'a, R: Rate> {
    rest: &'a [u8],
    rate: PhantomData<R>,
}

impl<'a, R: Rate> Blocks<'a, R> {
    pub(crate) fn new(text: &'a [u8]) -> Self
        ensures { result.rest.now ≡ text.now }
    {
        Blocks {
            rest: text,
            rate: PhantomData,
        }
    }
}

impl<'a, R: Rate> Iterator for Blocks<'a, R> {
    type Item = Block<'a, R>;

    ghost next_gives = { YieldsFirstBy (λ block. block.bytes.now) (λ it. blocks R.BYTES it.rest.now) };

    ghost remaining = { item_count (λ it. blocks R.BYTES it.rest.now) };

    #[tactic(auto, using(crate::proofs::Cuts::blocks_none, crate::proofs::Cuts::blocks_more))]
    fn next(&mut self) -> Option<Block<'a, R>> {
        if self.rest.is_empty() {
            return None;
        }
        let (block, rest) = first_block::<R>(self.rest);
        self.rest = rest;
        Some(Block::new(block))
    }
}

/// The constant after a text: `whole` if the rate divides its length, else `cut`.
#[tactic(auto, unfolding(crate::specs::Blocks::ending))]
pub(crate) fn ending_constant<R: Rate>(text: &[u8], whole: u8, cut: u8) -> u8
    ensures { result ≡ ending R.BYTES text.now whole cut }
{
    if text.len() % R::BYTES == 0 {
        whole
    } else {
        cut
    }
}

/// The constant after a text that has another beside it: `alone` are the two where the other is empty.
pub(crate) fn constant_after<R: Rate>(text: &[u8], other: &[u8], alone: (u8, u8)) -> u8
    ensures { result ≡ (if empty other.now then ending R.BYTES text.now alone.0 alone.1 else ending R.BYTES text.now 1 2) }
{
    let (whole, cut) = if other.is_empty() { alone } else { (1, 2) };
    ending_constant::<R>(text, whole, cut)
}
