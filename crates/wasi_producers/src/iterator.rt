ghost use Rattle.std.specs.Prelude.{◌≡◌, ◌<◌, ◌≤◌, [], length, vec_capacity, IfOk, OnErr, IfNone, IfSome, option_map};
ghost use Rattle.wasi_producers.specs.Iterators.{most_items, ItemComes, ItemsCome, last_answer, ItemsEnd, ItemsPolled, MayPoll, items_closed, result_sent};
ghost use Rattle.wasi_producers.specs.declared.iterator.FallibleIteratorProducer.TheVariants.{Open, Ended};

use crate::results::StreamResult;
use std::alloc::Global;
use wasi_base::OutOfMemory;

/// The number of items that a poll of unknown room hands out at most.
const USUAL_ITEMS: usize = 32;

/// The greatest number of items that one poll hands out.
const MOST_ITEMS: u64 = 65536;

/// An iterator that may fail as a stream of items that a guest takes. The stream ends with the
/// iterator, or with its first error.
#[derive(Drop)]
pub enum FallibleIteratorProducer<I: Drop, E: Drop> {
    Open(I),
    /// The stream ended, with the one result that is sent.
    Ended(Result<(), E>),
}

fn most_items(room: Option<u64>) -> usize
    ensures { result ≡ most_items room }
{
    match room {
        Some(room) => room.min(MOST_ITEMS) as usize,
        None => USUAL_ITEMS,
    }
}

// takes one item; the end or an error is the answer
fn take_item<T: Drop, E: Drop, I: Iterator<Item = Result<T, E>>>(
    source: &mut I,
    items: &mut Vec<T>,
) -> Option<Result<(), E>>
    requires can { I.can_next source.old }
    requires room { length items.old.items < vec_capacity items.old }
    ensures goes_on { IfNone result (ItemComes I.next_gives source.old items.old.items items.new.items source.new) }
    ensures can { IfNone result (I.can_next source.new) }
    ensures room { IfNone result (vec_capacity items.old ≤ vec_capacity items.new) }
    ensures ends { IfSome result (λ sent. I.next_gives source.old (last_answer sent) source.new × (items.new.items ≡ items.old.items)) }
{
    match source.next() {
        Some(Ok(item)) => match items.push(item) {
            Ok(()) => None,
            Err(_) => unreachable!(),
        },
        Some(Err(error)) => Some(Err(error)),
        None => Some(Ok(())),
    }
}

// takes items until there are so many, or to the end or an error, which is the answer
fn take_items<T: Drop, E: Drop, I: Iterator<Item = Result<T, E>>>(
    source: &mut I,
    items: &mut Vec<T>,
    most: usize,
) -> Option<Result<(), E>>
    requires can { I.can_next source.old }
    requires empty { items.old.items ≡ [] }
    requires room { most ≤ vec_capacity items.old }
    ensures goes_on { IfNone result (ItemsCome I.next_gives source.old items.new.items source.new × (length items.new.items ≡ most)) }
    ensures can { IfNone result (I.can_next source.new) }
    ensures ends { IfSome result (λ sent. ItemsEnd I.next_gives source.old items.new.items sent × (length items.new.items < most)) }
{
    for _ in 0..most {
        if let Some(sent) = take_item(source, items) {
            return Some(sent);
        }
    }
    None
}

impl<T: Drop, E: Drop, I: Iterator<Item = Result<T, E>>> FallibleIteratorProducer<I, E> {
    pub fn new(iter: I) -> FallibleIteratorProducer<I, E>
        ensures { result ≡ Open iter }
    {
        FallibleIteratorProducer::Open(iter)
    }

    /// One poll. It hands out as many items as the guest has room for, 65536 at most, and 32 where
    /// the room is not known; or those before the iterator's end or first error, with which the
    /// stream ends. A stream that ended hands out nothing. Memory is taken before the first item,
    /// and out of memory leaves the stream as it was.
    pub fn poll_produce(
        &mut self,
        alloc: Global,
        room: Option<u64>,
    ) -> Result<(StreamResult, Vec<T>), OutOfMemory>
        requires { MayPoll I.can_next self.old }
        ensures polled { IfOk result (λ p. ItemsPolled I.next_gives self.old (most_items room) p.0 p.1.items self.new) }
        ensures goes_on { MayPoll I.can_next self.new }
        ensures memory { OnErr result (self.new ≡ self.old) }
    {
        let iter = match self {
            FallibleIteratorProducer::Open(iter) => iter,
            FallibleIteratorProducer::Ended(_) => {
                return Ok((StreamResult::Dropped, Vec::new(alloc)));
            }
        };
        let most = most_items(room);
        let mut items = Vec::with_capacity(alloc, most)?;
        match take_items(iter, &mut items, most) {
            None => Ok((StreamResult::Completed, items)),
            Some(sent) => {
                *self = FallibleIteratorProducer::Ended(sent);
                Ok((StreamResult::Dropped, items))
            }
        }
    }

    /// Ends the stream, with Ok where no result was sent.
    pub fn close(&mut self)
        ensures { self.new ≡ items_closed self.old }
    {
        match self {
            FallibleIteratorProducer::Open(_) => *self = FallibleIteratorProducer::Ended(Ok(())),
            FallibleIteratorProducer::Ended(_) => {}
        }
    }

    /// The result that was sent; none while the stream is open.
    pub fn result(&self) -> Option<&Result<(), E>>
        ensures { option_map (λ sent. sent.now) result ≡ result_sent self.now }
    {
        match self {
            FallibleIteratorProducer::Open(_) => None,
            FallibleIteratorProducer::Ended(sent) => Some(sent),
        }
    }
}
