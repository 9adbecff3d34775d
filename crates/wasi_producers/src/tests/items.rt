use crate::{FallibleIteratorProducer, StreamResult};
use std::alloc::Global;
use std::process::Abort;
use std::test::Fail;
use std::vec::IntoIter;
use wasi_base::OutOfMemory;

type Numbers = FallibleIteratorProducer<IntoIter<Result<u64, u8>>, u8>;

// 0, 1, .. up to so many, and then an error, if one is given
fn numbers(alloc: Global, count: u64, error: Option<u8>) -> Result<Numbers, OutOfMemory> {
    let mut items = Vec::new(alloc);
    for number in 0..count {
        items.push(Ok(number))?;
    }
    if let Some(error) = error {
        items.push(Err(error))?;
    }
    Ok(FallibleIteratorProducer::new(items.into_iter()))
}

fn gives(
    rt: &impl Abort,
    alloc: Global,
    producer: &mut Numbers,
    room: Option<u64>,
    want: StreamResult,
    count: usize,
) {
    match producer.poll_produce(alloc, room) {
        Ok((answer, items)) => {
            assert_eq!(rt; answer, want);
            assert_eq!(rt; items.len(), count);
        }
        Err(_) => assert!(rt; false),
    }
}

#[test]
fn items_come_by_32_where_the_room_is_unknown(rt: HostRuntime) -> Result<(), Fail> {
    let alloc = rt.alloc();
    let mut producer = numbers(alloc, 0, None)?;
    gives(&rt, alloc, &mut producer, None, StreamResult::Dropped, 0);
    assert!(&rt; producer.result() == Some(&Ok(())));
    let mut producer = numbers(alloc, 1, None)?;
    gives(&rt, alloc, &mut producer, None, StreamResult::Dropped, 1);
    let mut producer = numbers(alloc, 32, None)?;
    gives(&rt, alloc, &mut producer, None, StreamResult::Completed, 32);
    assert!(&rt; producer.result().is_none());
    gives(&rt, alloc, &mut producer, None, StreamResult::Dropped, 0);
    let mut producer = numbers(alloc, 33, None)?;
    gives(&rt, alloc, &mut producer, None, StreamResult::Completed, 32);
    gives(&rt, alloc, &mut producer, None, StreamResult::Dropped, 1);
    gives(&rt, alloc, &mut producer, None, StreamResult::Dropped, 0);
    gives(&rt, alloc, &mut producer, Some(0), StreamResult::Dropped, 0);
    Ok(())
}

#[test]
fn items_come_by_the_room(rt: HostRuntime) -> Result<(), Fail> {
    let alloc = rt.alloc();
    let mut producer = numbers(alloc, 65540, None)?;
    gives(
        &rt,
        alloc,
        &mut producer,
        Some(0),
        StreamResult::Completed,
        0,
    );
    gives(
        &rt,
        alloc,
        &mut producer,
        Some(2),
        StreamResult::Completed,
        2,
    );
    gives(
        &rt,
        alloc,
        &mut producer,
        Some(u64::MAX),
        StreamResult::Completed,
        65536,
    );
    gives(
        &rt,
        alloc,
        &mut producer,
        Some(65536),
        StreamResult::Dropped,
        2,
    );
    assert!(&rt; producer.result() == Some(&Ok(())));
    Ok(())
}

#[test]
fn an_error_is_no_item(rt: HostRuntime) -> Result<(), Fail> {
    let alloc = rt.alloc();
    let mut producer = numbers(alloc, 3, Some(7))?;
    gives(
        &rt,
        alloc,
        &mut producer,
        Some(3),
        StreamResult::Completed,
        3,
    );
    gives(&rt, alloc, &mut producer, Some(3), StreamResult::Dropped, 0);
    assert!(&rt; producer.result() == Some(&Err(7)));
    let mut producer = numbers(alloc, 3, Some(7))?;
    match producer.poll_produce(alloc, None) {
        Ok((answer, items)) => {
            assert_eq!(&rt; answer, StreamResult::Dropped);
            assert!(&rt; items.as_slice() == [0, 1, 2].as_slice());
        }
        Err(_) => assert!(&rt; false),
    }
    producer.close();
    assert!(&rt; producer.result() == Some(&Err(7)));
    Ok(())
}

#[test]
fn items_stop_with_the_close(rt: HostRuntime) -> Result<(), Fail> {
    let alloc = rt.alloc();
    let mut producer = numbers(alloc, 3, Some(7))?;
    gives(
        &rt,
        alloc,
        &mut producer,
        Some(1),
        StreamResult::Completed,
        1,
    );
    producer.close();
    assert!(&rt; producer.result() == Some(&Ok(())));
    gives(&rt, alloc, &mut producer, Some(1), StreamResult::Dropped, 0);
    Ok(())
}
