use crate::{Kinded, ResourceTable, TableError};
use std::alloc::Global;
use std::test::Fail;
use wasi_base::{TrapText, Trapped};

const READER: u32 = 0;

const POLLABLE: u32 = 1;

#[derive(Debug, PartialEq, Drop)]
struct Entry {
    kind: u32,
}

impl Kinded for Entry {
    ghost kind_number = { λ entry. entry.kind };

    fn kind(&self) -> u32 {
        self.kind
    }
}

#[test]
fn numbers_are_given_again(rt: HostRuntime) -> Result<(), Fail> {
    let mut table = ResourceTable::new(rt.alloc(), 65536);
    let first = table.push(Entry { kind: READER })?;
    let second = table.push(Entry { kind: READER })?;
    assert_eq!(rt; (first, second), (0, 1));
    table.delete(0, READER)?;
    table.delete(1, READER)?;
    let first = table.push(Entry { kind: READER })?;
    let second = table.push(Entry { kind: READER })?;
    let third = table.push(Entry { kind: READER })?;
    assert_eq!(rt; (first, second, third), (1, 0, 2));
    table.clear();
    assert_eq!(rt; table.push(Entry { kind: READER })?, 0);
    assert_eq!(rt; table.len(), 1);
    Ok(())
}

#[test]
fn a_parent_waits_for_its_child(rt: HostRuntime) -> Result<(), Fail> {
    let mut table = ResourceTable::new(rt.alloc(), 2);
    table.push(Entry { kind: READER })?;
    assert_eq!(rt; table.push_child(Entry { kind: POLLABLE }, 0)?, 1);
    assert_eq!(rt; table.push(Entry { kind: READER }), Err(TableError::Full));
    assert_eq!(rt; table.delete(0, READER), Err(TableError::HasChildren));
    assert_eq!(rt; table.delete(1, POLLABLE)?, Entry { kind: POLLABLE });
    assert_eq!(rt; table.delete(0, READER)?, Entry { kind: READER });
    Ok(())
}

#[test]
fn entries_are_found_by_number_and_kind(rt: HostRuntime) -> Result<(), Fail> {
    let mut table = ResourceTable::new(rt.alloc(), 2);
    table.push(Entry { kind: READER })?;
    assert_eq!(rt; table.get(0, READER)?.kind(), READER);
    *table.get_mut(0, READER)? = Entry { kind: POLLABLE };
    assert_eq!(rt; table.kind_of(0)?, POLLABLE);
    assert!(rt; table.get(0, READER) == Err(TableError::WrongType));
    assert!(rt; table.get(9, READER) == Err(TableError::NotPresent));
    assert_eq!(rt; table.first_from(0), Some(0));
    Ok(())
}

fn filled(alloc: Global) -> Result<ResourceTable<Entry>, TableError> {
    let mut table = ResourceTable::new(alloc, 65536);
    for _ in 0..65536u32 {
        table.push(Entry { kind: READER })?;
    }
    Ok(table)
}

/// Drops all entries in ascending order, and says how many they were.
fn emptied(table: &mut ResourceTable<Entry>) -> u32 {
    let mut number = 0;
    for count in 0..65537u32 {
        match table.first_from(number) {
            Some(live) => number = live,
            None => return count,
        }
        if table.delete(number, READER).is_err() {
            return count;
        }
    }
    65537
}

#[test]
fn a_full_table_is_emptied_in_ascending_order(rt: HostRuntime) -> Result<(), Fail> {
    let mut table = filled(rt.alloc())?;
    assert_eq!(rt; table.push(Entry { kind: READER }), Err(TableError::Full));
    assert_eq!(rt; emptied(&mut table), 65536);
    assert_eq!(rt; table.len(), 0);
    Ok(())
}

#[test]
fn a_full_table_is_emptied_in_another_order(rt: HostRuntime) -> Result<(), Fail> {
    let mut table = filled(rt.alloc())?;
    for number in 0..32768u32 {
        table.delete(2 * number + 1, READER)?;
    }
    assert_eq!(rt; emptied(&mut table), 32768);
    for number in (0..32768u32).rev() {
        assert_eq!(rt; table.push(Entry { kind: READER })?, 2 * number);
    }
    assert_eq!(rt; table.push(Entry { kind: READER })?, 65535);
    Ok(())
}

#[test]
fn refusals_are_told(rt: HostRuntime) -> Result<(), Fail> {
    let texts = [
        (TableError::NotPresent, "resource not present"),
        (TableError::WrongType, "resource has another type"),
        (TableError::HasChildren, "resource has children"),
        (TableError::Full, "resource table is full"),
        (TableError::OutOfMemory, "out of memory"),
    ];
    for (error, text) in texts {
        assert_eq!(rt; format!(in rt.alloc(); "{error}")?.as_str(), text);
    }
    let trap = Trapped::Trap(TrapText::ResourceTableFull);
    assert_eq!(rt; Trapped::from(TableError::Full), trap);
    Ok(())
}
