ghost use Rattle.std.specs.Prelude.{◌≡◌, ℕ, List, Option, IfOk};
ghost use Rattle.wasi_script.specs.Plans.{plan_of, plan_with, read_plan_of, write_plan_of, take_or_fail, take_or_fail_or_flush_fail};
ghost use Rattle.wasi_script.specs.Reads.{Reads, ReadsItems};

use crate::refusal::Refusal;
use std::alloc::Global;
use std::marker::Model;
use wasi_base::{IoKind, OutOfMemory, Plan, SinkPlan};
use wasi_words::{Parts, is, parse_number};

/// What an input's source does at each read: its plan, of at most 1024 items.
#[derive(Drop)]
pub struct ReadPlan {
    items: Box<Vec<Plan>>,
}

impl Model for ReadPlan {
    ghost use Rattle.std.specs.Prelude.{List};
    ghost use Rattle.wasi_base.specs.declared.source.Plan.{Plan};

    ghost Value = { List Plan };

    ghost view = { λ plan. plan.items.value.items };
}

impl ReadPlan {
    /// The plan of these items. Refused where they are more than 1024.
    pub fn new(alloc: Global, items: Vec<Plan>) -> Result<ReadPlan, Refusal>
        ensures { Reads result (plan_with items.items) }
    {
        let items = Box::new(alloc, short_enough(items)?)?;
        Ok(ReadPlan { items })
    }

    /// The plan's items, in order.
    pub fn to_vec(&self, alloc: Global) -> Result<Vec<Plan>, OutOfMemory>
        ensures { IfOk result (λ items. items.items ≡ self.now) }
    {
        let items = Vec::from_slice(alloc, self.items.as_slice())?;
        Ok(items)
    }

    /// The plan that a text stands for.
    pub(crate) fn read(alloc: Global, text: &[u8]) -> Result<ReadPlan, Refusal>
        ensures { Reads result (read_plan_of text.now) }
    {
        let items = Box::new(alloc, read_items(alloc, text)?)?;
        Ok(ReadPlan { items })
    }
}

/// What an output's sink does at each write and flush: its plan, of at most 1024 items.
#[derive(Drop)]
pub struct WritePlan {
    items: Box<Vec<SinkPlan>>,
}

impl Model for WritePlan {
    ghost use Rattle.std.specs.Prelude.{List};
    ghost use Rattle.wasi_base.specs.declared.sink.SinkPlan.{SinkPlan};

    ghost Value = { List SinkPlan };

    ghost view = { λ plan. plan.items.value.items };
}

impl WritePlan {
    /// The plan of these items. Refused where they are more than 1024.
    pub fn new(alloc: Global, items: Vec<SinkPlan>) -> Result<WritePlan, Refusal>
        ensures { Reads result (plan_with items.items) }
    {
        let items = Box::new(alloc, short_enough(items)?)?;
        Ok(WritePlan { items })
    }

    /// The plan's items, in order.
    pub fn to_vec(&self, alloc: Global) -> Result<Vec<SinkPlan>, OutOfMemory>
        ensures { IfOk result (λ items. items.items ≡ self.now) }
    {
        let items = Vec::from_slice(alloc, self.items.as_slice())?;
        Ok(items)
    }

    /// The plan that a text stands for.
    pub(crate) fn read(alloc: Global, text: &[u8]) -> Result<WritePlan, Refusal>
        ensures { Reads result (write_plan_of text.now) }
    {
        let items = Box::new(alloc, read_items(alloc, text)?)?;
        Ok(WritePlan { items })
    }
}

// The items, where a plan may have so many.
fn short_enough<T: Drop>(items: Vec<T>) -> Result<Vec<T>, Refusal>
    ensures { ReadsItems result (plan_with items.items) }
{
    if items.len() <= 1024 {
        Ok(items)
    } else {
        Err(Refusal::Invalid)
    }
}

/// An item of a plan, which stands between commas.
trait Item: Sized + Drop {
    /// What a text stands for.
    ghost meaning: { List ℕ → Option Self };

    fn read(text: &[u8]) -> Option<Self>
        ensures { result ≡ meaning text.now };
}

impl Item for Plan {
    ghost meaning = { take_or_fail };

    // `tNUM` or `fKIND`
    fn read(text: &[u8]) -> Option<Plan> {
        match text {
            [b't', count @ ..] => Some(Plan::Take(parse_number(count)?)),
            [b'f', kind @ ..] => Some(Plan::Fail(IoKind::of_name(kind)?)),
            _ => None,
        }
    }
}

impl Item for SinkPlan {
    ghost meaning = { take_or_fail_or_flush_fail };

    // `tNUM`, `fKIND` or `lKIND`
    fn read(text: &[u8]) -> Option<SinkPlan> {
        match text {
            [b't', count @ ..] => Some(SinkPlan::Take(parse_number(count)?)),
            [b'f', kind @ ..] => Some(SinkPlan::Fail(IoKind::of_name(kind)?)),
            [b'l', kind @ ..] => Some(SinkPlan::FlushFail(IoKind::of_name(kind)?)),
            _ => None,
        }
    }
}

// `-` for no items, or up to 1024 of them
fn read_items<T: Item>(alloc: Global, text: &[u8]) -> Result<Vec<T>, Refusal>
    ensures { ReadsItems result (plan_of T.meaning text.now) }
{
    let mut items = Vec::new(alloc);
    if is(text, b"-") {
        return Ok(items);
    }
    for word in Parts::new(text, b',') {
        if items.len() == 1024 {
            return Err(Refusal::Invalid);
        }
        let item = T::read(word).ok_or(Refusal::Invalid)?;
        items.push(item)?;
    }
    Ok(items)
}
