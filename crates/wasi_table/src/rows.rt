ghost use Rattle.std.specs.Prelude.{◌≡◌, ℕ, ◌+◌, ◌-◌, ◌<◌, ◌^◌, Some, None, OnOk, OnErr};
ghost use Rattle.std.specs.Map.{keys_of};
ghost use Rattle.std.specs.List.Sorted.{IsStrictlySortedBy};
ghost use Rattle.std.specs.Ordering.{nat_cmp};
ghost use Rattle.wasi_table.specs.Rows.{row_at, named, children_in, IsCounted, IsRecount, CanAdd, IsAdded};

use std::alloc::AllocError;
use std::collections::BTreeMap;

/// What stands at a live number.
#[derive(Drop)]
pub(crate) struct Row<K> {
    pub(crate) entry: K,
    pub(crate) parent: Option<u32>,
    /// How many live entries have this one as parent.
    pub(crate) children: u32,
}

/// One child more for the parent.
pub(crate) fn adopt<K>(rows: &mut BTreeMap<u32, Row<K>>, parent: Option<u32>)
    requires ordered { IsStrictlySortedBy nat_cmp (keys_of rows.old.entries) }
    requires small { (n : ℕ) → children_in (row_at rows.old.entries n) + 1 < 2 ^ 32 }
    ensures { IsRecount (λ count. count + 1) parent rows.old.entries rows.new.entries }
{
    let Some(parent) = parent else { return };
    let Some(row) = rows.get_mut(&parent) else {
        return
    };
    row.children += 1;
}

/// One child less.
pub(crate) fn release<K>(rows: &mut BTreeMap<u32, Row<K>>, parent: Option<u32>)
    requires ordered { IsStrictlySortedBy nat_cmp (keys_of rows.old.entries) }
    requires counted { IsCounted parent rows.old.entries }
    ensures { IsRecount (λ count. count - 1) parent rows.old.entries rows.new.entries }
{
    let Some(parent) = parent else { return };
    let Some(row) = rows.get_mut(&parent) else {
        return
    };
    row.children -= 1;
}

/// Puts the entry at a number that has none. A parent is live.
pub(crate) fn add<K: Drop>(
    rows: &mut BTreeMap<u32, Row<K>>,
    number: u32,
    entry: K,
    parent: Option<u32>,
) -> Result<(), AllocError>
    requires { CanAdd number parent rows.old.entries }
    ensures ok { OnOk result (IsAdded number entry parent rows.old.entries rows.new.entries) }
    ensures err { OnErr result (rows.new.entries ≡ rows.old.entries) }
{
    let row = Row {
        entry,
        parent,
        children: 0,
    };
    rows.insert(number, row)?;
    adopt(rows, parent);
    Ok(())
}
