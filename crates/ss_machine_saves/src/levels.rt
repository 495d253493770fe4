// Objects that aren't at their full level.
ghost use Rattle.std.specs.Prelude.{OnOk};
ghost use Rattle.ss_machine_saves.specs.Whole.{IsListedObject, AreListed, HasMoreListed};

use ss_store::Store;
use ss_store_rules::Value;
use std::alloc::AllocError;

/// The object to which the value refers, if any, may get another level. An error is want of memory.
pub fn list(unfull: &mut Vec<u32>, object: Value) -> Result<(), AllocError>
    ensures more { HasMoreListed unfull.old.items unfull.new.items }
    ensures listed { OnOk result (IsListedObject object unfull.new.items) }
{
    match object {
        Value::Obj(o) => {
            unfull.push(o)?;
            Ok(())
        }
        _ => Ok(()),
    }
}

/// Takes the last position from the list, where its object is at its full level.
fn drop_full(unfull: &mut Vec<u32>, store: &Store) -> bool
    ensures { AreListed store.now.objects unfull.old.items → AreListed store.now.objects unfull.new.items }
{
    let Some(o) = unfull.last().copied() else {
        return false;
    };
    if !store.is_full(o) {
        return false;
    }
    let _ = unfull.pop();
    true
}

/// Takes the last positions from the list, as long as their objects are at their full level.
pub fn drop_all_full(unfull: &mut Vec<u32>, store: &Store)
    ensures { AreListed store.now.objects unfull.old.items → AreListed store.now.objects unfull.new.items }
{
    for _i in 0..unfull.len() {
        if !drop_full(unfull, store) {
            return;
        }
    }
}
