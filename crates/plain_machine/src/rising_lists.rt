//! Rising lists of numbers.
ghost use Rattle.std.specs.Prelude.{◌≡◌, OnOk, OnErr};
ghost use Rattle.its_types.specs.Lpis as lpis;

use std::alloc::AllocError;

/// Adds a number to a rising list.
pub fn add_rising(list: &mut Vec<u32>, number: u32) -> Result<(), AllocError>
    ensures ok { OnOk result (list.new.items ≡ lpis.with_lpi number list.old.items) }
    ensures err { OnErr result (list.new.items ≡ list.old.items) }
{
    for at in 0..list.len() {
        if list[at] == number {
            return Ok(());
        }
        if list[at] > number {
            list.insert(at, number)?;
            return Ok(());
        }
    }
    list.push(number)?;
    Ok(())
}

/// Adds numbers to a rising list. Out of memory, nothing is said of the list.
#[tactic(auto, using(crate::proofs::Pending::with_lpis_push))]
pub fn add_all_rising(list: &mut Vec<u32>, mut numbers: Vec<u32>) -> Result<(), AllocError>
    ensures { OnOk result (list.new.items ≡ lpis.with_lpis numbers.items list.old.items) }
{
    while let Some(number) = numbers.pop() {
        add_rising(list, number)?;
    }
    Ok(())
}

/// Removes a number from a list, if it is there.
pub fn remove_number(list: &mut Vec<u32>, number: u32)
    ensures { list.new.items ≡ lpis.without_lpi number list.old.items }
{
    list.retain(|x| *x != number);
}
