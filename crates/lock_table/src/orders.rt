// All orders of locks.
ghost use Rattle.std.specs.Prelude.{◌≡◌, ◌<◌, [], length, replicate, IfOk};
ghost use Rattle.lock_table.specs.Locks.{Locks};
ghost use Rattle.lock_table.specs.Orders.{AreOwn, cleared};
ghost use Rattle.lock_table.specs.Tables.{AreKept};

use crate::OutOfMemory;
use crate::order::Order;
use std::alloc::Global;

/// How many orders there are: a lock's is that with the number of its table modulo this.
pub(crate) const ORDERS: usize = 16;

/// The orders where no session holds a lock.
pub(crate) fn no_places(alloc: Global) -> Result<Vec<Order>, OutOfMemory>
    ensures { IfOk result (λ orders. AreKept (replicate 17 []) orders.items) }
{
    let mut orders = Vec::with_capacity(alloc, ORDERS)?;
    for _ in 0..ORDERS {
        orders.push_reserved(Order::new(alloc)?);
    }
    Ok(orders)
}

/// Removes the places of a session from all orders.
pub(crate) fn release(orders: &mut [Order], who: u16)
    ensures len { length orders.new ≡ length orders.old }
    ensures kept { (locks : Locks) → AreOwn locks → who < length locks
        → AreKept locks orders.old → AreKept (cleared locks who) orders.new }
{
    for i in 0..orders.len() {
        orders[i].release(who);
    }
}
