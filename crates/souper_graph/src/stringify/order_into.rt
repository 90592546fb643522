//! The printed order of an item in the memory of an earlier one.

ghost use Rattle.std.specs.Prelude.{IfErr, OnOk, OnErr};
ghost use Rattle.souper_graph.specs.PartsView.{view_parts};
ghost use Rattle.souper_graph.specs.Faults.{IsFaultOf};
ghost use Rattle.souper_graph.specs.PrintOrder.{IsPrintOrder, IsEmptyOrder};

use crate::ast::Parts;
use crate::stringify::errors::TextError;
use crate::stringify::order::Order;
use std::alloc::Global;
use std::mem;

impl Order {
    /// An empty order, for [`Item::print_order_into`](crate::ast::Item::print_order_into). It does not allocate.
    pub fn new(alloc: Global) -> Self
        ensures { IsEmptyOrder result.ids.items result.lead result.turns }
    {
        Order {
            ids: Vec::new(alloc),
            lead: 0,
            turns: 0,
        }
    }
}

impl Parts<'_> {
    pub(crate) fn print_order_into(&self, order: &mut Order) -> Result<(), TextError>
        ensures refused { IfErr result (λ error. IsFaultOf (view_parts self.now) error) }
        ensures ordered { OnOk result (IsPrintOrder (view_parts self.now) order.new.ids.items order.new.lead order.new.turns) }
        ensures emptied { OnErr result (IsEmptyOrder order.new.ids.items order.new.lead order.new.turns) }
    {
        let empty = Order::new(self.statements.allocator());
        let mut ids = mem::replace(order, empty).ids;
        ids.clear();
        *order = self.print_order_in(ids)?;
        Ok(())
    }
}
