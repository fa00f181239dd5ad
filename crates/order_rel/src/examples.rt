//! A law that says what the definitions give for logs that a reader can follow.
ghost use Rattle.order_rel.specs.Examples.{OrderExamples};

/// A law: logs, places and the order between events, worked out.
pub fn the_orders_work_out()
    ensures { OrderExamples }
{}
