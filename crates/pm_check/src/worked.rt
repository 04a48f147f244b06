//! Worked examples of image formats. The functions do nothing; their clauses state the examples.
ghost use Rattle.pm_check.specs.Headed.{WorkedHeaders};
ghost use Rattle.pm_check.specs.Orders.{WorkedOrders};

/// States that an image that is converted twice is unchanged, and that a conversion keeps its length. Also states
/// worked examples of sectors, offsets and bytes.
#[tactic(auto, using(crate::proofs::OrderLaws::worked_orders))]
pub fn worked_forms()
    ensures law { WorkedOrders }
{}

/// States that a volume that is written to a .2mg file can be read back, and that the bytes around its blocks are
/// unchanged. Also states worked examples of headers.
#[tactic(auto, using(crate::proofs::HeadedLaws::worked_headers))]
pub fn worked_headers()
    ensures law { WorkedHeaders }
{}
