//! Laws of the definitions. Each is the contract of a function that does nothing.
ghost use Rattle.std.specs.Prelude.{◌≡◌, List, ℕ, Bool, false, Option, None, Ok};
ghost use Rattle.td_plan.specs.Lines.{Line};
ghost use Rattle.td_orders.specs.declared.order.Order.{Order as AnyOrder};
ghost use Rattle.td_orders.specs.Orders.{orders_of};
ghost use Rattle.td_orders.specs.Scripts.{script_of};
ghost use Rattle.td_orders.specs.Placed.{placed};

/// What a stream reads of an input without a fault is what a feed reads of it. Where epochs have no places, what a stream reads is the
/// same at each disk.
pub fn scripts()
    ensures read { (plan : List Line) (input : List ℕ) (orders : List AnyOrder) → orders_of plan input ≡ Ok orders → script_of false false false false None plan input ≡ record { orders = orders; fault = None } }
    ensures anywhere { (hold questions copies : Bool) (limit : Option ℕ) (plan : List Line) (input : List ℕ) (refuse : Bool) (told last : ℕ)
        → placed refuse told last (script_of false hold questions copies limit plan input) ≡ script_of false hold questions copies limit plan input }
{}
