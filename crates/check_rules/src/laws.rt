// Laws of orders.
ghost use Rattle.std.specs.Prelude.{◌≡◌, ℕ, List, None, Some};
ghost use Rattle.vtl_syntax.specs.declared.statements.HierRule.{HierRule};
ghost use Rattle.check_rules.specs.InOrder.{IsOrder};
ghost use Rattle.check_rules.specs.Order.{DependsOn, order_of};

/// Rules have an order exactly where no item depends on itself.
pub fn items_without_order_depend_on_themselves()
    ensures stuck { (rules : List HierRule) → order_of rules ≡ None → (item : List ℕ) × DependsOn rules item item }
    ensures circular { (rules : List HierRule) (item : List ℕ) → DependsOn rules item item → order_of rules ≡ None }
{}

/// An order has each `=` rule once, behind all that compute one of its right items.
pub fn orders_have_each_rule_in_turn()
    ensures { (rules : List HierRule) (order : List ℕ) → order_of rules ≡ Some order → IsOrder rules order }
{}
