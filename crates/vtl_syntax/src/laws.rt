// Laws of the trees of scripts.
ghost use Rattle.std.specs.Prelude.{◌≤◌, ◌<◌, List};
ghost use Rattle.vtl_syntax.specs.Depth.{exp_depth, hier_rule_depth};
ghost use Rattle.vtl_syntax.specs.Trees.{Exp, brackets};
ghost use Rattle.vtl_syntax.specs.declared.statements.HierRule.{HierRule};

/// An expression has a depth; brackets make it deeper, and so do the comparison and the sign of a rule.
pub fn trees_have_a_depth()
    ensures some { (e : Exp) → 1 ≤ exp_depth e }
    ensures brackets { (e : Exp) → exp_depth e < exp_depth (brackets e) }
    ensures rules { (r : HierRule) → 2 ≤ hier_rule_depth r }
{}
