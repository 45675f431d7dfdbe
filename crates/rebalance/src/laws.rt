//! What the definitions say by themselves. These functions compute nothing.

ghost use Rattle.rebalance.specs.Steps.{RuleIsExact};

/// Two lists of steps that follow the rule are the same, so the rule says which steps a plan has.
pub fn every_rule_has_one_plan()
    ensures { RuleIsExact }
{}
