//! Laws about the grammars of labels and of acceptance conditions.

ghost use Rattle.ps_hoa.specs.Grammar.Labels as labels;
ghost use Rattle.ps_hoa.specs.Grammar.Conditions as conditions;
ghost use Rattle.ps_text.specs.Answers.{HasOneMeaning};
ghost use Rattle.ps_hoa.specs.Grammar.Labels.{ScopeData};
ghost use Rattle.ps_hoa.specs.Grammar.Conditions.{Condition};
ghost use Rattle.ps_hoa.specs.Grammar.Nesting.{IsCondition, IsLabel, Within};
ghost use Rattle.ps_hoa.specs.Tokens.{Sign};
ghost use Rattle.ps_label.specs.Expression.{Expression};
ghost use Rattle.std.specs.Prelude.{ℕ, List, ◌↔◌};

/// A list of tokens parses as at most one label, and as at most one acceptance condition.
pub fn one_expression()
    ensures labels { (scope : ScopeData) (room : ℕ) → HasOneMeaning (labels.label scope room).IsText }
    ensures conditions { (room : ℕ) → HasOneMeaning (conditions.condition room).IsText }
{}

/// A grammar that limits the nesting of `!` and `(` gives the same labels and conditions as the one without a limit, as
/// far as the nesting is within it.
pub fn bounded_nesting()
    ensures labels { (scope : ScopeData) (room : ℕ) (text : List Sign) (v : Expression) →
        (labels.label scope room).IsText text v ↔ Within room (IsLabel scope.names) text v }
    ensures conditions { (room : ℕ) (text : List Sign) (v : Condition) →
        (conditions.condition room).IsText text v ↔ Within room IsCondition text v }
{}
