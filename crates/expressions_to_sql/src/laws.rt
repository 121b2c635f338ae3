// Laws of translated expressions: over the points of a select's sources, and over groups of one source.
//
// The proofs go by the forms of typed calls (`Form` in proofs/TypedCalls.antt): how many operands an operator has,
// and that they meet it as SQL types it, is shown once, and the laws on kinds, values, typing and forms have a line
// for each form.
//
// Points and groups are one proof: typing and values are said over whatever columns and aggregates may stand
// (`IsTypedOver`, `value_over`), and each law is an instance.
ghost use Rattle.std.specs.Prelude.{◌≡◌, ◌≤◌, suc, List, None, Some};
ghost use Rattle.vtl_cell.specs.Row.{Row};
ghost use Rattle.vtl_decimal.specs.Settings.{Settings};
ghost use Rattle.vtl_tree.specs.CompExp.{CompExp};
ghost use Rattle.vtl_tree.specs.Value as points;
ghost use Rattle.vtl_tree.specs.declared.structure.Component.{Component};
ghost use Rattle.vtl_tree.specs.Depths.{comp_depth};
ghost use Rattle.vtl_tree.specs.Kinds.{exp_kind};
ghost use Rattle.vtl_meaning.specs.Made.{IsTyped, IsTypedInGroups};
ghost use Rattle.sql_tree.specs.Formed.{Formed, exp_depth};
ghost use Rattle.sql_tree.specs.Trees.{Text};
ghost use Rattle.sql_check_laws.specs.Fits.{Fits};
ghost use Rattle.sql_check_parts.specs.Expressions.{site};
ghost use Rattle.sql_check_parts.specs.Kinds.{kind_in};
ghost use Rattle.sql_check_parts.specs.Scopes.{Scope, Tables, grouping_of};
ghost use Rattle.sql_meaning.specs.Tables.{Base};
ghost use Rattle.sql_meaning.specs.Values.{at_groups, at_rows, value};
ghost use Rattle.vtl_meaning.specs.GroupExpressions.{value_at_group};
ghost use Rattle.expressions_to_sql.specs.Held.{HoldsValues};
ghost use Rattle.expressions_to_sql.specs.Names.{AreNamesFormed, Names};
ghost use Rattle.expressions_to_sql.specs.ToSql.{Naming, group_columns, of_source, to_sql};

/// An expression has in SQL the kind that it has in VTL.
pub fn kinds_stay()
    ensures points { (p : Settings) (at : Naming) (scope : Scope) (xs : List Component) → Names at scope xs → (e : CompExp) → IsTyped p xs e
        → kind_in scope (to_sql p at e) ≡ exp_kind e }
    ensures groups { (p : Settings) (alias : Text) (scope : Scope) (names : List Text) (xs : List Component) → Names (of_source alias) scope xs → (e : CompExp) → IsTypedInGroups p names xs e
        → kind_in scope (to_sql p (of_source alias) e) ≡ exp_kind e }
{}

/// An expression has in SQL the value that it has in VTL, faults included: at each row of the sources, whose cells are
/// those of a point, and at each group of such rows.
pub fn values_stay()
    ensures points { (b : Base) (at : Naming) (scope : Scope) (xs : List Component) (r : Row) (g : List Row) → b.settings.scale ≤ 9 → Names at scope xs → (e : CompExp) → IsTyped b.settings xs e → HoldsValues e
        → value (at_rows b scope) (to_sql b.settings at e) r g ≡ points.value b.settings e r }
    ensures groups { (b : Base) (alias : Text) (scope : Scope) (names : List Text) (xs : List Component) (key : Row) (g : List Row) → b.settings.scale ≤ 9 → Names (of_source alias) scope xs → (e : CompExp) → IsTypedInGroups b.settings names xs e → HoldsValues e
        → value (at_groups b scope (group_columns alias names)) (to_sql b.settings (of_source alias) e) key g ≡ value_at_group b.settings names xs e key g }
{}

/// An expression fits in SQL where it stands: it breaks no rule.
pub fn translations_fit()
    ensures points { (p : Settings) (tables : Tables) (at : Naming) (scope : Scope) (xs : List Component) → p.scale ≤ 9 → Names at scope xs → (e : CompExp) → IsTyped p xs e → HoldsValues e
        → Fits (site p tables scope) None (to_sql p at e) }
    ensures groups { (p : Settings) (tables : Tables) (alias : Text) (scope : Scope) (names : List Text) (xs : List Component) → p.scale ≤ 9 → Names (of_source alias) scope xs → (e : CompExp) → IsTypedInGroups p names xs e → HoldsValues e
        → Fits (site p tables scope) (Some (grouping_of (group_columns alias names))) (to_sql p (of_source alias) e) }
{}

/// An expression has in SQL the form that the grammar spells, where names have theirs.
pub fn translations_are_formed()
    ensures points { (p : Settings) (at : Naming) (xs : List Component) → p.scale ≤ 9 → AreNamesFormed at xs → (e : CompExp) → IsTyped p xs e → HoldsValues e
        → Formed (to_sql p at e) }
    ensures groups { (p : Settings) (alias : Text) (names : List Text) (xs : List Component) → p.scale ≤ 9 → AreNamesFormed (of_source alias) xs → (e : CompExp) → IsTypedInGroups p names xs e → HoldsValues e
        → Formed (to_sql p (of_source alias) e) }
{}

/// An expression is in SQL at most one deeper than in VTL.
#[tactic(auto, using(crate::proofs::ExpressionDepths::depth_grows))]
pub fn depths_grow_by_one()
    ensures { (p : Settings) (at : Naming) (e : CompExp) → exp_depth (to_sql p at e) ≤ suc (comp_depth e) }
{}
