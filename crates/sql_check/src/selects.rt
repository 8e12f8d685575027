//! The names and types of selects.

ghost use Rattle.std.specs.Prelude.{◌≡◌, ◌&&◌, ◌||◌, not, is_none, List};
ghost use Rattle.std.specs.List.{list_any};
ghost use Rattle.sql_tree.specs.declared.select.OrderKey.{OrderKey};
ghost use Rattle.sql_tree.specs.declared.select.Output.{Output};
ghost use Rattle.sql_kinds.specs.Expressions.{is_unknown, output_has_unknown, output_kind};
ghost use Rattle.sql_check.specs.Outputs.{answer_columns};
ghost use Rattle.sql_check.specs.Selects.{breaks_groups, is_grouped_by, is_key, is_of_group};
ghost use Rattle.sql_check.specs.Selects.{lacks_kind, list_has_unknown, names_output};
ghost use Rattle.sql_check.specs.Selects.{output_is_of_group, same_place, select_has_unknown};
ghost use Rattle.sql_check.specs.Selects.{select_is_mistyped, where_compares_apart, where_has_unknown};

use crate::outputs::names_column;
use sql_kinds::{compares_apart, has_unknown_operand, is_unknown, output_has_unknown, output_kind};
use sql_tree::{
    ColumnName, Condition, Expression, OrderKey, Output, OutputValue, Scope, Select, SelectList,
};

/// Whether a WHERE has an unknown side.
pub(crate) fn where_has_unknown(
    scope: &Scope<'_>,
    snapshot: Option<u32>,
    condition: &Option<Condition>,
) -> bool
    ensures { result ≡ where_has_unknown scope.now snapshot condition.now }
{
    match condition {
        Some(condition) => has_unknown_operand(scope, snapshot, condition),
        None => false,
    }
}

/// Whether a WHERE compares INT with TEXT.
pub(crate) fn where_compares_apart(scope: &Scope<'_>, condition: &Option<Condition>) -> bool
    ensures { result ≡ where_compares_apart scope.now condition.now }
{
    match condition {
        Some(condition) => compares_apart(scope, condition),
        None => false,
    }
}

fn list_has_unknown(scope: &Scope<'_>, snapshot: Option<u32>, list: &SelectList) -> bool
    ensures { result ≡ list_has_unknown scope.now snapshot list.now }
{
    list.outputs().iter().any(|output| output_has_unknown(scope, snapshot, &output.value))
}

fn names_output(scope: &Scope<'_>, list: &SelectList, name: &ColumnName) -> bool
    ensures { result ≡ names_output (answer_columns scope.now list.now) name.now }
{
    name.table.is_none() && names_column(scope, list, &name.column)
}

// Whether rows can be ordered by what the name stands for.
fn is_key(scope: &Scope<'_>, select: &Select, name: &ColumnName) -> bool
    ensures { result ≡ is_key scope.now select.now (answer_columns scope.now select.now.list) name.now }
{
    let from_one_row = !(select.is_grouped() || select.distinct);
    names_output(scope, &select.list, name) || (from_one_row && !is_unknown(scope, name))
}

fn keys_have_unknown(scope: &Scope<'_>, select: &Select, keys: &[OrderKey]) -> bool
    ensures { result ≡ list_any (λ (key : OrderKey). not (is_key scope.now select.now
        (answer_columns scope.now select.now.list) key.column)) keys.now }
{
    keys.iter().any(|key| !is_key(scope, select, &key.column))
}

fn any_is_unknown(scope: &Scope<'_>, names: &[ColumnName]) -> bool
    ensures { result ≡ list_any (is_unknown scope.now) names.now }
{
    names.iter().any(|name| is_unknown(scope, name))
}

/// Whether the select has an unknown name in its outputs, its WHERE, its GROUP BY or its ORDER BY.
pub(crate) fn select_has_unknown(snapshot: Option<u32>, select: &Select, scope: &Scope<'_>) -> bool
    ensures { result ≡ select_has_unknown snapshot select.now scope.now }
{
    list_has_unknown(scope, snapshot, &select.list)
        || where_has_unknown(scope, snapshot, &select.condition)
        || any_is_unknown(scope, select.group_by.as_slice())
        || keys_have_unknown(scope, select, select.order_by.as_slice())
}

fn same_place(a: Option<usize>, b: Option<usize>) -> bool
    ensures { result ≡ same_place a b }
{
    match (a, b) {
        (Some(a), Some(b)) => a == b,
        _ => false,
    }
}

fn is_grouped_by(scope: &Scope<'_>, columns: &[ColumnName], name: &ColumnName) -> bool
    ensures { result ≡ is_grouped_by scope.now columns.now name.now }
{
    columns.iter().any(|column| same_place(scope.place(column), scope.place(name)))
}

// Whether the expression has one value for each group.
fn is_of_group(scope: &Scope<'_>, columns: &[ColumnName], of: &Expression) -> bool
    ensures { result ≡ is_of_group scope.now columns.now of.now }
{
    match of.column() {
        Some(name) => of.is_constant() || is_grouped_by(scope, columns, name),
        None => of.is_constant(),
    }
}

fn output_is_of_group(scope: &Scope<'_>, columns: &[ColumnName], value: &OutputValue) -> bool
    ensures { result ≡ output_is_of_group scope.now columns.now value.now }
{
    match value {
        OutputValue::Expression(of) => is_of_group(scope, columns, of),
        OutputValue::Aggregate(_) => true,
    }
}

fn any_breaks_groups(scope: &Scope<'_>, columns: &[ColumnName], outputs: &[Output]) -> bool
    ensures { result ≡ list_any (λ (output : Output). not (output_is_of_group scope.now columns.now output.value))
        outputs.now }
{
    outputs.iter().any(|output| !output_is_of_group(scope, columns, &output.value))
}

// Whether an output has more than one value for a group, as `*` has.
fn breaks_groups(scope: &Scope<'_>, columns: &[ColumnName], list: &SelectList) -> bool
    ensures { result ≡ breaks_groups scope.now columns.now list.now }
{
    match list {
        SelectList::All => true,
        SelectList::Outputs(outputs) => any_breaks_groups(scope, columns, outputs.as_slice()),
    }
}

fn lacks_kind(scope: &Scope<'_>, list: &SelectList) -> bool
    ensures { result ≡ lacks_kind scope.now list.now }
{
    list.outputs()
        .iter()
        .any(|output| output_kind(scope, &output.value).is_none())
}

/// Whether the select has a wrong type in its outputs or its WHERE, or an output that breaks its groups.
pub(crate) fn select_is_mistyped(select: &Select, scope: &Scope<'_>) -> bool
    ensures { result ≡ select_is_mistyped select.now scope.now }
{
    let in_list = lacks_kind(scope, &select.list);
    let in_where = where_compares_apart(scope, &select.condition);
    let in_groups = select.is_grouped()
        && breaks_groups(scope, select.group_by.as_slice(), &select.list);
    in_list || in_where || in_groups
}
