//! What the actions of a select put together of the last parts.

ghost use Rattle.std.specs.Prelude.{◌≡◌, ◌∷◌, IfOk, IsTrue, MatchBool, None, Some};
ghost use Rattle.sql_build.specs.Parts.{Makes, output, plain_query, query, select_list, table};
ghost use Rattle.sql_parts.specs.declared.action.ListAction.TheVariants as list_action;
ghost use Rattle.sql_parts.specs.declared.action.QueryAction.TheVariants as query_action;
ghost use Rattle.sql_parts.specs.declared.part.Part.TheVariants as part;
ghost use Rattle.sql_tree.specs.declared.select.OutputValue.TheVariants as output_value;

use crate::pieces::{one, plain, said};
use sql_parts::{Apart, AsOf, ListAction, OutputAction, Parsed, Part, Parts, QueryAction};
use sql_tree::{
    Aggregate, Direction, OrderKey, Output, OutputValue, Select, SelectList, Statement,
};
use std::alloc::{AllocError, Global};
use values::{Name, Seq, Value};

/// Puts the outputs of a select above the other parts; false where the last are not those that the action wants.
pub fn output(action: OutputAction, parts: &mut Parts) -> Result<bool, AllocError>
    ensures { IfOk result (λ done. MatchBool done
        (output action parts.old ≡ Some parts.new)
        (output action parts.old ≡ None)) }
{
    match action {
        OutputAction::Value => match parts.expression() {
            Some(value) => put_value(OutputValue::Expression(value), parts),
            None => Ok(false),
        },
        OutputAction::CountRows => put_aggregate(Aggregate::CountRows, parts),
        OutputAction::Count => match parts.expression() {
            Some(of) => put_aggregate(Aggregate::Count(of), parts),
            None => Ok(false),
        },
        OutputAction::Sum => match parts.expression() {
            Some(of) => put_aggregate(Aggregate::Sum(of), parts),
            None => Ok(false),
        },
        OutputAction::Min => match parts.expression() {
            Some(of) => put_aggregate(Aggregate::Min(of), parts),
            None => Ok(false),
        },
        OutputAction::Max => match parts.expression() {
            Some(of) => put_aggregate(Aggregate::Max(of), parts),
            None => Ok(false),
        },
        OutputAction::Named => match (parts.name(), parts.output_value()) {
            (Some(name), Some(value)) => put_output(value, Some(name), parts),
            (_name, _value) => Ok(false),
        },
        OutputAction::Unnamed => match parts.output_value() {
            Some(value) => put_output(value, None, parts),
            None => Ok(false),
        },
    }
}

fn put_aggregate(aggregate: Aggregate, parts: &mut Parts) -> Result<bool, AllocError>
    ensures { IfOk result (λ done. IsTrue done
        × (parts.new ≡ part.OutputValue (output_value.Aggregate aggregate) ∷ parts.old)) }
{
    put_value(OutputValue::Aggregate(aggregate), parts)
}

fn put_value(value: OutputValue, parts: &mut Parts) -> Result<bool, AllocError>
    ensures { IfOk result (λ done. IsTrue done × (parts.new ≡ part.OutputValue value ∷ parts.old)) }
{
    parts.push(Part::OutputValue(value))?;
    Ok(true)
}

fn put_output(value: OutputValue, name: Option<Name>, parts: &mut Parts) -> Result<bool, AllocError>
    ensures { IfOk result (λ done. IsTrue done
        × (parts.new ≡ part.Output (record { value = value; name = name }) ∷ parts.old)) }
{
    parts.push(Part::Output(Output { value, name }))?;
    Ok(true)
}

/// The list of a select, and its first table.
pub fn select_list(
    alloc: Global,
    action: ListAction,
    parts: &mut Parts,
) -> Result<Option<Part>, AllocError>
    ensures { IfOk result (λ part. Makes part parts.new (select_list action parts.old)) }
{
    match action {
        ListAction::All => match parts.name() {
            Some(table) => query_of(alloc, SelectList::All, table),
            None => Ok(None),
        },
        ListAction::First => match parts.output() {
            Some(output) => Ok(Some(Part::Outputs(one(alloc, output)?))),
            None => Ok(None),
        },
        ListAction::Next => next_output(parts),
        ListAction::From => from(alloc, parts),
    }
}

fn next_output(parts: &mut Parts) -> Result<Option<Part>, AllocError>
    ensures { IfOk result (λ part. Makes part parts.new (select_list list_action.Next parts.old)) }
{
    match (parts.output(), parts.outputs()) {
        (Some(output), Some(mut outputs)) => {
            outputs.push(output)?;
            Ok(Some(Part::Outputs(outputs)))
        }
        (_output, _outputs) => Ok(None),
    }
}

fn from(alloc: Global, parts: &mut Parts) -> Result<Option<Part>, AllocError>
    ensures { IfOk result (λ part. Makes part parts.new (select_list list_action.From parts.old)) }
{
    match (parts.name(), parts.outputs()) {
        (Some(table), Some(outputs)) => query_of(alloc, SelectList::Outputs(outputs), table),
        (_table, _outputs) => Ok(None),
    }
}

// A select without the parts that may be left out.
fn query_of(alloc: Global, list: SelectList, table: Name) -> Result<Option<Part>, AllocError>
    ensures { IfOk result (λ made. made ≡ Some (part.Query (plain_query list table))) }
{
    asked(
        alloc,
        Select {
            distinct: false,
            list,
            table,
            second: None,
            condition: None,
            group_by: Seq::new(alloc),
            order_by: Seq::new(alloc),
            limit: None,
        },
    )
}

// A query as a part.
fn asked(alloc: Global, query: Select) -> Result<Option<Part>, AllocError>
    ensures { IfOk result (λ made. made ≡ Some (part.Query query)) }
{
    Ok(Some(Part::Query(Apart::new(alloc, query)?)))
}

/// The other parts of a select.
pub fn query(
    alloc: Global,
    action: QueryAction,
    parts: &mut Parts,
) -> Result<Option<Part>, AllocError>
    ensures { IfOk result (λ part. Makes part parts.new (query action parts.old)) }
{
    match action {
        QueryAction::Distinct => distinct(alloc, parts),
        QueryAction::Second => second(alloc, parts),
        QueryAction::Filter => filter(alloc, parts),
        QueryAction::GroupBy => group_by(alloc, parts),
        QueryAction::OrderBy(direction) => order_by(alloc, direction, parts),
        QueryAction::Limit => limit(alloc, parts),
        QueryAction::Finish => match parts.query() {
            Some(query) => plain(alloc, Statement::Select(query)),
            None => Ok(None),
        },
        QueryAction::AsOf => as_of(alloc, parts),
    }
}

fn distinct(alloc: Global, parts: &mut Parts) -> Result<Option<Part>, AllocError>
    ensures { IfOk result (λ part. Makes part parts.new (query query_action.Distinct parts.old)) }
{
    match parts.query() {
        Some(mut query) => {
            query.distinct = true;
            asked(alloc, query)
        }
        None => Ok(None),
    }
}

fn second(alloc: Global, parts: &mut Parts) -> Result<Option<Part>, AllocError>
    ensures { IfOk result (λ part. Makes part parts.new (query query_action.Second parts.old)) }
{
    match (parts.name(), parts.query()) {
        (Some(table), Some(mut query)) => {
            query.second = Some(table);
            asked(alloc, query)
        }
        (_table, _query) => Ok(None),
    }
}

fn filter(alloc: Global, parts: &mut Parts) -> Result<Option<Part>, AllocError>
    ensures { IfOk result (λ part. Makes part parts.new (query query_action.Filter parts.old)) }
{
    match (parts.condition(), parts.query()) {
        (Some(condition), Some(mut query)) => {
            query.condition = condition;
            asked(alloc, query)
        }
        (_condition, _query) => Ok(None),
    }
}

fn group_by(alloc: Global, parts: &mut Parts) -> Result<Option<Part>, AllocError>
    ensures { IfOk result (λ part. Makes part parts.new (query query_action.GroupBy parts.old)) }
{
    match (parts.column_name(), parts.query()) {
        (Some(column), Some(mut query)) => {
            query.group_by.push(column)?;
            asked(alloc, query)
        }
        (_column, _query) => Ok(None),
    }
}

fn order_by(
    alloc: Global,
    direction: Direction,
    parts: &mut Parts,
) -> Result<Option<Part>, AllocError>
    ensures { IfOk result (λ part. Makes part parts.new (query (query_action.OrderBy direction) parts.old)) }
{
    match (parts.column_name(), parts.query()) {
        (Some(column), Some(mut query)) => {
            query.order_by.push(OrderKey { column, direction })?;
            asked(alloc, query)
        }
        (_column, _query) => Ok(None),
    }
}

fn limit(alloc: Global, parts: &mut Parts) -> Result<Option<Part>, AllocError>
    ensures { IfOk result (λ part. Makes part parts.new (query query_action.Limit parts.old)) }
{
    match (parts.number(), parts.query()) {
        (Some(number), Some(mut query)) => {
            query.limit = Some(number.unsigned_abs());
            asked(alloc, query)
        }
        (_number, _query) => Ok(None),
    }
}

fn as_of(alloc: Global, parts: &mut Parts) -> Result<Option<Part>, AllocError>
    ensures { IfOk result (λ part. Makes part parts.new (query query_action.AsOf parts.old)) }
{
    match (parts.query(), parts.number()) {
        (Some(query), Some(number)) => {
            let snapshot = number.unsigned_abs();
            said(alloc, Parsed::AsOf(AsOf { snapshot, query }))
        }
        (_query, _number) => Ok(None),
    }
}
