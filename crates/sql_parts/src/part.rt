//! The parts of a sentence that are not put together yet.

ghost use Rattle.std.specs.Prelude.{◌≡◌, ◌∷◌, [], MatchOption, OnOk};
ghost use Rattle.sql_parts.specs.Taking.{a_column, a_column_name, a_condition, a_create_table, a_line};
ghost use Rattle.sql_parts.specs.Taking.{a_literal, a_name, a_number, a_query, a_row, a_text};
ghost use Rattle.sql_parts.specs.Taking.{an_argument, an_assignment, an_expression, an_insert, an_operand};
ghost use Rattle.sql_parts.specs.Taking.{an_output, an_output_value, an_update, outputs, Takes};

use crate::apart::Apart;
use crate::parsed::Parsed;
use sql_tree::{
    Assignment, Column, ColumnName, Condition, CreateTable, Expression, Insert, Operand, Output,
    OutputValue, Select, Update,
};
use std::alloc::{AllocError, Global};
use std::marker::Model;
use values::{Name, Row, Seq, Text, Value};

/// A part of a sentence.
#[derive(Drop)]
pub enum Part {
    Name(Name),
    Number(i64),
    Text(Text),
    /// An argument of a call, however long.
    Argument(Seq<u8>),
    Literal(Value),
    ColumnName(ColumnName),
    Operand(Operand),
    Expression(Expression),
    /// A condition, or none where there is no WHERE.
    Condition(Option<Condition>),
    Column(Column),
    CreateTable(CreateTable),
    Row(Row),
    Insert(Insert),
    Assignment(Assignment),
    Update(Update),
    OutputValue(OutputValue),
    Output(Output),
    Outputs(Seq<Output>),
    Query(Apart<Select>),
    Parsed(Apart<Parsed>),
}

/// Parts, one above the other. Contracts see the last first.
#[derive(Drop)]
pub struct Parts {
    items: Vec<Part>,
}

impl Model for Parts {
    ghost use Rattle.std.specs.Prelude.{List, reverse};
    ghost use Rattle.sql_parts.specs.PartCode.{parts_code};
    ghost use Rattle.sql_parts.specs.declared.part.Part.{Part};

    ghost Value = { List Part };

    ghost coded = { parts_code };

    ghost view = { λ p. reverse p.items.items };
}

impl Parts {
    /// No parts.
    pub fn new(alloc: Global) -> Parts
        ensures { result ≡ [] }
    {
        Parts {
            items: Vec::new(alloc),
        }
    }

    /// Adds a part behind the others.
    #[inline(always)]
    pub fn push(&mut self, part: Part) -> Result<(), AllocError>
        ensures { OnOk result (self.new ≡ part ∷ self.old) }
    {
        self.items.push(part)?;
        Ok(())
    }

    /// Takes the last part, if there is one.
    pub fn pop(&mut self) -> Option<Part>
        ensures { MatchOption result ((self.old ≡ []) × (self.new ≡ [])) (λ part. self.old ≡ part ∷ self.new) }
    {
        self.items.pop()
    }
}

// The part is of another kind.
fn none_of<T>(_other: Part) -> Option<T>
    ensures { result ≡ None }
{
    None
}

impl Parts {
    /// Takes the last part, where it is a name.
    pub fn name(&mut self) -> Option<Name>
        ensures { Takes result self.new (a_name self.old) }
    {
        match self.pop()? {
            Part::Name(part) => Some(part),
            other => none_of(other),
        }
    }

    /// Takes the last part, where it is a number.
    pub fn number(&mut self) -> Option<i64>
        ensures { Takes result self.new (a_number self.old) }
    {
        match self.pop()? {
            Part::Number(part) => Some(part),
            other => none_of(other),
        }
    }

    /// Takes the last part, where it is a text.
    pub fn text(&mut self) -> Option<Text>
        ensures { Takes result self.new (a_text self.old) }
    {
        match self.pop()? {
            Part::Text(part) => Some(part),
            other => none_of(other),
        }
    }

    /// Takes the last part, where it is an argument of a call.
    pub fn argument(&mut self) -> Option<Seq<u8>>
        ensures { Takes result self.new (an_argument self.old) }
    {
        match self.pop()? {
            Part::Argument(part) => Some(part),
            other => none_of(other),
        }
    }

    /// Takes the last part, where it is a literal.
    pub fn literal(&mut self) -> Option<Value>
        ensures { Takes result self.new (a_literal self.old) }
    {
        match self.pop()? {
            Part::Literal(part) => Some(part),
            other => none_of(other),
        }
    }

    /// Takes the last part, where it is a name of a column.
    pub fn column_name(&mut self) -> Option<ColumnName>
        ensures { Takes result self.new (a_column_name self.old) }
    {
        match self.pop()? {
            Part::ColumnName(part) => Some(part),
            other => none_of(other),
        }
    }

    /// Takes the last part, where it is a side of a comparison.
    pub fn operand(&mut self) -> Option<Operand>
        ensures { Takes result self.new (an_operand self.old) }
    {
        match self.pop()? {
            Part::Operand(part) => Some(part),
            other => none_of(other),
        }
    }

    /// Takes the last part, where it is an expression.
    pub fn expression(&mut self) -> Option<Expression>
        ensures { Takes result self.new (an_expression self.old) }
    {
        match self.pop()? {
            Part::Expression(part) => Some(part),
            other => none_of(other),
        }
    }

    /// Takes the last part, where it is a condition, which a sentence may lack.
    pub fn condition(&mut self) -> Option<Option<Condition>>
        ensures { Takes result self.new (a_condition self.old) }
    {
        match self.pop()? {
            Part::Condition(part) => Some(part),
            other => none_of(other),
        }
    }

    /// Takes the last part, where it is a column of a new table.
    pub fn column(&mut self) -> Option<Column>
        ensures { Takes result self.new (a_column self.old) }
    {
        match self.pop()? {
            Part::Column(part) => Some(part),
            other => none_of(other),
        }
    }

    /// Takes the last part, where it is a table to be made, so far.
    pub fn create_table(&mut self) -> Option<CreateTable>
        ensures { Takes result self.new (a_create_table self.old) }
    {
        match self.pop()? {
            Part::CreateTable(part) => Some(part),
            other => none_of(other),
        }
    }

    /// Takes the last part, where it is a tuple of values.
    pub fn row(&mut self) -> Option<Row>
        ensures { Takes result self.new (a_row self.old) }
    {
        match self.pop()? {
            Part::Row(part) => Some(part),
            other => none_of(other),
        }
    }

    /// Takes the last part, where it is an INSERT, so far.
    pub fn insert(&mut self) -> Option<Insert>
        ensures { Takes result self.new (an_insert self.old) }
    {
        match self.pop()? {
            Part::Insert(part) => Some(part),
            other => none_of(other),
        }
    }

    /// Takes the last part, where it is an assignment.
    pub fn assignment(&mut self) -> Option<Assignment>
        ensures { Takes result self.new (an_assignment self.old) }
    {
        match self.pop()? {
            Part::Assignment(part) => Some(part),
            other => none_of(other),
        }
    }

    /// Takes the last part, where it is an UPDATE, so far.
    pub fn update(&mut self) -> Option<Update>
        ensures { Takes result self.new (an_update self.old) }
    {
        match self.pop()? {
            Part::Update(part) => Some(part),
            other => none_of(other),
        }
    }

    /// Takes the last part, where it is a value of an output.
    pub fn output_value(&mut self) -> Option<OutputValue>
        ensures { Takes result self.new (an_output_value self.old) }
    {
        match self.pop()? {
            Part::OutputValue(part) => Some(part),
            other => none_of(other),
        }
    }

    /// Takes the last part, where it is an output.
    pub fn output(&mut self) -> Option<Output>
        ensures { Takes result self.new (an_output self.old) }
    {
        match self.pop()? {
            Part::Output(part) => Some(part),
            other => none_of(other),
        }
    }

    /// Takes the last part, where it is a list of outputs.
    pub fn outputs(&mut self) -> Option<Seq<Output>>
        ensures { Takes result self.new (outputs self.old) }
    {
        match self.pop()? {
            Part::Outputs(part) => Some(part),
            other => none_of(other),
        }
    }

    /// Takes the last part, where it is a query.
    pub fn query(&mut self) -> Option<Select>
        ensures { Takes result self.new (a_query self.old) }
    {
        match self.pop()? {
            Part::Query(part) => Some(part.into_inner()),
            other => none_of(other),
        }
    }

    /// Takes the last part, where it is a line.
    pub fn parsed(&mut self) -> Option<Parsed>
        ensures { Takes result self.new (a_line self.old) }
    {
        match self.pop()? {
            Part::Parsed(part) => Some(part.into_inner()),
            other => none_of(other),
        }
    }
}
