//! Selects.

ghost use Rattle.std.specs.Prelude.{◌≡◌};
ghost use Rattle.sql_tree.specs.Select.{has_aggregate, is_aggregate, is_grouped, outputs_of};

use crate::condition::Condition;
use crate::expression::Expression;
use crate::name::{ColumnName, copy_optional};
use std::alloc::{AllocError, Global};
use values::{Duplicate, Name, Seq};

/// A value over all rows of a group.
#[derive(Debug, Drop)]
pub enum Aggregate {
    /// `COUNT ( * )`
    CountRows,
    Count(Expression),
    Sum(Expression),
    Min(Expression),
    Max(Expression),
}

impl Duplicate for Aggregate {
    fn copy(&self, alloc: Global) -> Result<Aggregate, AllocError> {
        match self {
            Aggregate::CountRows => Ok(Aggregate::CountRows),
            Aggregate::Count(of) => Ok(Aggregate::Count(of.copy(alloc)?)),
            Aggregate::Sum(of) => Ok(Aggregate::Sum(of.copy(alloc)?)),
            Aggregate::Min(of) => Ok(Aggregate::Min(of.copy(alloc)?)),
            Aggregate::Max(of) => Ok(Aggregate::Max(of.copy(alloc)?)),
        }
    }
}

/// What an output gives.
#[derive(Debug, Drop)]
pub enum OutputValue {
    Expression(Expression),
    Aggregate(Aggregate),
}

impl OutputValue {
    /// Whether the output is a value over all rows of a group.
    fn is_aggregate(&self) -> bool
        ensures { result ≡ is_aggregate self.now }
    {
        match self {
            OutputValue::Expression(_) => false,
            OutputValue::Aggregate(_) => true,
        }
    }
}

impl Duplicate for OutputValue {
    fn copy(&self, alloc: Global) -> Result<OutputValue, AllocError> {
        match self {
            OutputValue::Expression(of) => Ok(OutputValue::Expression(of.copy(alloc)?)),
            OutputValue::Aggregate(of) => Ok(OutputValue::Aggregate(of.copy(alloc)?)),
        }
    }
}

/// `value [ AS name ]`
#[derive(Debug, Drop)]
pub struct Output {
    pub value: OutputValue,
    pub name: Option<Name>,
}

impl Duplicate for Output {
    fn copy(&self, alloc: Global) -> Result<Output, AllocError> {
        Ok(Output {
            value: self.value.copy(alloc)?,
            name: copy_optional(alloc, &self.name)?,
        })
    }
}

/// What a select gives for each row.
#[derive(Debug, Drop)]
pub enum SelectList {
    /// `*`: all columns in order.
    All,
    /// At least one output.
    Outputs(Seq<Output>),
}

impl SelectList {
    /// The outputs that the list writes out; `*` writes out none.
    pub fn outputs(&self) -> &[Output]
        ensures { result.now ≡ outputs_of self.now }
    {
        match self {
            SelectList::All => &[],
            SelectList::Outputs(outputs) => outputs.as_slice(),
        }
    }

    fn has_aggregate(&self) -> bool
        ensures { result ≡ has_aggregate self.now }
    {
        self.outputs()
            .iter()
            .any(|output| output.value.is_aggregate())
    }
}

impl Duplicate for SelectList {
    fn copy(&self, alloc: Global) -> Result<SelectList, AllocError> {
        match self {
            SelectList::All => Ok(SelectList::All),
            SelectList::Outputs(outputs) => Ok(SelectList::Outputs(outputs.copy(alloc)?)),
        }
    }
}

/// A direction of an order.
#[derive(Clone, Copy, Debug, PartialEq, Eq)]
pub enum Direction {
    Ascending,
    Descending,
}

/// `column [ ASC | DESC ]`, where nothing stands for ASC.
#[derive(Debug, Drop)]
pub struct OrderKey {
    pub column: ColumnName,
    pub direction: Direction,
}

impl Duplicate for OrderKey {
    fn copy(&self, alloc: Global) -> Result<OrderKey, AllocError> {
        Ok(OrderKey {
            column: self.column.copy(alloc)?,
            direction: self.direction,
        })
    }
}

/// `SELECT [ DISTINCT ] list FROM table [ , second ] [ WHERE condition ] [ GROUP BY columns ] [ ORDER BY keys ]
/// [ LIMIT limit ]`, where no columns of GROUP BY and no keys stand for the part that is left out.
#[derive(Debug, Drop)]
pub struct Select {
    pub distinct: bool,
    pub list: SelectList,
    pub table: Name,
    pub second: Option<Name>,
    pub condition: Option<Condition>,
    pub group_by: Seq<ColumnName>,
    pub order_by: Seq<OrderKey>,
    pub limit: Option<u64>,
}

impl Select {
    /// Whether the select gives a row for each group, or one for all rows.
    pub fn is_grouped(&self) -> bool
        ensures { result ≡ is_grouped self.now }
    {
        self.list.has_aggregate() || !self.group_by.is_empty()
    }
}

impl Duplicate for Select {
    fn copy(&self, alloc: Global) -> Result<Select, AllocError> {
        Ok(Select {
            distinct: self.distinct,
            list: self.list.copy(alloc)?,
            table: self.table.copy(alloc)?,
            second: copy_optional(alloc, &self.second)?,
            condition: copy_optional(alloc, &self.condition)?,
            group_by: self.group_by.copy(alloc)?,
            order_by: self.order_by.copy(alloc)?,
            limit: self.limit,
        })
    }
}
