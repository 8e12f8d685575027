//! The trees of statements.

use crate::condition::Condition;
use crate::expression::Expression;
use crate::name::copy_optional;
use crate::select::Select;
use std::alloc::{AllocError, Global};
use values::{Duplicate, Kind, Name, Row, Seq};

/// A column of a table.
#[derive(Debug, Drop)]
pub struct Column {
    pub name: Name,
    pub kind: Kind,
}

impl Duplicate for Column {
    fn copy(&self, alloc: Global) -> Result<Column, AllocError> {
        Ok(Column {
            name: self.name.copy(alloc)?,
            kind: self.kind,
        })
    }
}

/// `CREATE TABLE name ( name type { , name type } )`, with 1 to 16 columns.
#[derive(Debug, Drop)]
pub struct CreateTable {
    pub table: Name,
    pub columns: Seq<Column>,
}

impl Duplicate for CreateTable {
    fn copy(&self, alloc: Global) -> Result<CreateTable, AllocError> {
        Ok(CreateTable {
            table: self.table.copy(alloc)?,
            columns: self.columns.copy(alloc)?,
        })
    }
}

/// `CREATE INDEX index ON table ( column )`
#[derive(Debug, Drop)]
pub struct CreateIndex {
    pub index: Name,
    pub table: Name,
    pub column: Name,
}

impl Duplicate for CreateIndex {
    fn copy(&self, alloc: Global) -> Result<CreateIndex, AllocError> {
        Ok(CreateIndex {
            index: self.index.copy(alloc)?,
            table: self.table.copy(alloc)?,
            column: self.column.copy(alloc)?,
        })
    }
}

/// `INSERT INTO name VALUES tuple { , tuple }`, with the tuples in order.
#[derive(Debug, Drop)]
pub struct Insert {
    pub table: Name,
    pub tuples: Seq<Row>,
}

impl Duplicate for Insert {
    fn copy(&self, alloc: Global) -> Result<Insert, AllocError> {
        Ok(Insert {
            table: self.table.copy(alloc)?,
            tuples: self.tuples.copy(alloc)?,
        })
    }
}

/// `column = value`
#[derive(Debug, Drop)]
pub struct Assignment {
    pub column: Name,
    pub value: Expression,
}

impl Duplicate for Assignment {
    fn copy(&self, alloc: Global) -> Result<Assignment, AllocError> {
        Ok(Assignment {
            column: self.column.copy(alloc)?,
            value: self.value.copy(alloc)?,
        })
    }
}

/// `UPDATE table SET assignment { , assignment } [ WHERE condition ]`
#[derive(Debug, Drop)]
pub struct Update {
    pub table: Name,
    pub assignments: Seq<Assignment>,
    pub condition: Option<Condition>,
}

impl Duplicate for Update {
    fn copy(&self, alloc: Global) -> Result<Update, AllocError> {
        Ok(Update {
            table: self.table.copy(alloc)?,
            assignments: self.assignments.copy(alloc)?,
            condition: copy_optional(alloc, &self.condition)?,
        })
    }
}

/// `DELETE FROM table [ WHERE condition ]`
#[derive(Debug, Drop)]
pub struct Delete {
    pub table: Name,
    pub condition: Option<Condition>,
}

impl Duplicate for Delete {
    fn copy(&self, alloc: Global) -> Result<Delete, AllocError> {
        Ok(Delete {
            table: self.table.copy(alloc)?,
            condition: copy_optional(alloc, &self.condition)?,
        })
    }
}

/// A statement of a transaction.
#[derive(Debug, Drop)]
pub enum Statement {
    CreateTable(CreateTable),
    CreateIndex(CreateIndex),
    Insert(Insert),
    Update(Update),
    Delete(Delete),
    Select(Select),
}

impl Duplicate for Statement {
    fn copy(&self, alloc: Global) -> Result<Statement, AllocError> {
        match self {
            Statement::CreateTable(create) => Ok(Statement::CreateTable(create.copy(alloc)?)),
            Statement::CreateIndex(create) => Ok(Statement::CreateIndex(create.copy(alloc)?)),
            Statement::Insert(insert) => Ok(Statement::Insert(insert.copy(alloc)?)),
            Statement::Update(update) => Ok(Statement::Update(update.copy(alloc)?)),
            Statement::Delete(delete) => Ok(Statement::Delete(delete.copy(alloc)?)),
            Statement::Select(select) => Ok(Statement::Select(select.copy(alloc)?)),
        }
    }
}
