//! Tables by name.

ghost use Rattle.std.specs.Prelude.{◌≡◌, ◌<◌, ◌≤◌, ◌++◌, ◌∷◌, [], List, Ok, None, length};
ghost use Rattle.std.specs.Prelude.{slice_index_or, slice_set, MatchResult, OnOk, OnErr};
ghost use Rattle.retro_base.specs.Gives.{Gives};
ghost use Rattle.retro_base.specs.declared.refusal.Refusal.TheVariants.{UnknownName};
ghost use Rattle.sql_tree.specs.declared.schema.TableSchema.{TableSchema as TableSchemaOf};
ghost use Rattle.std.specs.List.{AllByRecursion};
ghost use Rattle.retro_base.specs.declared.limits.TheConstants.{COLUMNS};
ghost use Rattle.values.specs.declared.value.Value.{Value as ValueOf};
ghost use Rattle.sql_check.specs.Check.{checked};
ghost use Rattle.tables.specs.declared.contents.Contents.{Contents as ContentsOf};
ghost use Rattle.sql_check.specs.Outputs.{answer_columns};
ghost use Rattle.sql_select.specs.Select.{answer};
ghost use Rattle.tables.specs.Rows.{rows_of};
ghost use Rattle.tables.specs.Fates.{contents_after};
ghost use Rattle.tables.specs.Meaning.{answer_of, inserted, performed};
ghost use Rattle.tables.specs.Tables.{IsPlace, IsTable, IsTables, no_tables, place_named, table_named, with_contents};

use crate::changes::{remaining, updated};
use crate::contents::Contents;
use crate::fates::Fate;
use crate::reply::Reply;
use retro_base::Refusal;
use sql_check::answer_columns;
use sql_select::{Answer, select};
use sql_tree::{
    CreateIndex, CreateTable, Delete, IndexSchema, Insert, Schema, Scope, Select, Statement,
    TableSchema, Update,
};
use std::alloc::{AllocError, Global};
use std::marker::Model;
use values::{Duplicate, Name, Row, Seq};

/// Tables by name. Contracts see their schema, and what each table holds, in the order of the schema.
#[derive(Debug, Drop)]
pub struct Tables {
    schema: Schema,
    contents: Vec<Contents>,
}

impl Model for Tables {
    ghost use Rattle.tables.specs.Tables.{IsTables, Tables as TablesOf};

    ghost Value = { TablesOf };

    ghost view = { λ t. record { schema = t.schema; contents = t.contents.items } };

    ghost invariant = { λ t. IsTables (record { schema = t.schema; contents = t.contents.items }) };
}

impl Tables {
    /// No tables.
    pub fn new(alloc: Global) -> Tables
        ensures { result ≡ no_tables }
    {
        Tables {
            schema: Schema {
                tables: Seq::new(alloc),
                indexes: Seq::new(alloc),
            },
            contents: Vec::new(alloc),
        }
    }

    /// The names of the tables, of their columns, and of the indexes.
    pub fn schema(&self) -> &Schema
        ensures { result.now ≡ self.now.schema }
    {
        &self.schema
    }

    // The place of the first table of that name.
    fn position(&self, name: &Name) -> Option<usize>
        ensures place { result ≡ place_named name.now self.now }
        ensures lawful { IsTables self.now }
    {
        self.schema
            .tables
            .as_slice()
            .iter()
            .position(|table| table.name == *name)
    }

    // The place of the table of that name.
    fn place(&self, name: &Name) -> Result<usize, Refusal>
        ensures { MatchResult result (IsPlace name.now self.now)
            (λ why. (why ≡ UnknownName) × (table_named name.now self.now ≡ None)) }
    {
        self.position(name).ok_or(Refusal::UnknownName)
    }

    pub(crate) fn create_table(
        &mut self,
        alloc: Global,
        create: &CreateTable,
    ) -> Result<Reply, Refusal>
        requires { length create.now.columns ≤ COLUMNS }
        ensures means { Gives (λ reply. (self.new, reply)) result
            (performed (Statement.CreateTable create.now) None self.old) }
        ensures refused { OnErr result (self.new ≡ self.old) }
    {
        let table = TableSchema {
            name: create.table.copy(alloc)?,
            columns: create.columns.copy(alloc)?,
        };
        push_table(alloc, &mut self.schema.tables, &mut self.contents, table)?;
        Ok(Reply::Plain)
    }

    pub(crate) fn create_index(
        &mut self,
        alloc: Global,
        create: &CreateIndex,
    ) -> Result<Reply, Refusal>
        ensures means { Gives (λ reply. (self.new, reply)) result
            (performed (Statement.CreateIndex create.now) None self.old) }
        ensures refused { OnErr result (self.new ≡ self.old) }
    {
        self.schema.indexes.push(IndexSchema {
            name: create.index.copy(alloc)?,
            table: create.table.copy(alloc)?,
            column: create.column.copy(alloc)?,
        })?;
        Ok(Reply::Plain)
    }

    pub(crate) fn insert(&mut self, alloc: Global, insert: &Insert) -> Result<Reply, Refusal>
        requires { checked (Statement.Insert insert.now) None self.old.schema ≡ Ok tt }
        ensures means { Gives (λ reply. (self.new, reply)) result
            (performed (Statement.Insert insert.now) None self.old) }
        ensures refused { OnErr result (self.new ≡ self.old) }
    {
        let place = self.place(&insert.table)?;
        let tuples = insert.tuples.as_slice();
        if let Err(why) = insert_at(alloc, &mut self.contents, place, tuples) {
            return Err(why);
        }
        Ok(Reply::Count(tuples.len() as u64))
    }

    pub(crate) fn update(
        &mut self,
        alloc: Global,
        snapshot: Option<u32>,
        update: &Update,
    ) -> Result<Reply, Refusal>
        requires { checked (Statement.Update update.now) snapshot self.old.schema ≡ Ok tt }
        ensures means { Gives (λ reply. (self.new, reply)) result
            (performed (Statement.Update update.now) snapshot self.old) }
        ensures refused { OnErr result (self.new ≡ self.old) }
    {
        let place = self.place(&update.table)?;
        let table = &self.schema.tables.as_slice()[place];
        let fates = updated(alloc, table, snapshot, update, &self.contents[place])?;
        self.rewrite(alloc, place, fates.each);
        Ok(Reply::Count(fates.count))
    }

    pub(crate) fn delete(
        &mut self,
        alloc: Global,
        snapshot: Option<u32>,
        delete: &Delete,
    ) -> Result<Reply, Refusal>
        ensures means { Gives (λ reply. (self.new, reply)) result
            (performed (Statement.Delete delete.now) snapshot self.old) }
        ensures refused { OnErr result (self.new ≡ self.old) }
    {
        let place = self.place(&delete.table)?;
        let table = &self.schema.tables.as_slice()[place];
        let fates = remaining(alloc, table, snapshot, delete, &self.contents[place])?;
        self.rewrite(alloc, place, fates.each);
        Ok(Reply::Count(fates.count))
    }

    // Does to each row of the table at that place what becomes of it.
    fn rewrite(&mut self, alloc: Global, place: usize, fates: Seq<Fate>)
        requires within { (place < length self.old.schema.tables) × (place < length self.old.contents) }
        requires each { (c : ContentsOf) → length fates ≡ length (slice_index_or self.old.contents place c).rows }
        requires table { (s : TableSchemaOf) (c : ContentsOf) →
            IsTable (slice_index_or self.old.schema.tables place s)
            (contents_after fates (slice_index_or self.old.contents place c)) }
        ensures { (c : ContentsOf) →
            self.new ≡ with_contents place (contents_after fates (slice_index_or self.old.contents place c)) self.old }
    {
        rewrite_at(alloc, &mut self.contents, place, fates);
    }

    pub(crate) fn answer(
        &self,
        alloc: Global,
        query: &Select,
        snapshot: Option<u32>,
    ) -> Result<Answer, Refusal>
        ensures { Gives (λ answer. answer) result (answer_of query.now snapshot self.now) }
    {
        let place = self.place(&query.table)?;
        let table = &self.schema.tables.as_slice()[place];
        let contents = &self.contents[place];
        match &query.second {
            None => answer_of_one(alloc, query, snapshot, table, contents),
            Some(second) => {
                let place = self.place(second)?;
                let other = &self.schema.tables.as_slice()[place];
                let others = &self.contents[place];
                answer_of_two(alloc, query, snapshot, table, contents, other, others)
            }
        }
    }
}

// Adds a table without rows, or nothing.
fn push_table(
    alloc: Global,
    tables: &mut Seq<TableSchema>,
    contents: &mut Vec<Contents>,
    table: TableSchema,
) -> Result<(), AllocError>
    ensures tables { OnOk result (tables.new ≡ tables.old ++ table ∷ []) }
    ensures contents { OnOk result (contents.new.items ≡ contents.old.items ++ record { next = 0; rows = [] } ∷ []) }
    ensures refused { OnErr result ((tables.new ≡ tables.old) × (contents.new.items ≡ contents.old.items)) }
{
    let count = contents.len();
    contents.push(Contents::new(alloc))?;
    match tables.push(table) {
        Ok(()) => Ok(()),
        Err(_) => {
            contents.truncate(count);
            Err(AllocError)
        }
    }
}

// Adds copies of the tuples as the last rows of the table at that place, all or none of them.
fn insert_at(
    alloc: Global,
    contents: &mut Vec<Contents>,
    place: usize,
    tuples: &[Row],
) -> Result<(), Refusal>
    requires within { place < length contents.old.items }
    requires width { AllByRecursion (λ (row : List ValueOf). length row ≤ COLUMNS) tuples.now }
    ensures means { (c : ContentsOf) → Gives (λ _. (slice_index_or contents.new.items place c, length tuples.now))
        result (inserted tuples.now (slice_index_or contents.old.items place c)) }
    ensures set { (c : ContentsOf) → OnOk result (contents.new.items ≡ slice_set contents.old.items place
        (slice_index_or contents.new.items place c)) }
    ensures err { OnErr result (contents.new.items ≡ contents.old.items) }
{
    contents[place].insert(alloc, tuples)
}

// Does to each row of the contents at that place what becomes of it.
fn rewrite_at(alloc: Global, contents: &mut Vec<Contents>, place: usize, fates: Seq<Fate>)
    requires within { place < length contents.old.items }
    requires each { (c : ContentsOf) → length fates ≡ length (slice_index_or contents.old.items place c).rows }
    ensures { (c : ContentsOf) →
        contents.new.items ≡ slice_set contents.old.items place
        (contents_after fates (slice_index_or contents.old.items place c)) }
{
    contents[place].rewrite(alloc, fates);
}

// The answer over the rows of one table.
fn answer_of_one(
    alloc: Global,
    query: &Select,
    snapshot: Option<u32>,
    table: &TableSchema,
    contents: &Contents,
) -> Result<Answer, Refusal>
    ensures { Gives (λ answer. answer) result (answer query.now (table.now ∷ [])
        (answer_columns (table.now ∷ []) query.now.list) snapshot (rows_of contents.now.rows) None) }
{
    let scope = Scope::of_one(table);
    let columns = answer_columns(alloc, &scope, &query.list)?;
    let rows = contents.rows.as_slice();
    select(alloc, query, &scope, columns, snapshot, rows, None)
}

// The answer over the rows of two tables.
fn answer_of_two(
    alloc: Global,
    query: &Select,
    snapshot: Option<u32>,
    first: &TableSchema,
    firsts: &Contents,
    second: &TableSchema,
    seconds: &Contents,
) -> Result<Answer, Refusal>
    requires few_first { length first.now.columns ≤ COLUMNS }
    requires few_second { length second.now.columns ≤ COLUMNS }
    ensures { Gives (λ answer. answer) result (answer query.now (first.now ∷ second.now ∷ [])
        (answer_columns (first.now ∷ second.now ∷ []) query.now.list) snapshot (rows_of firsts.now.rows)
        (Some (rows_of seconds.now.rows))) }
{
    let scope = Scope::of_two(first, second);
    let columns = answer_columns(alloc, &scope, &query.list)?;
    let rows = firsts.rows.as_slice();
    let others = seconds.rows.as_slice();
    select(alloc, query, &scope, columns, snapshot, rows, Some(others))
}
