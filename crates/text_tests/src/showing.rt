//! Lines in short, for tests: expressions and conditions as their steps.

use sql_text::{Mechanism, Parsed, RqlCall};
use sql_tree::{
    Aggregate, ColumnName, Comparison, Condition, ConditionStep, Direction, Expression,
    ExpressionStep, Insert, Operand, Operator, Output, OutputValue, Select, SelectList, Statement,
    Update,
};
use std::alloc::{AllocError, Global};
use values::{Kind, Name, Seq, Value, field};

fn words(out: &mut Vec<u8>, words: &str) -> Result<(), AllocError> {
    out.extend_from_slice(words.as_bytes())
}

fn name(out: &mut Vec<u8>, name: &Name) -> Result<(), AllocError> {
    out.extend_from_slice(name.bytes())
}

fn column(out: &mut Vec<u8>, of: &ColumnName) -> Result<(), AllocError> {
    if let Some(table) = &of.table {
        name(out, table)?;
        words(out, ".")?;
    }
    name(out, &of.column)
}

fn value(alloc: Global, out: &mut Vec<u8>, of: &Value) -> Result<(), AllocError> {
    match of {
        Value::Int(_) => field(alloc, of, out),
        Value::Text(_) => {
            words(out, "'")?;
            field(alloc, of, out)?;
            words(out, "'")
        }
    }
}

fn operator(of: Operator) -> &'static str {
    match of {
        Operator::Add => "+",
        Operator::Subtract => "-",
        Operator::Multiply => "*",
    }
}

fn expression(alloc: Global, out: &mut Vec<u8>, of: &Expression) -> Result<(), AllocError> {
    for (i, step) in of.steps().iter().enumerate() {
        if i > 0 {
            words(out, " ")?;
        }
        match step {
            ExpressionStep::Literal(literal) => value(alloc, out, literal)?,
            ExpressionStep::Column(of) => column(out, of)?,
            ExpressionStep::CurrentSnapshot => words(out, "now")?,
            ExpressionStep::Apply(of) => words(out, operator(*of))?,
        }
    }
    Ok(())
}

fn operand(alloc: Global, out: &mut Vec<u8>, of: &Operand) -> Result<(), AllocError> {
    match of {
        Operand::Literal(literal) => value(alloc, out, literal),
        Operand::Column(of) => column(out, of),
        Operand::CurrentSnapshot => words(out, "now"),
    }
}

fn comparison(of: Comparison) -> &'static str {
    match of {
        Comparison::Equal => " = ",
        Comparison::NotEqual => " <> ",
        Comparison::Less => " < ",
        Comparison::AtMost => " <= ",
        Comparison::Greater => " > ",
        Comparison::AtLeast => " >= ",
    }
}

fn condition_step(alloc: Global, out: &mut Vec<u8>, of: &ConditionStep) -> Result<(), AllocError> {
    match of {
        ConditionStep::Compare {
            left,
            comparison: between,
            right,
        } => {
            words(out, " [")?;
            operand(alloc, out, left)?;
            words(out, comparison(*between))?;
            operand(alloc, out, right)?;
            words(out, "]")
        }
        ConditionStep::Not => words(out, " not"),
        ConditionStep::And => words(out, " and"),
        ConditionStep::Or => words(out, " or"),
    }
}

fn filter(alloc: Global, out: &mut Vec<u8>, of: &Option<Condition>) -> Result<(), AllocError> {
    if let Some(condition) = of {
        words(out, " | where")?;
        for step in condition.steps() {
            condition_step(alloc, out, step)?;
        }
    }
    Ok(())
}

fn aggregate(alloc: Global, out: &mut Vec<u8>, of: &Aggregate) -> Result<(), AllocError> {
    let (word, argument) = match of {
        Aggregate::CountRows => return words(out, "count *"),
        Aggregate::Count(argument) => ("count ", argument),
        Aggregate::Sum(argument) => ("sum ", argument),
        Aggregate::Min(argument) => ("min ", argument),
        Aggregate::Max(argument) => ("max ", argument),
    };
    words(out, word)?;
    expression(alloc, out, argument)
}

fn output(alloc: Global, out: &mut Vec<u8>, of: &Output) -> Result<(), AllocError> {
    match &of.value {
        OutputValue::Expression(of) => expression(alloc, out, of)?,
        OutputValue::Aggregate(of) => aggregate(alloc, out, of)?,
    }
    if let Some(given) = &of.name {
        words(out, " as ")?;
        name(out, given)?;
    }
    Ok(())
}

fn list(alloc: Global, out: &mut Vec<u8>, of: &SelectList) -> Result<(), AllocError> {
    match of {
        SelectList::All => words(out, "*"),
        SelectList::Outputs(outputs) => {
            for (i, of) in outputs.as_slice().iter().enumerate() {
                if i > 0 {
                    words(out, " , ")?;
                }
                output(alloc, out, of)?;
            }
            Ok(())
        }
    }
}

fn grouping(out: &mut Vec<u8>, of: &[ColumnName]) -> Result<(), AllocError> {
    if !of.is_empty() {
        words(out, " | group")?;
    }
    for group in of {
        words(out, " ")?;
        column(out, group)?;
    }
    Ok(())
}

fn ordering(out: &mut Vec<u8>, of: &Select) -> Result<(), AllocError> {
    if !of.order_by.is_empty() {
        words(out, " | order")?;
    }
    for key in of.order_by.as_slice() {
        words(out, " ")?;
        column(out, &key.column)?;
        match key.direction {
            Direction::Ascending => words(out, " up")?,
            Direction::Descending => words(out, " down")?,
        }
    }
    Ok(())
}

fn select(alloc: Global, out: &mut Vec<u8>, of: &Select) -> Result<(), AllocError> {
    words(out, "select ")?;
    if of.distinct {
        words(out, "distinct ")?;
    }
    list(alloc, out, &of.list)?;
    words(out, " | ")?;
    name(out, &of.table)?;
    if let Some(second) = &of.second {
        words(out, " ")?;
        name(out, second)?;
    }
    filter(alloc, out, &of.condition)?;
    grouping(out, of.group_by.as_slice())?;
    ordering(out, of)?;
    if let Some(limit) = of.limit {
        let text = format!(in alloc; " | limit {}", limit)?;
        words(out, text.as_str())?;
    }
    Ok(())
}

fn insert(alloc: Global, out: &mut Vec<u8>, of: &Insert) -> Result<(), AllocError> {
    words(out, "insert ")?;
    name(out, &of.table)?;
    for tuple in of.tuples.as_slice() {
        words(out, " |")?;
        for of in tuple.as_slice() {
            words(out, " ")?;
            value(alloc, out, of)?;
        }
    }
    Ok(())
}

fn update(alloc: Global, out: &mut Vec<u8>, of: &Update) -> Result<(), AllocError> {
    words(out, "update ")?;
    name(out, &of.table)?;
    for assignment in of.assignments.as_slice() {
        words(out, " | ")?;
        name(out, &assignment.column)?;
        words(out, " = ")?;
        expression(alloc, out, &assignment.value)?;
    }
    filter(alloc, out, &of.condition)
}

fn statement(alloc: Global, out: &mut Vec<u8>, of: &Statement) -> Result<(), AllocError> {
    match of {
        Statement::CreateTable(create) => {
            words(out, "create ")?;
            name(out, &create.table)?;
            for column in create.columns.as_slice() {
                words(out, " | ")?;
                name(out, &column.name)?;
                match column.kind {
                    Kind::Int => words(out, " INT")?,
                    Kind::Text => words(out, " TEXT")?,
                }
            }
            Ok(())
        }
        Statement::CreateIndex(create) => {
            words(out, "index ")?;
            name(out, &create.index)?;
            words(out, " ")?;
            name(out, &create.table)?;
            words(out, " ")?;
            name(out, &create.column)
        }
        Statement::Insert(of) => insert(alloc, out, of),
        Statement::Update(of) => update(alloc, out, of),
        Statement::Delete(delete) => {
            words(out, "delete ")?;
            name(out, &delete.table)?;
            filter(alloc, out, &delete.condition)
        }
        Statement::Select(of) => select(alloc, out, of),
    }
}

fn argument(out: &mut Vec<u8>, of: &Seq<u8>) -> Result<(), AllocError> {
    words(out, " [")?;
    out.extend_from_slice(of.as_slice())?;
    words(out, "]")
}

fn call(out: &mut Vec<u8>, of: &RqlCall) -> Result<(), AllocError> {
    words(
        out,
        match &of.mechanism {
            Mechanism::CollateData => "collate",
            Mechanism::AggregateDataInVariable { function: _ } => "variable",
            Mechanism::AggregateDataInTable { pairs: _ } => "table",
            Mechanism::CollateDataIntoIntervals => "intervals",
        },
    )?;
    argument(out, &of.snapshots)?;
    argument(out, &of.query)?;
    argument(out, &of.table)?;
    match &of.mechanism {
        Mechanism::CollateData | Mechanism::CollateDataIntoIntervals => Ok(()),
        Mechanism::AggregateDataInVariable { function } => argument(out, function),
        Mechanism::AggregateDataInTable { pairs } => argument(out, pairs),
    }
}

/// Writes the line in short.
pub fn show(alloc: Global, parsed: &Parsed, out: &mut Vec<u8>) -> Result<(), AllocError> {
    match parsed {
        Parsed::Plain(of) => statement(alloc, out, of),
        Parsed::AsOf(as_of) => {
            let head = format!(in alloc; "as of {} ", as_of.snapshot)?;
            words(out, head.as_str())?;
            select(alloc, out, &as_of.query)
        }
        Parsed::Commit(None) => words(out, "commit"),
        Parsed::Commit(Some(label)) => {
            words(out, "commit '")?;
            out.extend_from_slice(label.bytes())?;
            words(out, "'")
        }
        Parsed::Rollback => words(out, "rollback"),
        Parsed::DropBelow(number) => {
            let text = format!(in alloc; "drop {}", number)?;
            words(out, text.as_str())
        }
        Parsed::Rql(of) => call(out, of),
    }
}
