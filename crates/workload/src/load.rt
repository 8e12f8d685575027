//! The script of a load.

ghost use Rattle.std.specs.Prelude.{◌≡◌, ◌≤◌, ◌++◌, ◌∷◌, [], IfOk, OnOk, map, string_bytes};
ghost use Rattle.std.specs.List.{flat_map};
ghost use Rattle.workload.specs.Load.{asking_lines, create_line, insert_line, load_lines, making_lines, script_text};
ghost use Rattle.workload.specs.Load.{sum_line, table_lines, table_numbers};

use crate::TABLES;
use crate::rounds::write_rounds;
use crate::writing::write_line;
use std::alloc::{AllocError, Global};

/// The rows of each table at first.
const FIRST_ROWS: &str = "(0,0),(1,0),(2,0),(3,0),(4,0),(5,0),(6,0),(7,0),(8,0),(9,0),\
    (10,0),(11,0),(12,0),(13,0),(14,0),(15,0),(16,0),(17,0),(18,0),(19,0)";

/// The call that adds up what each snapshot holds of table 0.
const PAST_SUMS: &str =
    "AggregateDataInVariable('SELECT snap_id FROM SnapIds','SELECT SUM(b) FROM t0','rql_v','SUM')";

// Appends the statement that makes a table.
fn write_create(text: &mut String, table: u32) -> Result<(), AllocError>
    ensures { OnOk result (string_bytes text.new ≡ string_bytes text.old ++ script_text (create_line table ∷ [])) }
{
    writeln!(text, "CREATE TABLE t{table}(a INT, b INT)")
}

// Appends the statement that puts rows into a table.
fn write_insert(text: &mut String, table: u32, rows: &str) -> Result<(), AllocError>
    ensures { OnOk result (string_bytes text.new ≡ string_bytes text.old
        ++ script_text (insert_line table rows.now ∷ [])) }
{
    writeln!(text, "INSERT INTO t{table} VALUES {rows}")
}

// Appends the statements that make the tables.
fn write_tables(text: &mut String) -> Result<(), AllocError>
    ensures { OnOk result (string_bytes text.new ≡ string_bytes text.old
        ++ script_text (flat_map table_lines table_numbers)) }
{
    for table in 0..TABLES {
        write_create(text, table)?;
        write_insert(text, table, FIRST_ROWS)?;
    }
    Ok(())
}

// Appends the first phase.
fn write_making(text: &mut String) -> Result<(), AllocError>
    ensures { OnOk result (string_bytes text.new ≡ string_bytes text.old ++ script_text making_lines) }
{
    write_line(text, "PHASE")?;
    write_line(text, "SESSION s")?;
    write_tables(text)?;
    write_line(text, "COMMIT WITH SNAPSHOT")
}

// Appends the statement that asks the sum of a table.
#[tactic(auto, unfolding(crate::specs::Load::script_text, crate::specs::Load::sum_line))]
fn write_sum(text: &mut String, table: u32) -> Result<(), AllocError>
    ensures { OnOk result (string_bytes text.new ≡ string_bytes text.old ++ script_text (sum_line table ∷ [])) }
{
    writeln!(text, "SELECT SUM(b) FROM t{table}")
}

// Appends the statements that ask the sums.
fn write_sums(text: &mut String) -> Result<(), AllocError>
    ensures { OnOk result (string_bytes text.new ≡ string_bytes text.old
        ++ script_text (map sum_line table_numbers)) }
{
    for table in 0..TABLES {
        write_sum(text, table)?;
    }
    Ok(())
}

// Appends the last phase.
fn write_asking(text: &mut String) -> Result<(), AllocError>
    ensures { OnOk result (string_bytes text.new ≡ string_bytes text.old ++ script_text asking_lines) }
{
    write_line(text, "PHASE")?;
    write_line(text, "SESSION s")?;
    write_line(text, PAST_SUMS)?;
    write_line(text, "SELECT value FROM rql_v")?;
    write_sums(text)?;
    write_line(text, "COMMIT")
}

/// The script of a load with this seed and so many rounds. Refused for want of memory alone.
pub fn script_of(alloc: Global, seed: u32, rounds: u32) -> Result<Vec<u8>, AllocError>
    requires { seed ≤ 65536 }
    ensures { IfOk result (λ script. script.items ≡ script_text (load_lines seed rounds)) }
{
    let mut text = String::new(alloc);
    write_making(&mut text)?;
    write_rounds(&mut text, seed, rounds)?;
    write_asking(&mut text)?;
    Ok(text.into_bytes())
}
