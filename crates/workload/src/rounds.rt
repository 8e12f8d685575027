//! The rounds of a load: a phase of updates, one session beside the other, and a phase that declares a snapshot.

ghost use Rattle.std.specs.Prelude.{◌≡◌, ◌+◌, ◌*◌, ◌++◌, ◌≤◌, OnOk, string_bytes};
ghost use Rattle.std.specs.List.{flat_map, range_with_len};
ghost use Rattle.workload.specs.Load.{declaring_lines, round_lines, script_text, update_lines, updating_lines};
ghost use Rattle.workload.specs.Numbers.{drawn};

use crate::TABLES;
use crate::numbers::Numbers;
use crate::writing::write_line;
use std::alloc::AllocError;

// Appends the session of a table, which adds a value to a row.
#[tactic(auto, unfolding(crate::specs::Load::script_text, crate::specs::Load::update_lines))]
fn write_update(text: &mut String, table: u32, row: u32, value: u32) -> Result<(), AllocError>
    ensures { OnOk result (string_bytes text.new ≡ string_bytes text.old
        ++ script_text (update_lines table row value)) }
{
    writeln!(text, "SESSION s{table}")?;
    writeln!(text, "UPDATE t{table} SET b = b + {value} WHERE a = {row}")?;
    write_line(text, "COMMIT")
}

// Appends the sessions of a round: those of round 0, were the last number the seed.
fn write_updates(text: &mut String, numbers: &mut Numbers) -> Result<(), AllocError>
    ensures text { OnOk result (string_bytes text.new ≡ string_bytes text.old
        ++ script_text (updating_lines numbers.old.last 0)) }
    ensures numbers { OnOk result (numbers.new.last ≡ drawn numbers.old.last 8) }
{
    for table in 0..TABLES {
        let row = numbers.next() % 20;
        let value = 1 + numbers.next() % 99;
        write_update(text, table, row, value)?;
    }
    Ok(())
}

// Appends the phase that declares a snapshot.
fn write_declaring(text: &mut String) -> Result<(), AllocError>
    ensures { OnOk result (string_bytes text.new ≡ string_bytes text.old ++ script_text declaring_lines) }
{
    write_line(text, "PHASE")?;
    write_line(text, "SESSION s")?;
    write_line(text, "COMMIT WITH SNAPSHOT")
}

// Appends a round: round 0, were the last number the seed.
fn write_round(text: &mut String, numbers: &mut Numbers) -> Result<(), AllocError>
    ensures text { OnOk result (string_bytes text.new ≡ string_bytes text.old
        ++ script_text (round_lines numbers.old.last 0)) }
    ensures numbers { OnOk result (numbers.new.last ≡ drawn numbers.old.last 8) }
{
    write_line(text, "PHASE")?;
    write_updates(text, numbers)?;
    write_declaring(text)
}

/// Appends so many rounds.
pub fn write_rounds(text: &mut String, seed: u32, rounds: u32) -> Result<(), AllocError>
    requires { seed ≤ 65536 }
    ensures { OnOk result (string_bytes text.new ≡ string_bytes text.old
        ++ script_text (flat_map (round_lines seed) (range_with_len 0 rounds))) }
{
    let mut numbers = Numbers::from_seed(seed);
    for _round in 0..rounds {
        write_round(text, &mut numbers)?;
    }
    Ok(())
}
