//! The text of what was recovered.
ghost use Rattle.std.specs.Prelude.{◌≡◌, ◌++◌, IfOk, OnOk, string_bytes};
ghost use Rattle.tables.specs.Database.{database};
ghost use Rattle.program_recovery.specs.Text.{district_line, district_lines, row_line, warehouse_line, warehouse_lines};
ghost use Rattle.program_recovery.specs.Text.{recovery_text};

use program_script_text::ShownRow;
use recover::Recovered;
use std::alloc::{AllocError, Global};
use tables::{DistrictKey, Tables};

/// The durable epoch and the number of commits, each on a line, and then the lines of the rows.
pub fn text_of(alloc: Global, recovered: &Recovered) -> Result<String, AllocError>
    ensures { IfOk result (λ text. string_bytes text ≡ recovery_text recovered.now) }
{
    let (durable, commits) = (recovered.durable, recovered.commits);
    let mut text = format!(in alloc; "durable {durable}\ncommits {commits}\n")?;
    print_warehouses(&recovered.tables, &mut text)?;
    Ok(text)
}

/// Appends the line of each warehouse, with those of its districts behind it.
fn print_warehouses(tables: &Tables, out: &mut String) -> Result<(), AllocError>
    ensures { OnOk result (string_bytes out.new
        ≡ string_bytes out.old ++ warehouse_lines (database tables.now) tables.now.scale.warehouses) }
{
    for warehouse in 1..=tables.scale.warehouses() {
        print_warehouse(tables, warehouse, out)?;
        print_districts(tables, warehouse, out)?;
    }
    Ok(())
}

/// Appends the line of each district of a warehouse.
fn print_districts(tables: &Tables, warehouse: u32, out: &mut String) -> Result<(), AllocError>
    ensures { OnOk result (string_bytes out.new
        ≡ string_bytes out.old ++ district_lines (database tables.now) warehouse tables.now.scale.districts) }
{
    for district in 1..=tables.scale.districts() {
        let key = DistrictKey {
            warehouse,
            district,
        };
        print_district(tables, key, out)?;
    }
    Ok(())
}

/// Appends the line of a warehouse, if there is one.
fn print_warehouse(tables: &Tables, warehouse: u32, out: &mut String) -> Result<(), AllocError>
    ensures { OnOk result (string_bytes out.new
        ≡ string_bytes out.old ++ warehouse_line (database tables.now) warehouse) }
{
    match tables.warehouses.get(&warehouse) {
        Some(row) => print_row(
            &ShownRow::Warehouse {
                warehouse,
                row: *row,
            },
            out,
        ),
        None => Ok(()),
    }
}

/// Appends the line of a district, if there is one.
fn print_district(tables: &Tables, key: DistrictKey, out: &mut String) -> Result<(), AllocError>
    ensures { OnOk result (string_bytes out.new
        ≡ string_bytes out.old ++ district_line (database tables.now) key) }
{
    match tables.districts.get(&key) {
        Some(row) => print_row(&ShownRow::District { key, row: *row }, out),
        None => Ok(()),
    }
}

/// Appends the line of a row.
fn print_row(row: &ShownRow, out: &mut String) -> Result<(), AllocError>
    ensures { OnOk result (string_bytes out.new ≡ string_bytes out.old ++ row_line row.now) }
{
    writeln!(out, "{row}")
}
