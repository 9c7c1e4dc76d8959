//! The writes that carry an entry out.
ghost use Rattle.std.specs.Prelude.{◌≡◌, ◌<◌, length, All, Some, None};
ghost use Rattle.reo_fabric.specs.declared.port_state.PortState.TheVariants.{Answered};
ghost use Rattle.reo_fabric.specs.Entry.{carried_out};
ghost use Rattle.reo_fabric.specs.Engine.{answered};
ghost use Rattle.reo_fabric.specs.inside.Writes.{written, IsWithin};

use crate::entry_ref::EntryRef;
use crate::port_state::PortState;
use reo_value::Value;

/// Makes the cells empty from which is taken.
pub(crate) fn empty_cells(cells: &mut [Option<Value>], takes: &[(u32, Value)])
    requires { All (λ p. p.0 < length cells.old) takes.now }
    ensures { cells.new ≡ written (λ value. None) takes.now cells.old }
{
    for (cell, _) in takes {
        cells[*cell as usize] = None;
    }
}

/// Puts values into cells.
pub(crate) fn fill_cells(cells: &mut [Option<Value>], fills: &[(u32, Value)])
    requires { All (λ p. p.0 < length cells.old) fills.now }
    ensures { cells.new ≡ written Some fills.now cells.old }
{
    for (cell, value) in fills {
        cells[*cell as usize] = Some(*value);
    }
}

/// Answers ports with values, and with the number of the entry.
pub(crate) fn answer_ports(ports: &mut [PortState], places: &[(u32, Value)], number: u64)
    requires { All (λ p. p.0 < length ports.old) places.now }
    ensures { ports.new ≡ written (λ value. Answered value number) places.now ports.old }
{
    for (port, value) in places {
        ports[*port as usize] = PortState::Answered(*value, number);
    }
}

/// Carries out an entry of this number.
pub(crate) fn carry_out(
    cells: &mut [Option<Value>],
    ports: &mut [PortState],
    entry: &EntryRef<'_>,
    number: u64,
)
    requires within { IsWithin (length cells.old) (length ports.old) entry.now }
    ensures cells { cells.new ≡ carried_out cells.old entry.now }
    ensures ports { ports.new ≡ answered ports.old number entry.now }
{
    fill_cells(cells, entry.fills());
    empty_cells(cells, entry.takes());
    answer_ports(ports, entry.gets(), number);
    answer_ports(ports, entry.puts(), number);
}
