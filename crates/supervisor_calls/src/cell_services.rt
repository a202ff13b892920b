//! Services that read saved registers, and read and write ports and model-specific registers.
ghost use Rattle.std.specs.Prelude.{◌≡◌, true, ◌<◌, ◌≤◌};
ghost use Rattle.mm_base.specs.Bus.{Answers};
ghost use Rattle.mm_base.specs.declared.access.Kind.TheVariants as kinds;
ghost use Rattle.mm_base.specs.declared.access.Right.TheVariants as rights;
ghost use Rattle.secure_policy.specs.Laws.{passes};
ghost use Rattle.platform_model.specs.Cells.{IsPortWidth};
ghost use Rattle.supervisor_calls.specs.Deeds.{number_seen, number_written};
ghost use Rattle.supervisor_calls.specs.Domains.{verdict_in, write_verdict, seen_registers};
ghost use Rattle.supervisor_calls.specs.Services.{gives, saved_read, port_read, port_write, register_read, register_write, is_port_width};
ghost use Rattle.supervisor_calls.specs.ServicesInside.{Does};

use crate::bus::low_number;
use crate::domain::Domain;
use crate::judging::OUT_BYTES;
use mm_base::status::{INVALID_PARAMETER, SUCCESS};
use mm_base::{CellWrite, Frames, Kind, Served};

/// Whether ports are accessed in this many bytes.
fn is_width(width: u64) -> bool
    ensures { result ≡ is_port_width width }
{
    width == 1 || width == 2 || width == 4
}

impl<F: Frames> Domain<F> {
    /// Writes a number at an out pointer that was asked for, as the last effect of a service.
    pub(crate) fn give(&mut self, out: u64, value: u64) -> u64
        requires { passes (write_verdict self.old kinds.Memory out 8) ≡ true }
        ensures { Does (gives out value) self.old (Ok result) self.new }
    {
        self.put(out, OUT_BYTES, value);
        SUCCESS
    }

    /// The saved register with this number, as the image sees it: 0 before lock.
    fn read_saved(&mut self, register: u64) -> Result<u64, Served>
        ensures { Answers (number_seen kinds.Saved register 1 self.old) result self.new }
    {
        self.pass_read(Kind::Saved, register, 1)?;
        if self.tables.is_locked() {
            Ok(self.saved.0[register as usize])
        } else {
            Ok(0)
        }
    }

    /// The number in `n` ports.
    fn read_ports(&mut self, port: u64, n: u8) -> Result<u64, Served>
        requires { IsPortWidth n }
        ensures { Answers (number_seen kinds.Io port n self.old) result self.new }
    {
        self.pass_read(Kind::Io, port, n)?;
        Ok(self.tables.platform.io_read(port, n))
    }

    /// A model-specific register.
    fn read_msr(&mut self, index: u64) -> Result<u64, Served>
        ensures { Answers (number_seen kinds.Msr index 1 self.old) result self.new }
    {
        self.pass_read(Kind::Msr, index, 1)?;
        Ok(self.tables.platform.rdmsr(index))
    }

    /// Writes the `n` low bytes of a number to ports.
    fn write_ports(&mut self, port: u64, n: u8, value: u64) -> Result<(), Served>
        requires { IsPortWidth n }
        ensures { Answers (number_written kinds.Io port n value self.old) result self.new }
    {
        self.pass_write(Kind::Io, port, n)?;
        self.tables.write_ports(port, n, value);
        self.records.write(CellWrite {
            kind: Kind::Io,
            at: port,
            n,
            value: low_number(n, value),
        });
        Ok(())
    }

    /// Writes a model-specific register.
    fn write_msr(&mut self, index: u64, value: u64) -> Result<(), Served>
        ensures { Answers (number_written kinds.Msr index 1 value self.old) result self.new }
    {
        self.pass_write(Kind::Msr, index, 1)?;
        self.tables.write_msr(index, value);
        self.records.write(CellWrite {
            kind: Kind::Msr,
            at: index,
            n: 1,
            value,
        });
        Ok(())
    }

    /// Gives a saved register.
    pub(crate) fn read_save_state(&mut self, register: u64, out: u64) -> Result<u64, Served>
        ensures { Does (saved_read register out) self.old result self.new }
    {
        let value = self.read_saved(register)?;
        self.ask_out(out)?;
        Ok(self.give(out, value))
    }

    /// Gives the number in 1, 2 or 4 ports.
    pub(crate) fn io_read(&mut self, width: u64, port: u64, out: u64) -> Result<u64, Served>
        ensures { Does (port_read width port out) self.old result self.new }
    {
        if !is_width(width) {
            return Ok(INVALID_PARAMETER);
        }
        let value = self.read_ports(port, width as u8)?;
        self.ask_out(out)?;
        Ok(self.give(out, value))
    }

    /// Writes the low bytes of a number to 1, 2 or 4 ports.
    pub(crate) fn io_write(&mut self, width: u64, port: u64, value: u64) -> Result<u64, Served>
        ensures { Does (port_write width port value) self.old result self.new }
    {
        if !is_width(width) {
            return Ok(INVALID_PARAMETER);
        }
        self.write_ports(port, width as u8, value)?;
        Ok(SUCCESS)
    }

    /// Gives a model-specific register.
    pub(crate) fn give_msr(&mut self, index: u64, out: u64) -> Result<u64, Served>
        ensures { Does (register_read index out) self.old result self.new }
    {
        let value = self.read_msr(index)?;
        self.ask_out(out)?;
        Ok(self.give(out, value))
    }

    /// Writes a model-specific register.
    pub(crate) fn set_msr(&mut self, index: u64, value: u64) -> Result<u64, Served>
        ensures { Does (register_write index value) self.old result self.new }
    {
        self.write_msr(index, value)?;
        Ok(SUCCESS)
    }
}
