//! The cells of the platform: ports, bytes of the device window, and model-specific registers. They act like memory: nothing else
//! happens when one is read or written.
ghost use Rattle.std.specs.Prelude.{◌≡◌, ◌+◌, ◌-◌, ◌≤◌, ◌<◌, ◌^◌, length, take, drop, IfOk, IsTrue, vec_len};
ghost use Rattle.mm_base.specs.Cells.{IsOpening, IsOpeningCell, is_msr};
ghost use Rattle.mm_base.specs.Frames.{zeros};
ghost use Rattle.mm_base.specs.Numbers.{low_bytes, number_in, overwritten};
ghost use Rattle.platform_model.specs.Cells.{PlatformState, IsPortWidth, register_in, with_register};
ghost use Rattle.platform_model.specs.Cells.{IsPlatform};
ghost use Rattle.platform_model.specs.Opening.{opening_state};
ghost use Rattle.platform_model.specs.OpeningInside.{blank_state, with_cell};

use mm_base::{
    CellWrite, DEVICE_WINDOW, Kind, MSRS, NoMemory, Opening, PORTS, UPPER_MSRS, number_at,
};
use std::alloc::Global;
use std::marker::Model;

/// All cells of the platform, in flat lists. Each call but `new` takes no memory, and costs the same whichever cells it is of.
#[derive(Debug, Drop)]
pub struct Platform {
    ports: Vec<u8>,
    device: Vec<u8>,
    msrs: Vec<u64>,
    upper_msrs: Vec<u64>,
}

impl Model for Platform {
    ghost use Rattle.platform_model.specs.Cells.{PlatformState, IsPlatform};

    ghost Value = { PlatformState };

    ghost view = { λ p. record {
      ports = p.ports.items;
      device = p.device.items;
      msrs = p.msrs.items;
      upper_msrs = p.upper_msrs.items;
    } };

    ghost invariant = { λ p. IsPlatform (record {
      ports = p.ports.items;
      device = p.device.items;
      msrs = p.msrs.items;
      upper_msrs = p.upper_msrs.items;
    }) };
}

impl Platform {
    /// The cells as they are at the start: of two lines for one cell the later one holds, and a cell without a line is 0. It takes
    /// memory for all cells, 256 KiB, and costs one step a cell and one a line.
    pub fn new(alloc: Global, opening: &Opening) -> Result<Platform, NoMemory>
        requires { IsOpening opening.now.cells }
        ensures { IfOk result (λ platform. platform ≡ opening_state opening.now.cells) }
    {
        let mut platform = Platform::blank(alloc)?;
        for cell in opening.cells.as_slice() {
            platform.put(*cell);
        }
        Ok(platform)
    }

    /// What holds of all cells: each of the map is there.
    pub fn keeps(&self)
        ensures { IsPlatform self.now }
    {
        let _ = self.ports.len();
    }

    /// All cells 0.
    fn blank(alloc: Global) -> Result<Platform, NoMemory>
        ensures { IfOk result (λ platform. platform ≡ blank_state) }
    {
        let ports = zero_bytes(alloc, PORTS as usize)?;
        let device = zero_bytes(alloc, DEVICE_WINDOW.length as usize)?;
        let msrs = zero_words(alloc, MSRS as usize)?;
        let upper_msrs = zero_words(alloc, MSRS as usize)?;
        Ok(Platform {
            ports,
            device,
            msrs,
            upper_msrs,
        })
    }

    /// Gives one cell its value at the start.
    fn put(&mut self, cell: CellWrite)
        requires { IsOpeningCell cell }
        ensures { self.new ≡ with_cell cell self.old }
    {
        match cell.kind {
            Kind::Memory => {
                self.device[(cell.at - DEVICE_WINDOW.base) as usize] = cell.value as u8;
            }
            Kind::Io => self.ports[cell.at as usize] = cell.value as u8,
            Kind::Msr => self.wrmsr(cell.at, cell.value),
            Kind::Saved => {}
        }
    }

    /// The number in `n` ports from `port` on, the lowest port first; `n` is 1, 2 or 4.
    pub fn io_read(&self, port: u64, n: u8) -> u64
        requires width { IsPortWidth n }
        requires within { port + n ≤ 65536 }
        ensures value { result ≡ number_in self.now.ports port n }
        ensures small { result < 256 ^ n }
    {
        small_number_at(self.ports.as_slice(), port as usize, n)
    }

    /// Writes the `n` low bytes of a number to the ports from `port` on; `n` is 1, 2 or 4.
    pub fn io_write(&mut self, port: u64, n: u8, value: u64)
        requires width { IsPortWidth n }
        requires within { port + n ≤ 65536 }
        ensures { self.new ≡ record self.old { ports = overwritten self.old.ports port (low_bytes n value) } }
    {
        overwrite_low(&mut self.ports, port as usize, n, value);
    }

    /// The model-specific register with this number, below 2000 (hexadecimal), or from C0000000 to C0001FFF.
    pub fn rdmsr(&self, index: u64) -> u64
        requires there { IsTrue (is_msr index) }
        ensures { result ≡ register_in self.now index }
    {
        if index < MSRS {
            self.msrs[index as usize]
        } else {
            self.upper_msrs[(index - UPPER_MSRS) as usize]
        }
    }

    /// Writes the model-specific register with this number.
    pub fn wrmsr(&mut self, index: u64, value: u64)
        requires there { IsTrue (is_msr index) }
        ensures { self.new ≡ with_register index value self.old }
    {
        if index < MSRS {
            self.msrs[index as usize] = value;
        } else {
            self.upper_msrs[(index - UPPER_MSRS) as usize] = value;
        }
    }

    /// The number in the `n` device bytes from the address `at` on, the lowest byte first; `n` is 1 to 8.
    pub fn dev_read(&self, at: u64, n: u8) -> u64
        requires low { 1 ≤ n }
        requires high { n ≤ 8 }
        requires there { 0xfe000000 ≤ at }
        requires within { at + n ≤ 0xfe010000 }
        ensures value { result ≡ number_in self.now.device (at - 0xfe000000) n }
        ensures small { result < 256 ^ n }
    {
        let place = (at - DEVICE_WINDOW.base) as usize;
        small_number_at(self.device.as_slice(), place, n)
    }

    /// The 16 device bytes from the address `at` on.
    pub fn sixteen_bytes(&self, at: u64) -> [u8; 16]
        requires there { 0xfe000000 ≤ at }
        requires within { at + 16 ≤ 0xfe010000 }
        ensures { result ≡ take 16 (drop (at - 0xfe000000) self.now.device) }
    {
        let place = (at - DEVICE_WINDOW.base) as usize;
        sixteen_at(self.device.as_slice(), place)
    }

    /// Writes the `n` low bytes of a number to the device bytes from the address `at` on; `n` is 1 to 8.
    pub fn dev_write(&mut self, at: u64, n: u8, value: u64)
        requires low { 1 ≤ n }
        requires high { n ≤ 8 }
        requires there { 0xfe000000 ≤ at }
        requires within { at + n ≤ 0xfe010000 }
        ensures { self.new ≡ record self.old {
          device = overwritten self.old.device (at - 0xfe000000) (low_bytes n value);
        } }
    {
        let place = (at - DEVICE_WINDOW.base) as usize;
        overwrite_low(&mut self.device, place, n, value);
    }
}

/// Bytes that are all 0.
fn zero_bytes(alloc: Global, count: usize) -> Result<Vec<u8>, NoMemory>
    ensures { IfOk result (λ bytes. bytes.items ≡ zeros count) }
{
    let bytes = vec![in alloc; 0u8; count]?;
    Ok(bytes)
}

/// Words of 64 bits that are all 0.
fn zero_words(alloc: Global, count: usize) -> Result<Vec<u64>, NoMemory>
    ensures { IfOk result (λ words. words.items ≡ zeros count) }
{
    let words = vec![in alloc; 0u64; count]?;
    Ok(words)
}

/// The number in `n` bytes, which is small, since each of them is.
fn small_number_at(bytes: &[u8], at: usize, n: u8) -> u64
    requires low { 1 ≤ n }
    requires high { n ≤ 8 }
    requires within { at + n ≤ length bytes.now }
    ensures value { result ≡ number_in bytes.now at n }
    ensures small { result < 256 ^ n }
{
    number_at(bytes, at, n)
}

/// The 16 bytes from a place on.
fn sixteen_at(bytes: &[u8], at: usize) -> [u8; 16]
    requires { at + 16 ≤ length bytes.now }
    ensures { result ≡ take 16 (drop at bytes.now) }
{
    let mut all = [0; 16];
    all.copy_from_slice(&bytes[at..at + 16]);
    all
}

/// Writes the `n` low bytes of a number over bytes from a place on.
fn overwrite_low(bytes: &mut Vec<u8>, at: usize, n: u8, value: u64)
    requires high { n ≤ 8 }
    requires within { at + n ≤ vec_len bytes.old }
    ensures { bytes.new.items ≡ overwritten bytes.old.items at (low_bytes n value) }
{
    let number = value.to_le_bytes();
    let (piece, _) = number.split_at(n as usize);
    bytes[at..at + n as usize].copy_from_slice(piece);
}
