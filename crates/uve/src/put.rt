// Numbers written into a report, lowest byte first.
ghost use Rattle.std.specs.Prelude.{◌≡◌, ◌+◌, ◌*◌, ◌≤◌, length};
ghost use Rattle.std.proofs.lemmas.List.Edits.{sets};
ghost use Rattle.engine.specs.Memory.{little_endian};
ghost use Rattle.uve.specs.Reports.{bytes_of64, lane_numbers, register_numbers};

use crate::numbers::state_numbers;
use engine::register::Register;

// Writes the eight bytes of a number from `at` on.
fn put(report: &mut [u8], at: usize, n: u64)
    requires { at + 8 ≤ length report.old }
    ensures { report.new ≡ sets report.old at (little_endian 8 n) }
{
    report[at..at + 8].copy_from_slice(&n.to_le_bytes());
}

// Writes numbers from `at` on, one behind the other.
pub(crate) fn put_all(report: &mut [u8], at: usize, numbers: &[u64])
    requires { at + 8 * length numbers.now ≤ length report.old }
    ensures { report.new ≡ sets report.old at (bytes_of64 numbers.now) }
{
    for (i, n) in numbers.iter().enumerate() {
        put(report, at + 8 * i, *n);
    }
}

// Writes the lane bytes of a register from `at` on: they are its eight lane numbers as they are.
fn put_lanes(report: &mut [u8], at: usize, lanes: &[u8])
    requires fits { at + 64 ≤ length report.old }
    requires whole { length lanes.now ≡ 64 }
    ensures { report.new ≡ sets report.old at (bytes_of64 (lane_numbers lanes.now)) }
{
    report[at..at + 64].copy_from_slice(lanes);
}

// Writes the fourteen numbers of a register from `at` on.
pub(crate) fn put_register(report: &mut [u8], at: usize, r: &Register)
    requires { at + 112 ≤ length report.old }
    ensures { report.new ≡ sets report.old at (bytes_of64 (register_numbers r.now)) }
{
    put_all(report, at, &state_numbers(r));
    put_lanes(report, at + 48, &r.lanes);
}
