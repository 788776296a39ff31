//! How many processors keep a page back, and which.

ghost use Rattle.std.specs.Prelude.{◌≡◌, length};
ghost use Rattle.driver_pass.specs.inner.Keeping.{keepers_by};
ghost use Rattle.driver_reclaim.specs.inner.Answers.{bits_of};

use driver_pass::keepers::is_older;
use sgx_machine::machine::Machine;
use sgx_types::names::Cpu;

/// The processors that are inside an enclave since before its epoch began, one bit each, the lowest for processor 0.
pub(crate) fn keepers(machine: &Machine, enclave: u16, epoch: u64) -> u16
    ensures { result ≡ bits_of (keepers_by machine.now enclave epoch) }
{
    let cpus = machine.cpus();
    let mut bits = 0;
    for back in 0..cpus {
        let keeps = is_older(machine, Cpu(cpus - 1 - back), enclave, epoch);
        bits = 2 * bits + u16::from(keeps);
    }
    bits
}

/// How many they are.
pub(crate) fn number_of_keepers(machine: &Machine, enclave: u16, epoch: u64) -> u32
    ensures { result ≡ length (keepers_by machine.now enclave epoch) }
{
    let cpus = machine.cpus();
    let mut count = 0;
    for back in 0..cpus {
        let keeps = is_older(machine, Cpu(cpus - 1 - back), enclave, epoch);
        count += u32::from(keeps);
    }
    count
}
