//! Which processors keep a page back.

ghost use Rattle.std.specs.Prelude.{◌≡◌, ◌≤◌, ◌<◌, length, vec_capacity};
ghost use Rattle.std.specs.Option.{option_map};
ghost use Rattle.sgx_machine.specs.inner.Parts.{cpu_at};
ghost use Rattle.driver_pass.specs.inner.Keeping.{first_of, is_older, keepers_by};
ghost use Rattle.driver_pass.specs.inner.Viewed.{number_of, numbers_in};

use cached_translations::processor::Mode;
use sgx_machine::machine::Machine;
use sgx_types::names::Cpu;

/// Finds the processors that are inside an enclave since before its epoch began, rising.
pub(crate) fn find_keepers(machine: &Machine, enclave: u16, epoch: u64, found: &mut Vec<Cpu>)
    requires { 16 ≤ vec_capacity found.old }
    ensures found { numbers_in found.new.items ≡ keepers_by machine.now enclave epoch }
    ensures capacity { vec_capacity found.new ≡ vec_capacity found.old }
{
    found.clear();
    for number in 0..machine.cpus() {
        let cpu = Cpu(number);
        if is_older(machine, cpu, enclave, epoch) {
            found.push_reserved(cpu);
        }
    }
}

/// The first of them.
pub fn first_keeper(machine: &Machine, enclave: u16, epoch: u64) -> Option<Cpu>
    ensures { option_map number_of result ≡ first_of (keepers_by machine.now enclave epoch) }
{
    for number in 0..machine.cpus() {
        let cpu = Cpu(number);
        if is_older(machine, cpu, enclave, epoch) {
            return Some(cpu);
        }
    }
    None
}

/// Whether a processor is inside an enclave since before its epoch began.
pub fn is_older(machine: &Machine, cpu: Cpu, enclave: u16, epoch: u64) -> bool
    requires { cpu.0 < length machine.now.cpus }
    ensures { result ≡ is_older (cpu_at machine.now cpu.0).mode enclave epoch }
{
    match machine.mode(cpu) {
        Mode::Outside => false,
        Mode::Inside {
            enclave: other,
            epoch: noted,
            ..
        } => other == enclave && noted < epoch,
    }
}
