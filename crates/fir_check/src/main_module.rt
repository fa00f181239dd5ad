//! The rule that a circuit has a main module.
ghost use Rattle.std.specs.Prelude.{◌≡◌, is_some, option_to_list};
ghost use Rattle.fir_check.specs.Scopes.{module_named};
ghost use Rattle.fir_check.specs.Rules.{no_main_lines};

use fir_ast::{Circuit, Module};

/// Whether a module has this name. The time is linear in the number of modules.
fn is_module(name: &[u8], modules: &[Module]) -> bool
    ensures { result ≡ is_some (module_named name.now modules.now) }
{
    let mut k = 0;
    while k < modules.len() {
        if modules[k].name.bytes() == name {
            return true;
        }
        k += 1;
    }
    false
}

/// The line of the circuit where no module has the circuit's name, else `None`. The time is linear
/// in the number of modules.
pub fn missing_main(circuit: &Circuit) -> Option<u32>
    ensures { option_to_list result ≡ no_main_lines circuit.now }
{
    if is_module(circuit.name.bytes(), circuit.modules.items()) {
        return None;
    }
    Some(circuit.line)
}
