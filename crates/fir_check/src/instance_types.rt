//! The types of instances: an instance is a bundle of its module's ports, the inputs flipped.
ghost use Rattle.std.specs.Prelude.{◌≡◌, IfOk, map};
ghost use Rattle.fir_check.specs.Scopes.{port_field, ports_type};

use fir_ast::{Field, Module, Port, Ty};
use sqlite_items::Items;
use std::alloc::Global;
use tb_base::Memory;

fn field_of_port(alloc: Global, port: &Port) -> Result<Field, Memory>
    ensures { IfOk result (λ f. f ≡ port_field port.now) }
{
    let name = port.name.copy(alloc)?;
    let ty = port.ty.copy(alloc)?;
    Ok(Field {
        flip: !port.output,
        name,
        ty,
    })
}

fn fields_of_ports(alloc: Global, ports: &[Port]) -> Result<Items<Field>, Memory>
    ensures { IfOk result (λ fields. fields ≡ map port_field ports.now) }
{
    let mut fields = Items::new(alloc);
    for port in ports {
        let field = field_of_port(alloc, port)?;
        fields.push(field)?;
    }
    Ok(fields)
}

/// The type of the instances of each module, in the order of the modules. Takes time and memory
/// linear in the ports.
pub fn instance_types(alloc: Global, modules: &[Module]) -> Result<Vec<Ty>, Memory>
    ensures { IfOk result (λ types. types.items ≡ map ports_type modules.now) }
{
    let mut types = Vec::new(alloc);
    for home in modules {
        let fields = fields_of_ports(alloc, home.ports.items())?;
        types.push(Ty::Bundle(fields))?;
    }
    Ok(types)
}
